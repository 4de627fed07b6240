// The cells that wait, first in first out: a ring in lent slots, one more of them than cells can wait.
// The contracts speak of `contents`, the list of the waiting cells, alone.
ghost use Rattle.std.specs.Prelude.{◌≡◌, ◌<◌, get_or};
ghost use Rattle.cells.specs.Ring.{next, contents, HasRoom, HasCell, SaysEmpty, NewRing, Pushed, Took};

// The slot of the cell that is next to be taken, and the slot that is next to be filled. The slots are lent to each call: what a slice
// that is lent in a struct within a struct holds at the end was not proved.
#[derive(Clone, Copy)]
pub struct Ring {
    pub head: usize,
    pub tail: usize,
}

// The slot after a slot, of `len` in a ring. A comparison takes less time than a remainder.
fn slot_after(len: usize, slot: usize) -> usize
    requires { slot < len }
    ensures { result ≡ next len slot }
{
    let after = slot + 1;
    if after == len {
        return 0;
    }
    after
}

impl Ring {
    // A ring in which nothing waits.
    pub fn new() -> Self
        ensures { NewRing result }
    {
        Self { head: 0, tail: 0 }
    }

    // Whether nothing waits.
    pub fn is_empty(&self) -> bool
        ensures { SaysEmpty self.now result }
    {
        self.head == self.tail
    }

    // Adds a cell behind those that wait.
    pub fn push(&mut self, slots: &mut [u32], cell: u32)
        requires { HasRoom slots.old self.old }
        ensures { Pushed slots.old self.old cell slots.new self.new }
    {
        slots[self.tail] = cell;
        self.tail = slot_after(slots.len(), self.tail);
    }

    // The cell that waited longest, which waits on.
    pub fn first(&self, slots: &[u32]) -> u32
        requires { HasCell slots.now self.now }
        ensures { result ≡ get_or (contents slots.now self.now) 0 0 }
    {
        slots[self.head]
    }

    // Takes the cell that waited longest.
    pub fn take(&mut self, slots: &[u32]) -> u32
        requires { HasCell slots.now self.old }
        ensures { Took slots.now self.old result self.new }
    {
        let cell = self.first(slots);
        self.head = slot_after(slots.len(), self.head);
        cell
    }
}
