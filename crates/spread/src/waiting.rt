// Which cells wait: their marks, and the ring that holds them.
ghost use Rattle.cells.specs.Ring.{HasCell, Took};
ghost use Rattle.spread.specs.Waiting.{Beginning, Began, Joining, Joined, SomeWait};
ghost use Rattle.spread.specs.Buffers.{held, SameLoans, TookFrom};

use crate::buffers::Buffers;
use cells::Ring;

// The cell was not reached, waits, or was taken. C lends the marks as bytes.
pub const MARK_TODO: u8 = 0;

pub const MARK_BORDER: u8 = 1;

pub const MARK_DONE: u8 = 2;

// Marks a cell as it begins: it waits if it starts.
pub fn begin_waiting(
    cell: u32,
    starts: bool,
    marks: &mut [u8],
    queue: &mut [u32],
    ring: Ring,
) -> Ring
    requires { Beginning cell marks.old queue.old ring }
    ensures { Began cell starts marks.old queue.old ring marks.new queue.new result }
{
    let at = cell as usize;
    if starts {
        marks[at] = MARK_BORDER;
        let mut waiting = ring;
        waiting.push(queue, cell);
        return waiting;
    }
    marks[at] = MARK_TODO;
    ring
}

// Lets a cell wait, unless it does.
pub fn wait(cell: u32, marks: &mut [u8], queue: &mut [u32], ring: Ring) -> Ring
    requires { Joining cell marks.old queue.old ring }
    ensures { Joined cell marks.old queue.old ring marks.new queue.new result }
{
    let at = cell as usize;
    if marks[at] != MARK_BORDER {
        marks[at] = MARK_BORDER;
        let mut waiting = ring;
        waiting.push(queue, cell);
        return waiting;
    }
    ring
}

// The cell that waited longest, and the ring without it.
fn take_waiting(b: &Buffers<'_>) -> (u32, Ring)
    requires { HasCell b.now.queue.now b.now.ring }
    ensures { Took b.now.queue.now b.now.ring result.0 result.1 }
{
    let mut ring = b.ring;
    let cell = ring.take(b.queue);
    (cell, ring)
}

// Takes the cell that waited longest, and marks it so.
pub fn take_first(b: &mut Buffers<'_>) -> u32
    requires { SomeWait b.old.marks.now b.old.queue.now b.old.ring }
    ensures does { TookFrom (held b.old) (held b.new) result }
    ensures same { SameLoans b.old b.new }
{
    let taken = take_waiting(b);
    let cell = taken.0;
    b.ring = taken.1;
    let at = cell as usize;
    b.marks[at] = MARK_DONE;
    cell
}
