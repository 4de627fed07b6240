// Buffers that hold something before a call, and what they hold after it.
ghost use Rattle.std.specs.Prelude.{ℕ, ◌≡◌, ◌↔◌, IsTrue};
ghost use Rattle.std.specs.Float.{nan, binary32};
ghost use Rattle.std.specs.Float.Ieee.{to_bits};
ghost use Rattle.replay.specs.Buffers.{AllHold, SameBits, left_of, dirty_byte, dirty_word, dirty_float};

// A cell of a lent buffer, which is compared by its bits.
pub trait Held: Copy {
    ghost bits: { Self → ℕ };

    // The cell that a proof reads past a buffer's end.
    ghost past: { Self };

    ghost dirty_bits: { ℕ };

    // What each cell holds before the call.
    fn dirty() -> Self
        ensures { bits result ≡ dirty_bits };

    fn bits(self) -> u32
        ensures { result ≡ bits self };
}

impl Held for u8 {
    ghost bits = { λ byte. byte };

    ghost past = { 0 };

    ghost dirty_bits = { dirty_byte };

    fn dirty() -> u8 {
        0xA5
    }

    fn bits(self) -> u32 {
        u32::from(self)
    }
}

impl Held for u32 {
    ghost bits = { λ word. word };

    ghost past = { 0 };

    ghost dirty_bits = { dirty_word };

    fn dirty() -> u32 {
        0xA5A5_A5A5
    }

    fn bits(self) -> u32 {
        self
    }
}

impl Held for f32 {
    ghost bits = { to_bits binary32 };

    ghost past = { nan };

    ghost dirty_bits = { dirty_float };

    fn dirty() -> f32 {
        -77.25
    }

    fn bits(self) -> u32 {
        binary32::bits_of(self)
    }
}

// Whether the floats have these bits, one for one.
pub fn same_bits(cells: &[f32], bits: &[u32]) -> bool
    ensures { IsTrue result ↔ SameBits cells.now bits.now }
{
    cells.len() == bits.len()
        && cells
            .iter()
            .zip(bits)
            .all(|(cell, bits)| binary32::bits_of(*cell) == *bits)
}

// Whether every cell has these bits.
fn all_have<T: Held>(cells: &[T], bits: u32) -> bool
    ensures { IsTrue result ↔ AllHold T.bits T.past cells.now bits }
{
    cells.iter().all(|cell| cell.bits() == bits)
}

// Whether a work buffer was cleared, or else was left as it was.
pub fn left<T: Held>(cells: &[T], cleared: bool) -> bool
    ensures { IsTrue result ↔ AllHold T.bits T.past cells.now (left_of T.dirty_bits cleared) }
{
    all_have(cells, if cleared { 0 } else { T::dirty().bits() })
}
