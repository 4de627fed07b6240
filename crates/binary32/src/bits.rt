// Floats by their bits. The language has one NaN, so no pattern of one is made or read.
ghost use Rattle.std.specs.Prelude.{◌≡◌};
ghost use Rattle.std.specs.Float.Ieee as Ieee;

use crate::nodata::{is_nodata, nan};

// The bits of the NaN that an answer holds.
pub const NAN_BITS: u32 = 0x7FC0_0000;

// The float of a bit pattern.
pub fn of_bits(bits: u32) -> f32
    ensures { result ≡ Ieee.of_bits Ieee.binary32 bits }
{
    if 0x7F80_0000 < bits % 0x8000_0000 {
        return nan();
    }
    f32::from_bits(bits)
}

// The bit pattern of a float, every NaN being the one of an answer.
pub fn bits_of(x: f32) -> u32
    ensures { result ≡ Ieee.to_bits Ieee.binary32 x }
{
    if is_nodata(x) {
        return NAN_BITS;
    }
    f32::to_bits(x)
}
