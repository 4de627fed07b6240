// Whether the processor, as a program has set it, does what binary32 says. A caller gives the floats, so that no compiler
// can work out the answer: it is seen where the call runs.
ghost use Rattle.std.specs.Prelude.{◌≡◌};
ghost use Rattle.binary32.specs.Environment.{keeps_small, rounds_to_nearest, keeps_binary32};

use crate::bits::bits_of;

// The distance from 1 to the next float, and half of it.
pub const AFTER_ONE: f32 = 0.00000011920929;

pub const HALF_AFTER_ONE: f32 = 0.000000059604645;

// Whether twice the least float above 0 is the next one: what is so small is not taken for 0.
fn keeps_small(least: f32) -> bool
    ensures { result ≡ keeps_small least }
{
    bits_of(least + least) == 2
}

// Whether a sum halfway between two floats goes to the even one, down from 1 and up from the float after it: rounding up, down
// or to 0 misses one of them.
fn rounds_to_nearest(one: f32) -> bool
    ensures { result ≡ rounds_to_nearest one }
{
    if bits_of(one + HALF_AFTER_ONE) != 0x3F80_0000 {
        return false;
    }
    bits_of(one + AFTER_ONE + HALF_AFTER_ONE) == 0x3F80_0002
}

// Whether sums are those of binary32, given 1 and the least float above 0.
pub fn keeps_binary32(one: f32, least: f32) -> bool
    ensures { result ≡ keeps_binary32 one least }
{
    if !keeps_small(least) {
        return false;
    }
    rounds_to_nearest(one)
}
