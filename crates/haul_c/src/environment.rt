// Whether floats are what the proofs suppose, where the caller runs.
ghost use Rattle.std.specs.Prelude.{◌≡◌, cond};
ghost use Rattle.binary32.specs.Environment.{keeps_binary32};

use binary32::keeps_binary32;

// 1 where sums are those of binary32, else 0, given 1 and the least float above 0. The caller gives them, so that nothing is worked
// out before the call runs.
#[unsafe(no_mangle)]
pub extern "C" fn haul_keeps_binary32(one: f32, least: f32) -> u32
    ensures { result ≡ cond (keeps_binary32 one least) 1 0 }
{
    if keeps_binary32(one, least) { 1 } else { 0 }
}
