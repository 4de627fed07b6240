// Nodata, and the one NaN that answers hold.
ghost use Rattle.std.specs.Prelude.{◌≡◌};
ghost use Rattle.std.specs.Float.Ieee as Ieee;
ghost use Rattle.binary32.specs.Nodata.{nodata};

// Whether x is nodata: a NaN, and nothing else, differs from itself.
pub fn is_nodata(x: f32) -> bool
    ensures { result ≡ nodata x }
{
    x != x
}

// The NaN of every answer. The compiler works out this quotient of two literals, as the bits
// 0x7FC00000. Taken at run time on x86, the same quotient has the bits 0xFFC00000.
pub fn nan() -> f32
    ensures { result ≡ Ieee.nan }
{
    0.0 / 0.0
}

// x as an answer holds it: any NaN as the one of `nan`, and every other value as it is.
// The logic has one NaN, with no sign and no payload, so there this changes nothing and no proof
// can see the bits: a run of the compiled code has to show them.
pub fn one_nan(x: f32) -> f32
    ensures { result ≡ x }
{
    if is_nodata(x) { nan() } else { x }
}
