// A number that no constant can hold.
ghost use Rattle.std.specs.Prelude.{◌≡◌, false};
ghost use Rattle.std.specs.Float.Ieee as Ieee;

// Above every finite number: the cap, or the limit, that limits nothing.
pub fn infinity() -> f32
    ensures { result ≡ Ieee.inf false }
{
    1.0 / 0.0
}
