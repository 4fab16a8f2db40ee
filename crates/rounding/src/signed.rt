// The division of a signed number that rounds down.
ghost use Rattle.std.specs.Prelude.{◌≡◌, ◌<◌};
ghost use Rattle.rounding.specs.Floor.{floor_div};

// x / d towards minus infinity.
pub fn floor_div(x: i64, d: u32) -> i64
    requires { 0 < d }
    ensures { result ≡ floor_div x d }
{
    x.div_euclid(i64::from(d))
}
