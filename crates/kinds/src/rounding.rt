// Products and quotients in 64 bits, and their way back to 32.
ghost use Rattle.std.specs.Prelude.{◌≡◌, ◌-◌, ◌^◌, ◌<◌, ◌≤◌, ◌*ℤ◌, unsigned_abs};
ghost use Rattle.std.specs.Int.{saturate_to_bits};
ghost use Rattle.kinds.specs.Rounding.{nearest, nearest_size, NearestLaw};

// The product of two numbers of 32 bits, which fits 64.
pub(crate) fn product(a: i32, b: i32) -> i64
    ensures value { result ≡ a *ℤ b }
    ensures bound { unsigned_abs result ≤ 2 ^ 62 }
{
    i64::from(a) * i64::from(b)
}

// The whole number nearest to n / d, an exact half away from zero.
pub(crate) fn nearest(n: i64, d: i64) -> i64
    requires { (0 < unsigned_abs d) × ((unsigned_abs n < 2 ^ 63 - 1) × (unsigned_abs d < 2 ^ 63)) }
    ensures { result ≡ nearest n d }
{
    let size = nearest_size(n.unsigned_abs(), d.unsigned_abs()) as i64;
    if (n < 0) == (d < 0) { size } else { -size }
}

// The same for sizes: an exact half goes up.
fn nearest_size(n: u64, d: u64) -> u64
    requires { (0 < d) × ((n < 2 ^ 63) × (d < 2 ^ 63)) }
    ensures { result ≡ nearest_size n d }
{
    let whole = n / d;
    if d <= 2 * (n % d) { whole + 1 } else { whole }
}

// The number of 32 bits that is nearest to x.
pub(crate) fn stop(x: i64) -> i32
    ensures { result ≡ saturate_to_bits 31 x }
{
    x.clamp(i64::from(i32::MIN), i64::from(i32::MAX)) as i32
}

// States the law of the rounding, and returns 0.
pub fn nearest_is_near() -> u8
    ensures law { NearestLaw }
    ensures answer { result ≡ 0 }
{
    0
}
