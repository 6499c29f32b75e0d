// The value of a number's digits.
ghost use Rattle.std.specs.Prelude.{◌≡◌, ◌+◌, ◌-◌, ◌*◌, min};
ghost use Rattle.language.specs.Numbers.{digits as digits_of, short_value, word_value};
ghost use Rattle.language.specs.OnSheet.{digits_at};
ghost use Rattle.measure.specs.Narrow.{of_32_bits};

use language::view::digits_at;
use text::row::Row;

// What a magnitude past 32 bits is counted as, behind either sign.
const PAST: u32 = 2_147_483_649;

// One more digit behind a number, counted up to PAST.
fn with_digit(n: u32, digit: u8) -> u32
    ensures { result ≡ min (10 * n + (digit - 48)) 2147483649 }
{
    n.saturating_mul(10)
        .saturating_add(u32::from(digit.saturating_sub(b'0')))
        .min(PAST)
}

// The number that digits are, counted up to PAST.
fn magnitude(digits: &[u8]) -> u32
    ensures { result ≡ min (digits_of 0 digits.now) 2147483649 }
{
    digits.iter().fold(0, |n, digit| with_digit(n, *digit))
}

// A number, if it has 32 bits.
fn narrow(n: i64) -> Option<i32>
    ensures { result ≡ of_32_bits n }
{
    i32::try_from(n).ok()
}

// The value of a number's digits behind a sign or none, if it has 32 bits.
pub fn value(digits: &[u8]) -> Option<i32>
    ensures { result ≡ short_value digits.now }
{
    match digits {
        [b'-', digits @ ..] => narrow(-i64::from(magnitude(digits))),
        _ => narrow(i64::from(magnitude(digits))),
    }
}

// The number at a row as a word of 32 bits; one that has more counts as 0.
pub fn number_at(rows: &[Row], at: usize) -> i32
    ensures { result ≡ word_value (digits_at rows.now at) }
{
    value(digits_at(rows, at)).unwrap_or(0)
}
