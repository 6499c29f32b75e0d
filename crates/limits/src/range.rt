// The ranges of periods and timeouts.
ghost use Rattle.std.specs.Prelude.{◌≡◌};
ghost use Rattle.language.specs.Causes.{timely, all_timely, past_range};
ghost use Rattle.language.specs.Numbers.{within, value_of};
ghost use Rattle.language.specs.OnSheet.{act_at, body_at, line_at};

use language::house::Opener;
use language::line::body_at;
use language::view::{ActView, act_view, digits_at, opener_at, second_row};
use measure::value::value;
use text::row::Row;

// The longest period, and the longest timeout.
const LONGEST_TACT: i32 = 60_000;

const LONGEST_TIMEOUT: i32 = 65_535;

// Whether the value of digits is in a range.
fn is_within(digits: &[u8], low: i32, high: i32) -> bool
    ensures { result ≡ within low high (value_of digits.now) }
{
    value(digits).is_some_and(|v| low <= v && v <= high)
}

// Whether the statement at a row is no timeout out of range.
fn is_timely(rows: &[Row], at: usize) -> bool
    ensures { result ≡ timely (act_at 12 rows.now at) }
{
    let Some(view) = act_view(rows, at) else {
        return true;
    };
    match view {
        ActView::After(n, _) => is_within(digits_at(rows, n), 0, LONGEST_TIMEOUT),
        _ => true,
    }
}

// Whether none of a body's own statements is a timeout out of range.
fn is_body_timely(rows: &[Row], at: usize) -> bool
    ensures { result ≡ all_timely (body_at rows.now at) }
{
    body_at(rows, at).iter().all(|item| is_timely(rows, item))
}

// Whether the line at a row has a period or a timeout out of range.
#[tactic(auto, unfolding(language::specs::OnSheet::line_at))]
pub fn past_range(rows: &[Row], at: usize) -> bool
    ensures { result ≡ past_range (line_at rows.now at) }
{
    match opener_at(rows, at) {
        Some(Opener::Tact) => !is_within(digits_at(rows, second_row(rows, at)), 1, LONGEST_TACT),
        Some(Opener::State) => !is_body_timely(rows, at),
        _ => false,
    }
}
