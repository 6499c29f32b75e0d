// Numbers and counts past their limits, and what a text lacks.
#![tactic(auto)]

ghost use Rattle.std.specs.Prelude.{◌≡◌};
ghost use Rattle.language.specs.Basics.{earliest as earliest_of};
ghost use Rattle.language.specs.Causes.{first_past_limit};
ghost use Rattle.language.specs.OnSheet.{lines_of};
ghost use Rattle.text.specs.Items.{forms_of};

mod large;
mod past;
mod present;
mod range;
mod tally;

use crate::large::first_large;
use crate::past::first_past;
use crate::present::is_lacking;
use text::items::Items;

// The smaller of two line numbers, of those that are there.
fn earliest(a: Option<usize>, b: Option<usize>) -> Option<usize>
    ensures { result ≡ earliest_of a b }
{
    match (a, b) {
        (Some(m), Some(n)) => Some(m.min(n)),
        _ => a.or(b),
    }
}

// Line 0 if a text lacks its kind, its tact or a process, else the first line with a number past 32 bits or past a limit.
pub fn first_past_limit(lines: Items) -> Option<usize>
    ensures { result ≡ first_past_limit (forms_of lines.entry) (lines_of lines.entry) }
{
    if is_lacking(lines) {
        Some(0)
    } else {
        earliest(first_large(lines), first_past(lines))
    }
}
