// Whether the lines on a sheet are well formed.
ghost use Rattle.std.specs.Prelude.{◌≡◌, []};
ghost use Rattle.text.specs.Items.{forms_of};
ghost use Rattle.language.specs.OnSheet.{lines_of};
ghost use Rattle.language.specs.Translation.{causes, name_causes, first_cause};
ghost use Rattle.checks.specs.Refusals.{cause};

use crate::refusal::Refusal;
use limits::first_past_limit;
use naming::fresh::first_no_name;
use naming::known::first_unknown;
use naming::last::first_next_in_last;
use shape::order::first_unfit;
use text::items::Items;

// The first thing that is wrong with names.
// The causes are asked one by one, in their order: a table of them would want pointers to the functions and to the refusals.
fn check_names(lines: Items) -> Result<(), Refusal>
    ensures { cause result ≡ first_cause name_causes (forms_of lines.entry) (lines_of lines.entry) }
{
    if let Some(n) = first_no_name(lines) {
        return Err(Refusal::NoName(n));
    }
    if let Some(n) = first_unknown(lines) {
        return Err(Refusal::Unknown(n));
    }
    match first_next_in_last(lines) {
        Some(n) => Err(Refusal::NextInLast(n)),
        None => Ok(()),
    }
}

// The first thing that is wrong: the smallest cause, at its first line.
pub fn check(lines: Items) -> Result<(), Refusal>
    ensures { cause result ≡ first_cause causes (forms_of lines.entry) (lines_of lines.entry) }
{
    if let Some(n) = first_unfit(lines) {
        return Err(Refusal::Unfit(n));
    }
    if let Some(n) = first_past_limit(lines) {
        return Err(Refusal::PastLimit(n));
    }
    check_names(lines)
}
