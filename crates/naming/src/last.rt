// States behind the last of a process.
ghost use Rattle.std.specs.Prelude.{◌≡◌, ◌&&◌, List, [], length, ◌==◌};
ghost use Rattle.language.specs.Causes.{first_next_in_last};
ghost use Rattle.language.specs.Lines.{body, states_behind};
ghost use Rattle.language.specs.OnSheet.{act_at, act_of, acts_in, change_of, term_at, line_at, lines_of};
ghost use Rattle.language.specs.Resolve.{has_next};
ghost use Rattle.naming.specs.Splits.{line_of};
ghost use Rattle.text.specs.declared.row.Row.{Row};

use crate::spot::{DEPTH, Spot, Spots};
use language::house::Opener;
use language::line::{body_at, is_line};
use language::view::{ActView, Change, act_view};
use lookup::count_states;
use text::items::Items;
use text::row::Row;

// Whether a statement that sets a state or a clock is a `next`.
fn is_next(change: Change) -> bool
    ensures { (sheet : List Row) → result ≡ has_next (change_of sheet change) }
{
    matches!(change, Change::Next)
}

// Whether a statement has a `next`, its parts read at most so deep.
#[cycle(has_next_have_next_view_has_next)]
fn view_has_next(rows: &[Row], view: ActView, left: usize) -> bool
    ensures { result ≡ has_next (act_of rows.now (term_at left rows.now) (act_at left rows.now) view) }
{
    match view {
        ActView::When(_, s) | ActView::After(_, s) => has_next(rows, s, left),
        ActView::Choose(_, s, t) => has_next(rows, s, left) || has_next(rows, t, left),
        ActView::Do(first, count) => have_next(Items { rows, first, count }, left),
        ActView::Set(change) => is_next(change),
        ActView::Put(_, _) => false,
    }
}

// Whether the statement at a row has one, read at most so deep.
#[cycle(has_next_have_next_view_has_next)]
fn has_next(rows: &[Row], at: usize, left: usize) -> bool
    ensures { result ≡ has_next (act_at left rows.now at) }
{
    if left == 0 {
        return false;
    }
    match act_view(rows, at) {
        Some(view) => view_has_next(rows, view, left - 1),
        None => false,
    }
}

// Whether one of some statements has one.
#[cycle(has_next_have_next_view_has_next)]
fn have_next(acts: Items, left: usize) -> bool
    ensures { result ≡ has_next (acts_in (act_at left acts.entry.rows.now) acts.entry) }
{
    for at in acts.iter() {
        if has_next(acts.rows, at, left) {
            return true;
        }
    }
    false
}

// Whether the line at a row has a `next` in its body.
#[tactic(auto, unfolding(language::specs::OnSheet::line_at))]
fn line_has_next(rows: &[Row], at: usize) -> bool
    ensures { result ≡ has_next (body (line_at rows.now at)) }
{
    is_line(rows, at, Opener::State) && have_next(body_at(rows, at), DEPTH)
}

// Whether a line has a `next` and no state right behind it.
fn is_past_last(spot: Spot) -> bool
    ensures { result ≡ (has_next (body (line_of spot.entry)) && length (states_behind (lines_of spot.entry.behind)) == 0) }
{
    line_has_next(spot.before.rows, spot.at) && count_states(spot.behind) == 0
}

// The first line with `next` in its process's last state.
pub fn first_next_in_last(lines: Items) -> Option<usize>
    ensures { result ≡ first_next_in_last [] (lines_of lines.entry) }
{
    Spots::of(lines)
        .position(|spot| is_past_last(spot))
        .map(|i| i + 1)
}
