// What the names of a text stand for, looked up line by line.
#![tactic(auto)]

ghost use Rattle.std.specs.Prelude.{◌≡◌, ◌≤◌, length, Some, None};
ghost use Rattle.language.specs.Basics.{found, find, same};
ghost use Rattle.std.specs.List.{find as find_first};
ghost use Rattle.language.specs.Lines.{declared, name, states_behind};
ghost use Rattle.lookup.specs.Lookups.{has_name, opens_name, declares_constant};
ghost use Rattle.text.specs.Items.{starts_of};
ghost use Rattle.language.specs.OnSheet.{opener_at, line_at, lines_of, word_at, second_row};
ghost use Rattle.language.specs.Resolve.{constants_in, all_names, thing, target};

use language::house::Opener;
use language::line::{is_line, sort_at};
use language::names::{Target, Thing};
use language::view::{opener_at, second_row, third_row, word_at};
use measure::value::number_at;
use text::items::Items;
use text::row::Row;

// Whether lines of a sort declare a name.
fn has_name(opener: Opener) -> bool
    ensures { result ≡ has_name opener }
{
    !matches!(opener, Opener::Kind | Opener::Tact)
}

// The name that the line at a row declares.
pub fn name_at<'a>(rows: &[Row<'a>], at: usize) -> Option<&'a [u8]>
    ensures { elim result [ Some w ↦ name (line_at rows.now at) ≡ Some w.now | None ↦ name (line_at rows.now at) ≡ None ] }
{
    if has_name(sort_at(rows, at)) {
        Some(word_at(rows, second_row(rows, at)))
    } else {
        None
    }
}

// Whether the line at a row declares a name of a sort.
fn declares(rows: &[Row], at: usize, opener: Opener) -> bool
    ensures { result ≡ opens_name opener (opener_at rows.now at) }
{
    opener_at(rows, at).is_some_and(|own| has_name(own) && opener == own)
}

// Whether the second item of the line at a row is a word.
fn is_named(rows: &[Row], at: usize, w: &[u8]) -> bool
    ensures { result ≡ same (word_at rows.now (second_row rows.now at)) w.now }
{
    word_at(rows, second_row(rows, at)) == w
}

// The place of a word among the names that lines of a sort declare.
pub fn find_name(lines: Items, opener: Opener, w: &[u8]) -> Option<usize>
    ensures { result ≡ found w.now (declared opener (lines_of lines.entry)) }
{
    lines
        .iter()
        .filter(|at| declares(lines.rows, *at, opener))
        .position(|at| is_named(lines.rows, at, w))
}

// The row of the first line that declares a constant by a name.
fn constant_row(lines: Items, w: &[u8]) -> Option<usize>
    ensures { result ≡ find_first (declares_constant lines.entry.rows.now w.now) (starts_of lines.entry) }
{
    let rows = lines.rows;
    lines.iter().find(|at| is_line(rows, *at, Opener::Const) && is_named(rows, *at, w))
}

// The value of a constant by its name.
#[tactic(auto, using(crate::proofs::Lookups::find_rows))]
pub fn find_constant(lines: Items, w: &[u8]) -> Option<i32>
    ensures { result ≡ find (constants_in (lines_of lines.entry)) w.now }
{
    let rows = lines.rows;
    let at = constant_row(lines, w)?;
    Some(number_at(rows, third_row(rows, at)))
}

// What a name stands for in an expression.
pub fn thing_named(lines: Items, w: &[u8]) -> Option<Thing>
    ensures { result ≡ thing (all_names (lines_of lines.entry)) w.now }
{
    // What the closure of an `or_else` answers is not seen by the proof.
    if let Some(v) = find_constant(lines, w) {
        return Some(Thing::Constant(v));
    }
    if let Some(i) = find_name(lines, Opener::Cell, w) {
        return Some(Thing::Cell(i));
    }
    if let Some(i) = find_name(lines, Opener::In, w) {
        return Some(Thing::In(i));
    }
    find_name(lines, Opener::Out, w).map(Thing::Out)
}

// What a name stands for where something is put.
pub fn target_named(lines: Items, w: &[u8]) -> Option<Target>
    ensures { result ≡ target (all_names (lines_of lines.entry)) w.now }
{
    // As in thing_named.
    if let Some(i) = find_name(lines, Opener::Cell, w) {
        return Some(Target::Cell(i));
    }
    find_name(lines, Opener::Out, w).map(Target::Out)
}

// How many of some lines are states, up to the first that is none.
pub fn count_states(lines: Items) -> usize
    ensures is { result ≡ length (states_behind (lines_of lines.entry)) }
    ensures within { result ≤ lines.entry.count }
{
    lines
        .iter()
        .take_while(|at| is_line(lines.rows, *at, Opener::State))
        .count()
}
