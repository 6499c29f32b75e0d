// Names that are house words, or were met before.
ghost use Rattle.std.specs.Prelude.{◌≡◌, []};
ghost use Rattle.language.specs.Basics.{among, any};
ghost use Rattle.language.specs.Causes.{first_no_name, no_name, rivals};
ghost use Rattle.language.specs.Lines.{name, names};
ghost use Rattle.language.specs.OnSheet.{line_at, lines_of};
ghost use Rattle.naming.specs.Rivals.{bears, takes_up};
ghost use Rattle.naming.specs.Splits.{line_of};
ghost use Rattle.naming.specs.Spots.{back_of};

use crate::spot::{Spot, Spots};
use language::house::{Opener, house_word};
use language::line::is_line;
use lookup::name_at;
use text::items::Items;
use text::row::Row;

// Whether the line at a row declares a word.
fn bears_name(rows: &[Row], at: usize, w: &[u8]) -> bool
    ensures { result ≡ bears w.now (name (line_at rows.now at)) }
{
    name_at(rows, at).is_some_and(|v| v == w)
}

// Whether the line at a row declares a word and is no state, unless states count too.
fn takes_up(rows: &[Row], at: usize, states: bool, w: &[u8]) -> bool
    ensures { result ≡ takes_up states w.now (line_at rows.now at) }
{
    (states || !is_line(rows, at, Opener::State)) && bears_name(rows, at, w)
}

// Whether one of some lines does.
fn is_met(lines: Items, states: bool, w: &[u8]) -> bool
    ensures { result ≡ any (takes_up states w.now) (lines_of lines.entry) }
{
    lines.iter().any(|at| takes_up(lines.rows, at, states, w))
}

// Whether a word is one of the names that a line's name must differ from.
fn is_taken(spot: Spot, w: &[u8]) -> bool
    ensures { result ≡ among w.now (names (rivals (back_of spot.entry.before) (line_of spot.entry))) }
{
    if is_line(spot.before.rows, spot.at, Opener::State) {
        is_met(spot.states, true, w)
    } else {
        is_met(spot.before, false, w)
    }
}

// Whether a line has a name that is a house word or was met before.
fn is_no_name(spot: Spot) -> bool
    ensures { result ≡ no_name (names (rivals (back_of spot.entry.before) (line_of spot.entry))) (name (line_of spot.entry)) }
{
    match name_at(spot.before.rows, spot.at) {
        Some(w) => house_word(w).is_some() || is_taken(spot, w),
        None => false,
    }
}

// The first line that declares no new name.
pub fn first_no_name(lines: Items) -> Option<usize>
    ensures { result ≡ first_no_name [] (lines_of lines.entry) }
{
    Spots::of(lines)
        .position(|spot| is_no_name(spot))
        .map(|i| i + 1)
}
