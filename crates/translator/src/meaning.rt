// What names and numbers on a sheet stand for.
ghost use Rattle.std.specs.Prelude.{◌≡◌, ◌^◌, ◌<◌, ◌≤◌, pos};
ghost use Rattle.language.specs.Basics.{otherwise, found};
ghost use Rattle.language.specs.Numbers.{word_value, natural};
ghost use Rattle.language.specs.Lines.{declared};
ghost use Rattle.language.specs.OnSheet.{word_at, digits_at};
ghost use Rattle.language.specs.Resolve.{thing, target, process};
ghost use Rattle.language.specs.declared.names.Thing.TheVariants.{Constant};
ghost use Rattle.language.specs.declared.names.Target.TheVariants.{Cell as CellTarget};
ghost use Rattle.language.specs.declared.house.Opener.TheVariants.{State};
ghost use Rattle.language.specs.Pushes.{thing_source, target_instr};
ghost use Rattle.translator.specs.Writing.{names_at, states_on, source_operand, operand};

use crate::group::StateLines;
use crate::sheet::Sheet;
use flat::instr::{Instr, Source};
use language::house::Opener;
use language::view::word_at;
use lookup::{find_name, target_named, thing_named};
use measure::value::number_at;
use text::row::Row;

// The number at a row as a count, a negative one as 0.
pub(crate) fn count_at(rows: &[Row], at: usize) -> usize
    ensures is { result ≡ natural (word_value (digits_at rows.now at)) }
    ensures below { result < 2 ^ 31 }
{
    usize::try_from(number_at(rows, at)).unwrap_or(0)
}

// What the name at a row pushes.
pub(crate) fn source_at(sheet: Sheet, at: usize) -> Source
    ensures is { result ≡ thing_source (otherwise (Constant (pos 0)) (thing (names_at sheet.entry) (word_at sheet.entry.lines.rows.now at))) }
    ensures below { source_operand result ≤ sheet.entry.lines.count }
{
    thing_named(sheet.lines, word_at(sheet.lines.rows, at)).map_or(Source::Lit(0), Source::from)
}

// The instruction that puts a value under the name at a row.
pub(crate) fn target_at(sheet: Sheet, at: usize) -> Instr
    ensures is { result ≡ target_instr (otherwise (CellTarget 0) (target (names_at sheet.entry) (word_at sheet.entry.lines.rows.now at))) }
    ensures below { operand result ≤ sheet.entry.lines.count }
{
    target_named(sheet.lines, word_at(sheet.lines.rows, at)).map_or(Instr::Keep(0), Instr::from)
}

// The number of the process whose name stands at a row.
pub(crate) fn process_at(sheet: Sheet, at: usize) -> usize
    ensures is { result ≡ process (names_at sheet.entry) (word_at sheet.entry.lines.rows.now at) }
    ensures below { result ≤ sheet.entry.lines.count }
{
    let w = word_at(sheet.lines.rows, at);
    find_name(sheet.lines, Opener::Proc, w).unwrap_or(0)
}

// The number, among the states of a process, of the one whose name stands at a row.
pub(crate) fn state_at(sheet: Sheet, states: StateLines, at: usize) -> usize
    ensures is { result ≡ otherwise 0 (found (word_at sheet.entry.lines.rows.now at) (declared State (states_on sheet.entry states))) }
    ensures below { result ≤ states.count }
{
    let w = word_at(sheet.lines.rows, at);
    find_name(sheet.items(states), Opener::State, w).unwrap_or(0)
}
