// The flat code of the lines on a sheet.
ghost use Rattle.std.specs.Prelude.{◌≡◌, ◌≤◌, ◌++◌, length, drop};
ghost use Rattle.language.specs.Program.{size_of_all, bound};
ghost use Rattle.language.specs.Resolve.{program};
ghost use Rattle.language.specs.Words.{words};
ghost use Rattle.language.specs.OnSheet.{lines_of};

use crate::front::{ENTRIES, HEAD, write_front};
use crate::process::{emit_processes, measure};
use crate::sheet::Sheet;
use text::row::Row;

// How many words the code of lines has.
pub(crate) fn count_words(sheet: Sheet) -> usize
    requires small { size_of_all (program (lines_of sheet.lines)) ≤ 4096 }
    ensures { result ≡ length (words (lines_of sheet.entry.lines)) }
{
    let (processes, instructions) = measure(sheet);
    HEAD + (1 + ENTRIES) * processes + 2 * instructions
}

// Writes the words of lines over the first words of a code; answers how many there are, and the bound of a scan's steps.
pub(crate) fn write_code(sheet: Sheet, code: &mut [i32]) -> (usize, usize)
    requires small { size_of_all (program (lines_of sheet.lines)) ≤ 4096 }
    requires room { length (words (lines_of sheet.lines)) ≤ length code.old }
    ensures count { result.0 ≡ length (words (lines_of sheet.entry.lines)) }
    ensures steps { result.1 ≡ bound (program (lines_of sheet.entry.lines)) }
    ensures wrote { code.new ≡ words (lines_of sheet.entry.lines) ++ drop (length (words (lines_of sheet.entry.lines))) code.old }
{
    let (processes, instructions) = measure(sheet);
    let base = HEAD + (1 + ENTRIES) * processes;
    let end = base + 2 * instructions;
    write_front(sheet, processes, instructions, code);
    let steps = emit_processes(sheet, &mut code[base..end]);
    (end, steps)
}
