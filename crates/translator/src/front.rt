// The words in front of the instructions: the head, and seventeen for each process.
ghost use Rattle.std.specs.List.{find};
ghost use Rattle.std.specs.Prelude.{◌≡◌, ◌+◌, ◌*◌, ◌≤◌, [], ◌∷◌, length, pos};
ghost use Rattle.language.specs.Basics.{count, otherwise, and_then};
ghost use Rattle.language.specs.Grammar.{kind_named};
ghost use Rattle.language.specs.Lines.{is, rank, declared, processes as processes_of};
ghost use Rattle.language.specs.OnSheet.{line_at, lines_of, house_at};
ghost use Rattle.text.specs.Items.{starts_of};
ghost use Rattle.language.specs.Words.{padded, process_words, kind_number, period};
ghost use Rattle.translator.specs.Writing.{states_on, states_size, processes_size};
ghost use Rattle.translator.specs.Front.{over, line_entries, process_entries, kind_at, head_words, front_words};

use crate::group::StateLines;
use crate::process::{line_size, size_states};
use crate::sheet::Sheet;
use language::house::{House, Opener};
use language::line::is_line;
use language::view::{house_at, opener_at, second_row};
use measure::value::number_at;
use text::row::{Row, next_row};

// How many words the head has, and how many entries the words of a process.
pub(crate) const HEAD: usize = 7;

pub(crate) const ENTRIES: usize = 16;

// How many lines are of a sort.
fn count_lines(sheet: Sheet, opener: Opener) -> usize
    ensures is { result ≡ count (is opener) (lines_of sheet.entry.lines) }
    ensures within { result ≤ sheet.entry.lines.count }
{
    let rows = sheet.lines.rows;
    sheet
        .lines
        .iter()
        .filter(|at| is_line(rows, *at, opener))
        .count()
}

// The row of the first line of a sort.
fn first_line(sheet: Sheet, opener: Opener) -> Option<usize>
    ensures { result ≡ find (λ at. is opener (line_at sheet.entry.lines.rows.now at)) (starts_of sheet.entry.lines) }
{
    let rows = sheet.lines.rows;
    sheet.lines.iter().find(|at| is_line(rows, *at, opener))
}

// The number of the kind that the word at a row names, or 0.
fn kind_named(rows: &[Row], at: usize) -> i32
    ensures { result ≡ otherwise (pos 0) (and_then (house_at rows.now at) kind_named) }
{
    match house_at(rows, at) {
        Some(House::KindName(kind)) => i32::from(kind),
        _ => 0,
    }
}

// The number of the kind that the line at a row names.
fn kind_at(rows: &[Row], at: usize) -> i32
    ensures { result ≡ kind_at rows.now at }
{
    match opener_at(rows, at) {
        Some(_) => kind_named(rows, second_row(rows, at)),
        None => 0,
    }
}

// The number of the kind that lines name.
fn kind_number(sheet: Sheet) -> i32
    ensures { result ≡ kind_number (lines_of sheet.entry.lines) }
{
    let Some(at) = first_line(sheet, Opener::Kind) else {
        return 0;
    };
    kind_at(sheet.lines.rows, at)
}

// The period that lines give.
fn period(sheet: Sheet) -> i32
    ensures { result ≡ period (lines_of sheet.entry.lines) }
{
    let Some(at) = first_line(sheet, Opener::Tact) else {
        return 0;
    };
    let rows = sheet.lines.rows;
    number_at(rows, second_row(rows, at))
}

// How many names lines of a sort declare, as a word.
fn names_word(sheet: Sheet, opener: Opener) -> i32
    requires named { 3 ≤ rank opener }
    ensures { result ≡ pos (length (declared opener (lines_of sheet.entry.lines))) }
{
    count_lines(sheet, opener) as i32
}

// The seven words of the head, for so many processes and instructions.
fn head_words(sheet: Sheet, processes: usize, instructions: usize) -> [i32; 7]
    requires counted { processes ≤ 32768 }
    requires small { instructions ≤ 4096 }
    ensures { result ≡ head_words (lines_of sheet.entry.lines) processes instructions }
{
    let kind = kind_number(sheet);
    let tact = period(sheet);
    let cells = names_word(sheet, Opener::Cell);
    let inputs = names_word(sheet, Opener::In);
    let outputs = names_word(sheet, Opener::Out);
    [
        kind,
        tact,
        cells,
        inputs,
        outputs,
        processes as i32,
        instructions as i32,
    ]
}

// Writes the head of a code for so many processes and instructions.
fn write_head(sheet: Sheet, processes: usize, instructions: usize, code: &mut [i32])
    requires counted { processes ≤ 32768 }
    requires small { instructions ≤ 4096 }
    requires room { 7 ≤ length code.old }
    ensures { code.new ≡ over 0 (head_words (lines_of sheet.entry.lines) processes instructions) code.old }
{
    let words = head_words(sheet, processes, instructions);
    code[..HEAD].copy_from_slice(&words);
}

// Writes the entries of a process's states, whose bodies begin at place p, and 0 for each unused one, from word w on.
fn write_entries(sheet: Sheet, states: StateLines, p: usize, code: &mut [i32], w: usize)
    requires small { p + states_size (states_on sheet states) ≤ 4096 }
    requires room { w + 16 ≤ length code.old }
    ensures { code.new ≡ over w (padded 16 (line_entries p (states_on sheet.entry states)) []) code.old }
{
    let mut left = sheet.items(states).iter();
    let mut place = p;
    for i in 0..ENTRIES {
        match left.next() {
            Some(at) => {
                code[w + i] = place as i32;
                place += line_size(sheet.lines.rows, at) + 1;
            }
            None => code[w + i] = 0,
        }
    }
}

// Writes the words of a process, whose bodies begin at place p, from word w on.
fn write_process(sheet: Sheet, states: StateLines, p: usize, code: &mut [i32], w: usize)
    requires small { p + states_size (states_on sheet states) ≤ 4096 }
    requires room { w + 17 ≤ length code.old }
    ensures { code.new ≡ over w (process_words (line_entries p (states_on sheet.entry states) ∷ []) []) code.old }
{
    code[w] = states.count as i32;
    write_entries(sheet, states, p, code, w + 1);
}

// Writes the words of all processes.
fn write_processes(sheet: Sheet, code: &mut [i32])
    requires small { processes_size (processes_of (lines_of sheet.lines)) ≤ 4096 }
    requires room { 7 + 17 * length (processes_of (lines_of sheet.lines)) ≤ length code.old }
    ensures { code.new ≡ over 7 (process_words (process_entries 0 (processes_of (lines_of sheet.entry.lines))) []) code.old }
{
    let mut p = 0;
    let mut w = HEAD;
    for states in sheet.processes() {
        write_process(sheet, states, p, code, w);
        p += size_states(sheet, states);
        w += 1 + ENTRIES;
    }
}

// Writes the head and the words of all processes, for so many processes and instructions.
pub(crate) fn write_front(sheet: Sheet, processes: usize, instructions: usize, code: &mut [i32])
    requires within { processes ≤ sheet.lines.count }
    requires counted { processes ≡ length (processes_of (lines_of sheet.lines)) }
    requires measured { instructions ≡ processes_size (processes_of (lines_of sheet.lines)) }
    requires small { instructions ≤ 4096 }
    requires room { 7 + 17 * processes ≤ length code.old }
    ensures { code.new ≡ over 0 (front_words (lines_of sheet.entry.lines)) code.old }
{
    write_head(sheet, processes, instructions, code);
    write_processes(sheet, code);
}
