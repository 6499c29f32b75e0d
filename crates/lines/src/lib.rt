// The lines that are printed of a run.
#![tactic(auto)]

ghost use Rattle.std.specs.Prelude.{◌≡◌, ◌∷◌, ◌++◌, codes, decimal, map, take, IfOk, Some};
ghost use Rattle.std.specs.List.{flat_map};
ghost use Rattle.numerals.specs.Print.{Appended, bracketed};
ghost use Rattle.lines.specs.Lines.{shown_row, shown_line, scan_line, refusal_line};
ghost use Rattle.std.specs.Fmt.{WritesOnOk};

use board::Board;
use board::rows::Row;
use flat::head::Head;
use itoa::Buffer;
use kinds::Kind;
use numerals::{Bracketed, push_shown_with_room, write_item, write_value};
use std::alloc::{AllocError, Global};
use std::fmt;
use std::fmt::Display;

#[cfg(test)]
mod tests;

// What a scan's line shows: its number, the processes, the cells, the outputs and the steps.
#[derive(Clone, Copy)]
struct ScanLine<'a, K> {
    n: u64,
    rows: &'a [Row],
    cells: &'a [K],
    outputs: &'a [i32],
    steps: u32,
}

// Writes a number behind a space.
#[inline(always)]
fn write_count<W: fmt::Write>(f: &mut fmt::Formatter<W>, n: u32) -> fmt::Result
    ensures { WritesOnOk W.write_str_gives f.old result (32 ∷ decimal n) f.new }
{
    f.write_str(" ")?;
    f.write_str(Buffer::new().format(n))
}

// Writes the cells' raw numbers in brackets, with one space between.
fn write_cells<K: Kind, W: fmt::Write>(f: &mut fmt::Formatter<W>, cells: &[K]) -> fmt::Result
    ensures { WritesOnOk W.write_str_gives f.old result (bracketed (map K.ops.writing cells.now)) f.new }
{
    let [first, rest @ ..] = cells else {
        return f.write_str("()");
    };
    f.write_str("(")?;
    write_value(f, first.write())?;
    for cell in rest {
        write_item(f, cell.write())?;
    }
    f.write_str(")")
}

// Writes a process's state and clock, in brackets, behind a space.
fn write_row<W: fmt::Write>(f: &mut fmt::Formatter<W>, row: &Row) -> fmt::Result
    ensures { WritesOnOk W.write_str_gives f.old result (shown_row row.now) f.new }
{
    f.write_str(" (")?;
    f.write_str(Buffer::new().format(row.state))?;
    write_count(f, row.clock)?;
    f.write_str(")")
}

// Writes the state and clock of each process.
fn write_rows<W: fmt::Write>(f: &mut fmt::Formatter<W>, rows: &[Row]) -> fmt::Result
    ensures { WritesOnOk W.write_str_gives f.old result (flat_map shown_row rows.now) f.new }
{
    for row in rows {
        write_row(f, row)?;
    }
    Ok(())
}

// Writes the outputs in brackets and the steps, each behind a space, and ends the line.
fn write_end<W: fmt::Write>(f: &mut fmt::Formatter<W>, outputs: &[i32], steps: u32) -> fmt::Result
    ensures { WritesOnOk W.write_str_gives f.old result (32 ∷ (bracketed outputs.now ++ 32 ∷ (decimal steps ++ codes ")\n"))) f.new }
{
    f.write_str(" ")?;
    Bracketed(outputs).fmt(f)?;
    write_count(f, steps)?;
    f.write_str(")\n")
}

// The line of a scan: cells are written back as raw numbers.
impl<K: Kind> Display for ScanLine<'_, K> {
    ghost output = { λ l. Some (shown_line l.n l.rows.now (map K.ops.writing l.cells.now) l.outputs.now l.steps) };

    // Writes the number, each process's state and clock in brackets, the two lists and the steps.
    fn fmt<W: fmt::Write>(&self, f: &mut fmt::Formatter<W>) -> fmt::Result {
        f.write_str("(")?;
        f.write_str(Buffer::new().format(self.n))?;
        write_rows(f, self.rows)?;
        f.write_str(" ")?;
        write_cells(f, self.cells)?;
        write_end(f, self.outputs, self.steps)
    }
}

// The line of a refusal: its number, and the line or the scan at which it was met, 0 before any.
#[derive(Clone, Copy)]
pub struct RefusalLine {
    pub number: u32,
    pub at: u64,
}

// The line of a refusal.
impl Display for RefusalLine {
    ghost output = { λ l. Some (refusal_line l.number l.at) };

    // Writes the word, the number and the place.
    fn fmt<W: fmt::Write>(&self, f: &mut fmt::Formatter<W>) -> fmt::Result {
        writeln!(f, "(no {} {})", self.number, self.at)
    }
}

impl RefusalLine {
    // The line for an input that cannot be read.
    pub const UNREADABLE: RefusalLine = RefusalLine { number: 0, at: 0 };

    // The bytes of the line.
    pub fn into_bytes(self, heap: Global) -> Result<Vec<u8>, AllocError>
        ensures { IfOk result (λ out. out.items ≡ refusal_line self.number self.at) }
    {
        Ok(self.to_string(heap)?.into_bytes())
    }
}

// The first `n` of some items, or all where there are fewer.
fn front<T>(items: &[T], n: usize) -> &[T]
    ensures { result.now ≡ take n items.now }
{
    items.get(..n).unwrap_or(items)
}

// Appends the line of scan `n`, which took so many steps. It takes what memory it needs where `out` does, and so none of
// the heap.
pub fn push_scan_line<K: Kind>(
    heap: Global,
    out: &mut Vec<u8>,
    head: &Head,
    n: u64,
    cells: &[K],
    board: &Board,
    steps: u32,
) -> Result<(), AllocError>
    ensures { Appended out.old.items (scan_line K.ops head.now n cells.now board.now steps) result out.new.items }
{
    let line = ScanLine {
        n,
        rows: front(&board.rows, head.processes),
        cells: front(cells, head.cells),
        outputs: front(&board.levels, head.outputs),
        steps,
    };
    push_shown_with_room(out, line)
}
