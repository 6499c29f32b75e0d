// Rows of levels, read from bytes.
#![tactic(auto)]

ghost use Rattle.rows.specs.Rows.{PrintTells, RowFound, RowsFound};

use lists::{ListError, read_list};
use std::alloc::Global;

// The print of a list tells the list.
pub fn print_tells()
    ensures { PrintTells }
{}

// The row of `width` numbers whose line the text begins with, and what follows it.
fn read_row<'a>(
    heap: Global,
    text: &'a [u8],
    width: usize,
) -> Result<(Vec<i32>, &'a [u8]), ListError>
    ensures { RowFound width text.now result }
{
    let mut row = Vec::new(heap);
    let n = read_list(text, b"row", &mut row)?;
    if row.len() != width {
        return Err(ListError::NotAList);
    }
    Ok((row, &text[n..]))
}

// The rows of `width` numbers whose lines the text consists of.
pub fn read_rows(heap: Global, text: &[u8], width: usize) -> Result<Vec<Vec<i32>>, ListError>
    ensures { RowsFound width text.now result }
{
    if width == 0 {
        return Err(ListError::NotAList);
    }
    let mut rows = Vec::new(heap);
    let mut left = text;
    while !left.is_empty() {
        let (row, rest) = read_row(heap, left, width)?;
        rows.push(row)?;
        left = rest;
    }
    Ok(rows)
}
