// The rows of a sheet, and the way from an item to the next.
ghost use Rattle.std.specs.Prelude.{◌≡◌};
ghost use Rattle.text.specs.Sheet.{row_at, span, next_row};

// A word, a number by its digits, or a form with the number of its items and of the rows behind it that they take.
#[derive(Clone, Copy)]
pub enum Row<'a> {
    Word(&'a [u8]),
    Number(&'a [u8]),
    Items(usize, usize),
}

// The row at a place, and a form of no items beyond the end.
// A row is named by the sheet and its number: the rows are lent, nothing is allocated, and a struct of both would be made anew for each part of a form.
pub fn row_at<'a>(rows: &[Row<'a>], at: usize) -> Row<'a>
    ensures { result ≡ row_at rows.now at }
{
    rows.get(at).copied().unwrap_or(Row::Items(0, 0))
}

// How many rows behind a row its items take.
fn rows_behind(row: Row) -> usize
    ensures { result ≡ span row.entry }
{
    match row {
        Row::Word(_) | Row::Number(_) => 0,
        Row::Items(_, rows) => rows,
    }
}

// The row behind the item at a row, never past the end.
pub fn next_row(rows: &[Row], at: usize) -> usize
    ensures { result ≡ next_row rows.now at }
{
    let behind = rows_behind(row_at(rows, at));
    if behind < rows.len().saturating_sub(at) {
        at + 1 + behind
    } else {
        rows.len()
    }
}
