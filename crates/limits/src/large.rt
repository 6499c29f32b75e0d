// Numbers past 32 bits.
ghost use Rattle.std.specs.Prelude.{◌≡◌, not, []};
ghost use Rattle.language.specs.Basics.{first_where};
ghost use Rattle.language.specs.Causes.{large, any_large};
ghost use Rattle.language.specs.Numbers.{short};
ghost use Rattle.text.specs.Items.{forms_in, forms_of};
ghost use Rattle.text.specs.Sheet.{form_at};

use language::view::inner_row;
use measure::value::value;
use text::items::Items;
use text::row::{Row, row_at};

// How deep a line is read: its brackets, and the words and numbers inside.
const DEPTH: usize = 13;

// Whether digits are a number past 32 bits.
fn is_long(digits: &[u8]) -> bool
    ensures { result ≡ not (short digits.now) }
{
    value(digits).is_none()
}

// Whether a number in the form at a row, read at most so deep, is past 32 bits.
#[cycle(any_large_is_large)]
fn is_large(rows: &[Row], at: usize, left: usize) -> bool
    ensures { result ≡ large (form_at left rows.now at) }
{
    if left == 0 {
        return false;
    }
    match row_at(rows, at) {
        Row::Word(_) => false,
        Row::Number(digits) => is_long(digits),
        Row::Items(count, _) => {
            let first = inner_row(rows, at);
            any_large(Items { rows, first, count }, left - 1)
        }
    }
}

// Whether one of some items has one.
#[cycle(any_large_is_large)]
fn any_large(items: Items, left: usize) -> bool
    ensures { result ≡ any_large (forms_in (form_at left items.entry.rows.now) items.entry) }
{
    for at in items.iter() {
        if is_large(items.rows, at, left) {
            return true;
        }
    }
    false
}

// Whether the line at a row has one.
fn is_line_large(rows: &[Row], at: usize) -> bool
    ensures { result ≡ large (form_at 13 rows.now at) }
{
    is_large(rows, at, DEPTH)
}

// The first line that has one.
pub fn first_large(lines: Items) -> Option<usize>
    ensures { result ≡ first_where (λ before f behind. large f) 1 [] (forms_of lines.entry) }
{
    lines
        .iter()
        .position(|at| is_line_large(lines.rows, at))
        .map(|i| i + 1)
}
