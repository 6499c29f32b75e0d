// What stands at a row of a sheet, by its shape.
ghost use Rattle.std.specs.Prelude.{◌≡◌, map};
ghost use Rattle.text.specs.Sheet.{form_at};
ghost use Rattle.text.specs.Items.{starts_of};
ghost use Rattle.language.specs.Basics.{changed};
ghost use Rattle.language.specs.Grammar.{item, line};
ghost use Rattle.language.specs.Lines.{sort};
ghost use Rattle.shape.specs.Sorts.{sort_of, sort_in};
ghost use Rattle.shape.specs.Patterns.{whole_of};

use crate::pattern::{Pattern, after, ended, form_start, line_start};
use crate::sort::Sort;
use language::house::{Opener, house_word};
use language::view::inner_row;
use text::items::Items;
use text::row::{Row, row_at};

// How deep the items of a line may be.
const DEPTH: usize = 12;

// What the item at a row is, read at most `left` deep.
#[cycle(forms)]
fn sort_at(rows: &[Row], at: usize, left: usize) -> Option<Sort>
    ensures { result ≡ sort_of (item (form_at left rows.now at)) }
{
    let inside = left.checked_sub(1)?;
    match row_at(rows, at) {
        Row::Word(w) => Some(Sort::Word(house_word(w))),
        Row::Number(_) => Some(Sort::Number),
        Row::Items(count, _) => {
            let first = inner_row(rows, at);
            let items = Items { rows, first, count };
            whole(items, inside, form_start())
        }
    }
}

// What a form with these items is, read at most `left` deep, where its pattern is `start`.
#[cycle(forms)]
fn whole(items: Items, left: usize, start: Pattern) -> Option<Sort>
    ensures { result ≡ whole_of (map (sort_in left items.entry.rows.now) (starts_of items.entry)) start }
{
    let mut awaited = start;
    for part in items.iter() {
        awaited = after(awaited, sort_at(items.rows, part, left)?)?;
    }
    ended(awaited)
}

// The sort of line that stands at a row, if it is one.
pub fn line_at(rows: &[Row], at: usize) -> Option<Opener>
    ensures { result ≡ changed sort (line (form_at 13 rows.now at)) }
{
    let Row::Items(count, _) = row_at(rows, at) else {
        return None;
    };
    let first = inner_row(rows, at);
    let items = Items { rows, first, count };
    whole(items, DEPTH, line_start())?.as_line()
}
