// So many items of a sheet, one behind another, and the walk over the rows at which they begin.
ghost use Rattle.std.specs.Prelude.{◌≡◌, ◌<◌, ◌^◌, [], length, MatchOption};
ghost use Rattle.std.specs.Iterator.{YieldsFirst, item_count};
ghost use Rattle.text.specs.Items.{starts_of, starts_left, IsSplit};

use crate::row::{Row, next_row};

// So many items from a row on: a form's items, a body's statements, a text's lines.
#[derive(Clone, Copy)]
pub struct Items<'s, 'a> {
    pub rows: &'s [Row<'a>],
    pub first: usize,
    pub count: usize,
}

impl<'s, 'a> Items<'s, 'a> {
    // The row of the first, and the items behind it.
    pub fn split_first(self) -> Option<(usize, Items<'s, 'a>)>
        ensures { MatchOption result (starts_of self.entry ≡ []) (λ r. IsSplit self.entry r.0 r.1) }
    {
        let count = self.count.checked_sub(1)?;
        let first = next_row(self.rows, self.first);
        Some((
            self.first,
            Items {
                first,
                count,
                ..self
            },
        ))
    }

    // The rows at which they begin, one after another.
    pub fn iter(self) -> Starts<'s, 'a>
        ensures rows { starts_left result ≡ starts_of self.entry }
        ensures few { length (starts_left result) < 2 ^ 64 }
    {
        // The count is read, and so known to be a usize.
        let _count = self.count;
        Starts { left: self }
    }
}

// The rows at which items begin that are not passed yet.
#[derive(Drop)]
pub struct Starts<'s, 'a> {
    left: Items<'s, 'a>,
}

impl<'s, 'a> Iterator for Starts<'s, 'a> {
    type Item = usize;

    ghost next_gives = { YieldsFirst starts_left };

    ghost remaining = { item_count starts_left };

    // The row at hand, and on to the row of the item behind it.
    fn next(&mut self) -> Option<usize> {
        let (at, behind) = self.left.split_first()?;
        self.left = behind;
        Some(at)
    }
}
