// The rows of a sheet, filled item by item.
ghost use Rattle.std.specs.Prelude.{◌≡◌, ◌+◌, ◌<◌, ◌≤◌, [], ◌∷◌, ◌++◌, length, take};
ghost use Rattle.text.specs.Filling.{most_items, weight, Puts};

use crate::reader::Item;
use crate::row::Row;

// How far a sheet is filled: the rows that the items so far want, and, while the sheet has them, the row of the innermost
// open form and the number of its items, or of the lines' forms where none is open.
// The sheet is lent to each method, and no field: of a `&mut` in a struct, to elements that hold a reference, what it leaves behind is not proved.
#[derive(Drop)]
pub(crate) struct Filler {
    pub(crate) used: usize,
    pub(crate) top: usize,
    pub(crate) count: usize,
}

impl Filler {
    // No row yet.
    pub(crate) fn new() -> Self
        ensures { (result.used ≡ 0) × (result.count ≡ 0) }
    {
        Filler {
            used: 0,
            top: 0,
            count: 0,
        }
    }

    // A row more, where the sheet has room.
    fn add_row<'a>(&mut self, rows: &mut [Row<'a>], row: Row<'a>)
        requires { self.old.used < most_items }
        ensures used { self.new.used ≡ self.old.used + 1 }
        ensures rest { (self.new.top ≡ self.old.top) × (self.new.count ≡ self.old.count) }
        ensures row { self.old.used < length rows.old → take (self.old.used + 1) rows.new ≡ take self.old.used rows.old ++ row.entry ∷ [] }
    {
        if self.used < rows.len() {
            rows[self.used] = row;
        }
        self.used += 1;
    }

    // The innermost open form ends: its row gets its counts, and the form around it goes on.
    fn close(&mut self, rows: &mut [Row])
        ensures used { self.new.used ≡ self.old.used }
        ensures puts { self.old.used ≤ length rows.old → Puts Item.Close (take self.old.used rows.old) self.old (take self.new.used rows.new) self.new }
    {
        if self.used > rows.len() || self.top >= self.used {
            return;
        }
        if let Row::Items(count, top) = rows[self.top] {
            rows[self.top] = Row::Items(self.count, self.used - self.top - 1);
            self.top = top;
            self.count = count.wrapping_add(1);
        }
    }

    // One item more.
    pub(crate) fn put<'a>(&mut self, rows: &mut [Row<'a>], item: Item<'a>)
        requires { self.old.used < most_items }
        ensures used { self.new.used ≡ self.old.used + weight item.entry }
        ensures puts { self.new.used ≤ length rows.old → self.old.count < most_items → Puts item.entry (take self.old.used rows.old) self.old (take self.new.used rows.new) self.new }
    {
        match item {
            Item::Open => {
                let row = Row::Items(self.count, self.top);
                self.top = self.used;
                self.count = 0;
                self.add_row(rows, row);
            }
            Item::Word(w, _) => {
                self.count = self.count.wrapping_add(1);
                self.add_row(rows, Row::Word(w));
            }
            Item::Number(w, _) => {
                self.count = self.count.wrapping_add(1);
                self.add_row(rows, Row::Number(w));
            }
            Item::Close => self.close(rows),
        }
    }
}
