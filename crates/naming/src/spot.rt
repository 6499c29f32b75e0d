// Where a line stands among those of its process, and the walk over the lines of a text.
ghost use Rattle.std.specs.Prelude.{◌≡◌, ◌+◌, ◌<◌, ◌^◌};
ghost use Rattle.naming.specs.Spots.{Stands};
ghost use Rattle.text.specs.Sheet.{next_row};

use language::house::Opener;
use language::line::is_line;
use text::items::Items;

// How deep the items of a line are read.
pub const DEPTH: usize = 12;

// A line's row, the lines before it, the state lines right before it, and the lines behind it.
#[derive(Clone, Copy)]
pub struct Spot<'s, 'a> {
    pub before: Items<'s, 'a>,
    pub states: Items<'s, 'a>,
    pub at: usize,
    pub behind: Items<'s, 'a>,
    ghost stands: { Stands before states at },
    ghost sheet: { behind.rows.now ≡ before.rows.now },
    ghost next: { behind.first ≡ next_row before.rows.now at },
    ghost fits: { before.count + behind.count + 1 < 2 ^ 64 },
}

// The lines of a text that are not passed yet, those that are, and the state lines that these end with.
#[derive(Drop)]
pub struct Spots<'s, 'a> {
    before: Items<'s, 'a>,
    states: Items<'s, 'a>,
    left: Items<'s, 'a>,
    ghost stands: { Stands before states left.first },
    ghost sheet: { left.rows.now ≡ before.rows.now },
    ghost fits: { before.count + left.count < 2 ^ 64 },
}

impl<'s, 'a> Spots<'s, 'a> {
    ghost use Rattle.std.specs.Prelude.{[], length};
    ghost use Rattle.language.specs.OnSheet.{lines_of};
    ghost use Rattle.naming.specs.Splits.{splits, splits_left};

    // The spots of some lines, one after another.
    pub fn of(lines: Items<'s, 'a>) -> Spots<'s, 'a>
        ensures lines { splits_left result ≡ splits [] (lines_of lines.entry) }
        ensures few { length (splits_left result) < 2 ^ 64 }
    {
        let none = Items { count: 0, ..lines };
        Spots {
            before: none,
            states: none,
            left: lines,
        }
    }
}

impl<'s, 'a> Iterator for Spots<'s, 'a> {
    ghost use Rattle.std.specs.Iterator.{YieldsFirstBy, item_count};
    ghost use Rattle.naming.specs.Splits.{split_of, splits_left};

    type Item = Spot<'s, 'a>;

    ghost next_gives = { YieldsFirstBy split_of splits_left };

    ghost remaining = { item_count splits_left };

    // The spot at hand, and on to the line behind: a state adds to those right before, any other line leaves none.
    fn next(&mut self) -> Option<Spot<'s, 'a>> {
        let (at, behind) = self.left.split_first()?;
        let spot = Spot {
            before: self.before,
            states: self.states,
            at,
            behind,
        };
        let rows = self.before.rows;
        let first = self.before.first;
        let count = self.before.count + 1;
        self.states = if is_line(rows, at, Opener::State) {
            Items {
                count: self.states.count + 1,
                ..self.states
            }
        } else {
            Items { count: 0, ..behind }
        };
        self.before = Items { rows, first, count };
        self.left = behind;
        Some(spot)
    }
}
