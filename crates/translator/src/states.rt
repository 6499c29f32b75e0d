// The state lines of each process of a text.
ghost use Rattle.std.specs.Prelude.{◌≡◌, ◌≤◌, ◌<◌, ◌^◌, length};
ghost use Rattle.std.specs.Iterator.{YieldsFirstBy, item_count};
ghost use Rattle.text.specs.Items.{starts_of};
ghost use Rattle.text.specs.Sheet.{starts};
ghost use Rattle.language.specs.Lines.{states_behind};
ghost use Rattle.language.specs.OnSheet.{lines_of};
ghost use Rattle.translator.specs.States.{groups_of, groups_left, span_of};

use crate::group::StateLines;
use crate::sheet::Sheet;
use crate::walk::Processes;
use language::house::Opener;
use language::line::is_line;
use lookup::count_states;
use text::items::Items;

impl<'s, 'a> Sheet<'s, 'a> {
    // The processes of its lines.
    pub(crate) fn processes(self) -> Processes<'s, 'a>
        ensures left { groups_left result ≡ groups_of self.entry.lines }
        ensures few { length (groups_left result) < 2 ^ 64 }
    {
        Processes { left: self.lines }
    }

    // The state lines of one.
    pub(crate) fn items(self, states: StateLines) -> Items<'s, 'a>
        ensures rows { result.rows.now ≡ self.entry.lines.rows.now }
        ensures starts { starts_of result ≡ starts self.entry.lines.rows.now states.first states.count }
    {
        Items {
            rows: self.lines.rows,
            first: states.first,
            count: states.count,
        }
    }
}

impl<'s, 'a> Iterator for Processes<'s, 'a> {
    type Item = StateLines;

    ghost next_gives = { YieldsFirstBy span_of groups_left };

    ghost remaining = { item_count groups_left };

    // The state lines of the next process.
    fn next(&mut self) -> Option<StateLines> {
        while let Some((at, behind)) = self.left.split_first() {
            self.left = behind;
            if is_line(behind.rows, at, Opener::Proc) {
                return Some(StateLines {
                    first: behind.first,
                    count: count_states(behind),
                });
            }
        }
        None
    }
}
