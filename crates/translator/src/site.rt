// Where a statement stands in a text.
ghost use Rattle.std.specs.Prelude.{◌≤◌};

use crate::group::StateLines;
use crate::sheet::Sheet;

// The sheet of a statement, the number of its process, that process's state lines, and the number of its own state.
// They are numbers of a text's lines (`few_processes`, `few_before`).
#[derive(Clone, Copy)]
pub(crate) struct Site<'s, 'a> {
    pub(crate) sheet: Sheet<'s, 'a>,
    pub(crate) own: usize,
    pub(crate) states: StateLines,
    pub(crate) here: usize,
    ghost few_processes: { own ≤ 32768 },
    ghost few_before: { here ≤ 32768 },
}
