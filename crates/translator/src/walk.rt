// A walk over the processes of a text.
ghost use Rattle.std.specs.Prelude.{◌≤◌};

use text::items::Items;

// The lines of a text whose processes are not passed yet, no more than a text has bytes (`few`).
#[derive(Drop)]
pub(crate) struct Processes<'s, 'a> {
    pub(crate) left: Items<'s, 'a>,
    ghost few: { left.count ≤ 32768 },
}
