// The sheet on which a text's lines stand.
ghost use Rattle.std.specs.Prelude.{◌≤◌};

use text::items::Items;

// The lines of a text on a sheet: no more than a text has bytes (`few`).
#[derive(Clone, Copy)]
pub(crate) struct Sheet<'s, 'a> {
    pub(crate) lines: Items<'s, 'a>,
    ghost few: { lines.count ≤ 32768 },
}
