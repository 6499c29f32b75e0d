// A tape: rows of levels that a host replays, a row at each sample.
mod replay;

ghost use Rattle.std.specs.Prelude.{◌+◌, ◌^◌, ◌<◌, ◌≤◌, length};

// The fault of a tape with no whole row left: the number of rows used so far.
#[derive(Clone, Copy, PartialEq, Eq, Debug)]
pub struct Spent {
    pub rows: usize,
}

// The numbers left over, the row latched last, the number of rows used and the held outputs.
// A row has at most 32 numbers (`narrow`), and the rows used can be counted to the end (`counted`).
#[derive(Drop)]
pub struct Tape<'a> {
    rest: &'a [i32],
    latch: &'a [i32],
    used: usize,
    held: [i32; 32],
    ghost narrow: { length latch.now ≤ 32 },
    ghost counted: { used + length rest.now < 2 ^ 64 },
}
