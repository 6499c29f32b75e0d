// The state lines of one process.
ghost use Rattle.std.specs.Prelude.{◌≤◌};

// The state lines of a process: the row of the first, and how many, no more than a text has bytes (`few`).
#[derive(Clone, Copy)]
pub(crate) struct StateLines {
    pub(crate) first: usize,
    pub(crate) count: usize,
    ghost few: { count ≤ 32768 },
}
