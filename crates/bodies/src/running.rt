// What a scan changes as it runs.
ghost use Rattle.std.specs.Prelude.{◌<◌, ◌≤◌, length};

use board::Board;

// What a scan changes as it runs: the cells, the stack and its depth, the board, the levels put.
// The working memory is lent, so the stack is a slice with its depth beside it.
#[derive(Drop)]
pub(crate) struct Running<'a, K> {
    pub(crate) cells: &'a mut [K],
    pub(crate) stack: &'a mut [K],
    pub(crate) depth: usize,
    pub(crate) board: Board,
    pub(crate) puts: [Option<i32>; 32],
    ghost shallow: { depth ≤ 16 },
    ghost room: { 16 ≤ length stack.now },
}

// The turn of a process: the levels sampled, and which process it is.
#[derive(Clone, Copy)]
pub(crate) struct Turn<'a> {
    pub(crate) seen: &'a [i32; 32],
    pub(crate) process: usize,
    ghost row: { process < 32 },
}
