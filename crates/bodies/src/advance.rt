// A scan on the cells and the board, with the levels sampled.
ghost use Rattle.std.specs.Prelude.{◌≡◌, ◌+◌, ◌≤◌, length};
ghost use Rattle.flat.specs.Words.{word};
ghost use Rattle.bodies.specs.Advance.{advance as advanced, advances};
ghost use Rattle.bodies.specs.Memory.{Runnable};

use crate::running::Running;
use board::Board;
use flat::words::{CELLS, PROCESSES, count_at};
use kinds::Kind;
use refusals::GivenUp;

// Runs all processes on a copy of cells and board, and takes the copy over if none is given up: the steps and the levels put.
pub fn advance<K: Kind>(
    code: &[i32],
    cells: &mut [K],
    board: &mut Board,
    work: &mut [K],
    seen: &[i32; 32],
) -> Result<(u32, [Option<i32>; 32]), GivenUp>
    requires code { Runnable code.now }
    requires cells { word code.now 2 ≤ length cells.old }
    requires room { word code.now 2 + 16 ≤ length work.old }
    ensures result { advances result cells.new board.new ≡ advanced K.ops seen.now code.now cells.old board.old }
{
    let n = count_at(code, CELLS);
    let (copy, stack) = work.split_at_mut(n);
    copy.copy_from_slice(&cells[..n]);
    let mut scan = Running::begin(copy, stack, *board);
    let steps = scan.sweep(code, seen)?;
    let Running {
        cells: after,
        board: next,
        puts,
        ..
    } = scan;
    cells[..n].copy_from_slice(after);
    *board = next;
    board.settle(&puts);
    board.tick(count_at(code, PROCESSES));
    Ok((steps, puts))
}
