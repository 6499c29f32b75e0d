// Mounting a code, and starting a run of it.
ghost use Rattle.std.specs.Prelude.{◌≡◌, ℕ, ◌≤◌, ◌++◌, length, drop, replicate};
ghost use Rattle.machine.specs.Calls.{Mounts, Starts};

use crate::live::{Live, is_kind, is_short};
use board::Board;
use flat::head::Head;
use flat::layout::read_head;
use hosts::Host;
use hosts::levels::clear_lines;
use kinds::Kind;
use refusals::{MountRefusal, StartRefusal};

// A code of the layout, with its head, that was not started yet.
#[derive(Drop)]
pub struct Mounted<'a> {
    code: &'a [i32],
    head: Head,
}

// Mounts a code that is of the layout.
pub fn mount(code: &[i32]) -> Result<Mounted<'_>, MountRefusal>
    ensures { Mounts code.now result }
{
    let head = read_head(code).map_err(|_| MountRefusal::NotFlatCode)?;
    Ok(Mounted { code, head })
}

// Sets the first `n` cells to zero. Not by `fill`, which asks that a clone cannot fail: no kind says so of its values.
#[tactic(auto, using(crate::proofs::Clears::cleared_more))]
fn clear_cells<K: Kind>(cells: &mut [K], n: usize)
    requires { n ≤ length cells.old }
    ensures { cells.new ≡ replicate n K.ops.zero ++ drop n cells.old }
{
    for cell in &mut cells[..n] {
        *cell = K::zero();
    }
}

impl<'a> Mounted<'a> {
    // The head of the mounted code.
    pub fn head(&self) -> Head
        ensures { result ≡ self.now.head }
    {
        self.head
    }

    // Starts a run: the code's cells, the board and the host's lines for the code's outputs are set to the beginning.
    pub fn start<K: Kind, H: Host>(
        self,
        cells: &mut [K],
        board: &mut Board,
        host: &mut H,
    ) -> Result<Live<'a>, StartRefusal>
        ensures { Starts K.ops H.means self.entry (record { cells = cells.entry.now; board = board.old; scans = 0; host = host.old }) result (record { cells = cells.exit.now; board = board.new; scans = 0; host = host.new }) }
    {
        if !is_kind::<K>(self.head.kind) {
            return Err(StartRefusal::OtherKind);
        }
        if is_short(&self.head, cells, host) {
            return Err(StartRefusal::Short);
        }
        clear_cells(cells, self.head.cells);
        *board = Board::new();
        clear_lines(host, self.head.outputs);
        Ok(Live::begin(self.code, self.head))
    }
}
