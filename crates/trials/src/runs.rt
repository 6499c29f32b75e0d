// Runs that the tests begin, and the numbers of what is refused.
ghost use Rattle.std.specs.Prelude.{IfOk};
ghost use Rattle.flat.specs.Layout.{Holds};

use board::Board;
use hosts::Host;
use kinds::Kind;
use machine::live::Live;
use machine::mounted::mount;
use refusals::ScanRefusal;
use std::test::Fail;

// A run of a code, mounted and started.
pub(crate) fn begin<'a, K: Kind, H: Host>(
    code: &'a [i32],
    cells: &mut [K],
    board: &mut Board,
    host: &mut H,
) -> Result<Live<'a>, Fail>
    ensures { IfOk result (λ live. Holds live.code.now live.head) }
{
    let Ok(mounted) = mount(code) else {
        return Err(Fail::new("mount"));
    };
    let Ok(live) = mounted.start(cells, board, host) else {
        return Err(Fail::new("start"));
    };
    Ok(live)
}

// The number of the refusal of a scan, or 0 where it is accepted.
pub(crate) fn number<F: Drop>(answer: Result<u32, ScanRefusal<F>>) -> u32 {
    answer.err().map_or(0, |refusal| refusal.number())
}
