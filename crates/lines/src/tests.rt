// Examples of lines.
use super::*;
use kinds::long::Long;
use std::test::Fail;

#[test]
fn refusals(rt: HostRuntime) -> Result<(), Fail> {
    let line = RefusalLine { number: 13, at: 2 }.into_bytes(rt.alloc())?;
    assert!(rt; line.as_slice() == b"(no 13 2)\n".as_slice());
    let line = RefusalLine::UNREADABLE.into_bytes(rt.alloc())?;
    assert!(rt; line.as_slice() == b"(no 0 0)\n".as_slice());
    Ok(())
}

#[test]
fn scans(rt: HostRuntime) -> Result<(), Fail> {
    let head = Head {
        kind: 1,
        tact: 1000,
        cells: 2,
        inputs: 1,
        outputs: 1,
        processes: 2,
        instructions: 1,
    };
    let mut board = Board::new();
    board.rows[0].clock = 40;
    board.levels[0] = 12;
    let mut out = Vec::new(rt.alloc());
    push_scan_line(
        rt.alloc(),
        &mut out,
        &head,
        3,
        &[Long(5), Long(-2), Long(9)],
        &board,
        17,
    )?;
    assert!(rt; out.as_slice() == b"(3 (0 40) (255 0) (5 -2) (12) 17)\n".as_slice());
    Ok(())
}
