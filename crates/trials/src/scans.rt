// Runs that are accepted.
use crate::codes::GUARD;
use crate::runs::begin;
use board::Board;
use hosts::Host;
use hosts::jig::Jig;
use hosts::tape::Tape;
use kinds::long::Long;
use refusals::ScanRefusal;
use std::test::Fail;

// The steps of an accepted scan, or 1000 and the number of the refusal.
fn told<F: Drop>(answer: Result<u32, ScanRefusal<F>>) -> u32 {
    answer.unwrap_or_else(|refusal| 1000 + refusal.number())
}

// The guard through lid levels 0 and 1, and a scan beyond the tape: steps, rail, cells beyond the code's, spare rows, and the count.
#[test]
fn guard_on_a_tape(rt: HostRuntime) -> Result<(), Fail> {
    let mut cells = [Long(7); 2];
    let mut work = [Long(0); 17];
    let mut board = Board::new();
    let mut tape = Tape::new(&[0, 1], 1);
    let mut live = begin(&GUARD, &mut cells, &mut board, &mut tape)?;
    assert_eq!(rt;
        told(live.scan(&mut cells, &mut work, &mut board, &mut tape)),
        3
    );
    assert_eq!(rt;
        told(live.scan(&mut cells, &mut work, &mut board, &mut tape)),
        14
    );
    assert_eq!(rt;
        told(live.scan(&mut cells, &mut work, &mut board, &mut tape)),
        1012
    );
    assert_eq!(rt; cells, [Long(1), Long(7)]);
    assert!(rt; board.levels[0] == 1 && board.rows[1].state == 0 && board.rows[2].clock == 0);
    assert_eq!(rt; live.halt(), 2);
    Ok(())
}

// On a jig whose input is wired to no output the lid stays open, and the guard waits.
#[test]
fn guard_on_a_jig(rt: HostRuntime) -> Result<(), Fail> {
    let mut cells = [Long(0); 1];
    let mut work = [Long(0); 17];
    let mut board = Board::new();
    let mut jig = Jig::new([255; 32]);
    jig.put(0, 9);
    let mut live = begin(&GUARD, &mut cells, &mut board, &mut jig)?;
    assert_eq!(rt;
        live.scan(&mut cells, &mut work, &mut board, &mut jig)
            .unwrap_or(0),
        3
    );
    assert_eq!(rt; live.halt(), 1);
    Ok(())
}
