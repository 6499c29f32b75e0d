// Calls that are refused.
use crate::codes::{GUARD, RATIO};
use crate::runs::{begin, number};
use board::Board;
use hosts::jig::Jig;
use hosts::tape::Tape;
use kinds::long::Long;
use kinds::milli::Milli;
use machine::mounted::mount;
use refusals::{Place, ScanRefusal};
use std::test::Fail;

// Whether the guard's code is mounted with the word at that place set to `word`.
fn is_mounted_with(place: usize, word: i32) -> bool {
    let mut code = GUARD;
    if let Some(changed) = code.get_mut(place) {
        *changed = word;
    }
    mount(&code).is_ok()
}

// How many of the codes that differ from the guard's in one word, set to `word`, are mounted.
fn mounted_with(word: i32) -> usize {
    (0..87)
        .filter(|&place| is_mounted_with(place, word))
        .count()
}

// A negative word is taken only as the operand of one of the three lits; a word far too large too.
#[test]
fn one_word_changed(rt: HostRuntime) {
    assert_eq!(rt; mounted_with(-1), 3);
    assert_eq!(rt; mounted_with(70000), 3);
}

// A code with a word less is not mounted.
#[test]
fn one_word_less(rt: HostRuntime) {
    let code = GUARD;
    assert!(rt; mount(&code).is_ok());
    assert!(rt; mount(&code[0..86]).is_err());
}

// Another kind is told before short memory, by start and by scan.
#[test]
fn other_kind(rt: HostRuntime) -> Result<(), Fail> {
    let Ok(mounted) = mount(&GUARD) else {
        return Err(Fail::new("mount"));
    };
    let mut board = Board::new();
    let mut jig = Jig::new([0; 32]);
    let Err(refusal) = mounted.start::<Milli, Jig>(&mut [], &mut board, &mut jig) else {
        return Err(Fail::new("started"));
    };
    assert_eq!(rt; refusal.number(), 10);
    let mut live = begin(&GUARD, &mut [Long(1)], &mut board, &mut jig)?;
    assert_eq!(rt;
        number(live.scan::<Milli, Jig>(&mut [], &mut [], &mut board, &mut jig)),
        10
    );
    assert_eq!(rt; live.halt(), 0);
    Ok(())
}

// Working memory of cells + 16 suffices, one less does not; a tape of no inputs is short of lines.
#[test]
fn short_memory(rt: HostRuntime) -> Result<(), Fail> {
    let mut board = Board::new();
    let mut jig = Jig::new([0; 32]);
    let mut cells = [Long(0); 1];
    let mut live = begin(&GUARD, &mut cells, &mut board, &mut jig)?;
    assert_eq!(rt;
        number(live.scan(&mut cells, &mut [Long(0); 16], &mut board, &mut jig)),
        11
    );
    assert!(rt;
        live.scan(&mut cells, &mut [Long(0); 17], &mut board, &mut jig)
            .is_ok()
    );
    let mut none = Tape::new(&[1, 2, 3], 33);
    assert_eq!(rt;
        number(live.scan(&mut cells, &mut [Long(0); 17], &mut board, &mut none)),
        11
    );
    assert_eq!(rt; live.halt(), 1);
    Ok(())
}

// A division by zero is told with its process and state, and nothing but the latch has changed.
#[test]
fn zero_divisor(rt: HostRuntime) -> Result<(), Fail> {
    let mut board = Board::new();
    let mut tape = Tape::new(&[0, 2], 1);
    let mut cells = [Long(9); 1];
    let mut work = [Long(0); 17];
    let mut live = begin(&RATIO, &mut cells, &mut board, &mut tape)?;
    let place = Place {
        process: 0,
        state: 0,
    };
    assert_eq!(rt;
        live.scan(&mut cells, &mut work, &mut board, &mut tape),
        Err(ScanRefusal::Divisor(place))
    );
    assert!(rt; cells[0].0 == 0 && board.rows[0].clock == 0);
    assert_eq!(rt;
        live.scan(&mut cells, &mut work, &mut board, &mut tape)
            .unwrap_or(0),
        7
    );
    assert!(rt; cells[0].0 == 2 && board.rows[0].clock == 1);
    assert_eq!(rt; live.halt(), 1);
    Ok(())
}
