// Texts that are read, and texts that are not.
use crate::read::{Page, ReadRefusal, read};
use crate::row::Row;

// The line that is told of a text, or 0.
fn told_line(text: &[u8]) -> usize {
    let mut sheet = [Row::Items(0, 0); 16];
    match read(text, &mut sheet) {
        Err(ReadRefusal::Line(n)) => n,
        _ => 0,
    }
}

#[test]
fn reads(rt: HostRuntime) {
    let mut sheet = [Row::Items(0, 0); 16];
    let page = read(
        b"(kind long)\n(if (not LID) (do (put RAIL 0)))\n",
        &mut sheet,
    );
    assert_eq!(rt; page, Ok(Page { rows: 14, lines: 2 }));
}

#[test]
fn tells_lines(rt: HostRuntime) {
    assert_eq!(rt; told_line(b"(kind long)\n(a  b)\n"), 2);
    assert_eq!(rt; told_line(b"(a 0 -1 10)\n(b)"), 2);
    assert_eq!(rt; told_line(b"(a 01)\n"), 1);
    assert_eq!(rt; told_line(b"(a -0)\n"), 1);
}
