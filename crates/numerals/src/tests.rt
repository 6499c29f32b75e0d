// Examples of what is printed.
use super::*;
use std::test::Fail;

#[test]
fn numbers(rt: HostRuntime) -> Result<(), Fail> {
    let mut out = Vec::new(rt.alloc());
    push_shown(&mut out, 0u64)?;
    out.push(b' ')?;
    push_shown(&mut out, 18446744073709551615u64)?;
    out.push(b' ')?;
    push_shown(&mut out, -2147483648i32)?;
    assert!(rt; out.as_slice() == b"0 18446744073709551615 -2147483648".as_slice());
    Ok(())
}

#[test]
fn lists(rt: HostRuntime) -> Result<(), Fail> {
    let mut out = Vec::new(rt.alloc());
    push_shown(&mut out, Bracketed(&[]))?;
    push_shown(&mut out, Bracketed(&[7]))?;
    push_shown(&mut out, Bracketed(&[-5, 0, 12]))?;
    assert!(rt; out.as_slice() == b"()(7)(-5 0 12)".as_slice());
    Ok(())
}

#[test]
fn nothing(rt: HostRuntime) -> Result<(), Fail> {
    let mut out = Vec::new(rt.alloc());
    push_shown(&mut out, 7i32)?;
    push_shown(&mut out, "")?;
    assert!(rt; out.as_slice() == b"7".as_slice());
    Ok(())
}

#[test]
fn with_room(rt: HostRuntime) -> Result<(), Fail> {
    let mut out = Vec::new(rt.alloc());
    push_shown_with_room(&mut out, 7i32)?;
    push_shown_with_room(&mut out, "")?;
    push_shown_with_room(&mut out, Bracketed(&[-2147483648; 25]))?;
    assert!(rt; out.len() == 302);
    assert!(rt; out.starts_with(b"7(-2147483648 -2147483648 "));
    Ok(())
}
