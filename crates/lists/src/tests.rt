// Examples of what is read.
use super::*;
use std::alloc::Global;
use std::test::Fail;

#[test]
fn rows(rt: HostRuntime) -> Result<(), Fail> {
    let mut values = Vec::new(rt.alloc());
    assert_eq!(rt; read_list(b"(row)\n", b"row", &mut values)?, 6);
    assert_eq!(rt;
        read_list(
            b"(row 2147483647 -2147483648 0)\n(row)\n",
            b"row",
            &mut values,
        )?,
        31
    );
    assert!(rt; values.as_slice() == [2147483647, -2147483648, 0].as_slice());
    Ok(())
}

// Whether a line is refused as no row, and leaves the values as they were.
fn refused(heap: Global, line: &[u8]) -> Result<bool, ListError> {
    let mut values = Vec::new(heap);
    values.push(3)?;
    match read_list(line, b"row", &mut values) {
        Err(ListError::NotAList) => Ok(values.as_slice() == [3].as_slice()),
        _ => Ok(false),
    }
}

#[test]
fn no_rows(rt: HostRuntime) -> Result<(), Fail> {
    let lines: [&[u8]; 8] = [
        b"(row -0)\n",
        b"(row 007)\n",
        b"(row 2147483648)\n",
        b"(row -2147483649)\n",
        b"(row +1)\n",
        b"(row 1  2)\n",
        b"(row 1)",
        b"(raw 1)\n",
    ];
    for line in lines {
        assert!(rt; refused(rt.alloc(), line)?);
    }
    Ok(())
}
