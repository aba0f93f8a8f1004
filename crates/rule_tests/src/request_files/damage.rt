//! One file of three lines, damaged byte by byte.
use super::files::{FILE, LINES, REMARKS, changed, outcome};
use accounts::record::{Kind, Line, Size};
use requests::reader::{read, remark};
use std::test::Fail;

// not the default line: a default line written to another place would be seen
const BLANK: Line = Line {
    account: 0,
    percentage: 0,
    savings: 0,
    class: 0,
    size: Size::Large,
    kind: Kind::Anchor,
};

// A place, the byte put there, and how many lines are read, or the refusal's number and place.
const DAMAGES: [(usize, u8, Result<usize, (u8, usize)>); 48] = [
    (0, 0, Err((2, 0))),
    (1, 4, Err((2, 0))),
    (0, 20, Err((3, 0))),
    (0, 21, Err((2, 0))),
    (0, 2, Ok(2)),
    (2, 19, Err((4, 0))),
    (2, 21, Err((5, 0))),
    (6, 29, Err((4, 0))),
    (6, 31, Err((5, 0))),
    (6, 32, Err((5, 0))),
    (6, 33, Err((4, 1))),
    (6, 111, Err((4, 0))),
    (7, 1, Err((4, 0))),
    (8, 49, Err((4, 1))),
    (8, 50, Err((5, 1))),
    (12, 29, Err((4, 1))),
    (12, 42, Err((4, 2))),
    (14, 92, Err((4, 2))),
    (14, 94, Err((5, 2))),
    (15, 1, Err((4, 2))),
    (17, 1, Err((4, 2))),
    (18, 29, Err((4, 2))),
    (18, 30, Ok(3)),
    (18, 32, Ok(3)),
    (18, 33, Err((4, 2))),
    (18, 111, Err((4, 2))),
    (20, b'x', Err((5, 0))),
    (30, b'/', Err((5, 0))),
    (30, b':', Err((5, 0))),
    (30, b'9', Ok(3)),
    (31, b'0', Err((5, 0))),
    (38, b'.', Err((5, 0))),
    (43, 0, Err((5, 0))),
    (46, b'-', Err((5, 0))),
    (47, b's', Err((5, 0))),
    (47, b'l', Err((5, 0))),
    (47, b'L', Ok(3)),
    (48, b'_', Err((5, 0))),
    (49, b'm', Err((5, 0))),
    (49, b'X', Ok(3)),
    (50, 0, Ok(3)),
    (82, b'x', Err((5, 1))),
    (83, 0, Ok(3)),
    (93, b':', Err((5, 2))),
    (122, b'x', Err((5, 2))),
    (122, b'M', Ok(3)),
    (123, b'0', Err((5, 2))),
    (124, 0, Ok(3)),
];

#[test]
fn damaged_bytes(rt: HostRuntime) -> Result<(), Fail> {
    for (at, byte, expected) in DAMAGES {
        let file = changed(rt.alloc(), FILE, at, byte)?;
        let mut table = [BLANK; 3];
        let answer = outcome(read(file.as_slice(), &mut table));
        assert_eq!(rt; answer, expected);
        if answer.is_err() {
            assert_eq!(rt; table, [BLANK; 3]);
        }
    }
    Ok(())
}

#[test]
fn lines_and_other_places(rt: HostRuntime) {
    let mut table = [BLANK; 5];
    assert_eq!(rt; read(FILE, &mut table).ok(), Some(3));
    assert_eq!(rt; table, [LINES[0], LINES[1], LINES[2], BLANK, BLANK]);
}

#[test]
fn remarks(rt: HostRuntime) -> Result<(), Fail> {
    for (place, text, offset) in REMARKS {
        let found = remark(FILE, place).ok_or("no remark")?;
        assert!(rt; found.text == text.as_bytes());
        assert_eq!(rt; found.offset, offset);
    }
    assert!(rt; remark(FILE, 3).is_none());
    assert!(rt; remark(&FILE[0..124], 2).is_some());
    assert!(rt; remark(&FILE[0..123], 0).is_none());
    Ok(())
}

// All pairs are judged before any line: a fault of the last pair comes before one of the first line.
#[test]
fn pairs_before_lines(rt: HostRuntime) -> Result<(), Fail> {
    let file = changed(rt.alloc(), FILE, 20, b'x')?;
    let file = changed(rt.alloc(), file.as_slice(), 18, 111)?;
    let mut table = [BLANK; 3];
    assert_eq!(rt; outcome(read(file.as_slice(), &mut table)), Err((4, 2)));
    Ok(())
}
