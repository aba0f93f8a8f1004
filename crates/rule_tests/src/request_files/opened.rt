//! Files that are judged once and then asked by place, or read into a list, and the words of their refusals.
use super::files::{FILE, LINES, REMARKS, changed};
use base::refusal::Numbered;
use requests::fault::{FieldFault, LineFault, PairFault, ReadError, RequestRefusal};
use requests::file::RequestFile;
use requests::reader::read_lines;
use std::alloc::AllocError;
use std::test::Fail;

// Damages of the file: a place and the byte put there, what the file is refused for, and its number, place and words.
const REFUSED: [(usize, u8, RequestRefusal, &str); 5] = [
    (
        1,
        4,
        RequestRefusal::LineCount,
        "2 at 0: the line count is 0 or above 1,024, or the pairs pass the file's end",
    ),
    (
        8,
        49,
        RequestRefusal::Pair(PairFault { place: 1 }),
        "4 at 1: the pair starts too early, has a length outside 30 to 110, or passes the file's end",
    ),
    (
        20,
        b'x',
        RequestRefusal::Line(LineFault {
            place: 0,
            field: FieldFault::NotDigit,
        }),
        "5 at 0: the line breaks the form",
    ),
    (
        82,
        b'_',
        RequestRefusal::Line(LineFault {
            place: 1,
            field: FieldFault::NotSpace,
        }),
        "5 at 1: the line breaks the form",
    ),
    (
        122,
        b'x',
        RequestRefusal::Line(LineFault {
            place: 2,
            field: FieldFault::NotLetter,
        }),
        "5 at 2: the line breaks the form",
    ),
];

#[test]
fn lines_and_remarks_by_place(rt: HostRuntime) -> Result<(), Fail> {
    let request = RequestFile::open(FILE)?;
    assert_eq!(rt; request.count(), 3);
    for (place, line) in LINES.iter().enumerate() {
        assert_eq!(rt; request.line(place), Some(*line));
    }
    assert_eq!(rt; request.line(3), None);
    for (place, text, offset) in REMARKS {
        let found = request.remark(place).ok_or("no remark")?;
        assert!(rt; found.text == text.as_bytes());
        assert_eq!(rt; found.offset, offset);
    }
    assert!(rt; request.remark(3).is_none());
    Ok(())
}

#[test]
fn lines_in_a_list(rt: HostRuntime) -> Result<(), Fail> {
    let lines = read_lines(FILE, rt.alloc())?;
    assert!(rt; lines.as_slice() == LINES.as_slice());
    Ok(())
}

#[test]
fn refused_files(rt: HostRuntime) -> Result<(), Fail> {
    let heap = rt.alloc();
    for (at, byte, refusal, words) in REFUSED {
        let file = changed(heap, FILE, at, byte)?;
        assert_eq!(rt; RequestFile::open(&file).err(), Some(refusal));
        assert_eq!(rt;
            read_lines(&file, heap).err(),
            Some(ReadError::Refused(refusal))
        );
        let number = refusal.number();
        let place = refusal.place();
        let text = format!(in heap; "{number} at {place}: {refusal}")?;
        assert_eq!(rt; text.as_str(), words);
    }
    Ok(())
}

#[test]
fn words_of_the_others(rt: HostRuntime) -> Result<(), Fail> {
    let heap = rt.alloc();
    let length = RequestFile::open(&FILE[0..1]).err().ok_or("no refusal")?;
    let words = format!(in heap; "{length}")?;
    assert_eq!(rt; words.as_str(), "the file has under 2 or over 65,535 bytes");
    let table = RequestRefusal::Table;
    let words = format!(in heap; "{table}")?;
    assert_eq!(rt;
        words.as_str(),
        "the table has fewer places than the file has lines"
    );
    let memory = ReadError::from(AllocError);
    assert_eq!(rt; memory, ReadError::NoMemory);
    let words = format!(in heap; "{memory}")?;
    assert_eq!(rt; words.as_str(), "there is no memory for the lines");
    Ok(())
}
