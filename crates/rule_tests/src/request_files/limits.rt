//! Files at the limits: the longest, the shortest, and those with the most lines.
use super::files::{changed, outcome};
use accounts::record::{Kind, Line, Size};
use requests::filed::FiledLine;
use requests::packing::WriteRefusal;
use requests::reader::{read, remark};
use requests::writer::write;
use std::test::Fail;

const LINE: Line = Line {
    account: 20_010_000_001,
    percentage: 97,
    savings: 1_000,
    class: 2,
    size: Size::Small,
    kind: Kind::Member,
};

#[test]
fn most_lines(rt: HostRuntime) -> Result<(), Fail> {
    let heap = rt.alloc();
    let lines = [FiledLine {
        line: LINE,
        remark: b"",
    }; 1024];
    let file = write(&lines, heap)?;
    let bytes = file.as_slice();
    assert_eq!(rt; bytes.len(), 2 + 36 * 1024);
    let mut table = [LINE; 1024];
    assert_eq!(rt; outcome(read(bytes, &mut table)), Ok(1024));
    assert_eq!(rt; outcome(read(bytes, &mut table[0..1023])), Err((3, 0)));
    // the pair at place p starts at 2 + 6 p, and its line at 6,146 + 30 p
    for (at, byte, expected) in [
        (0, 1, (2, 0)),
        (6, 29, (4, 0)),
        (6_144, 31, (4, 1_023)),
        (6_140, 35, (4, 1_023)),
        (6_146, b'.', (5, 0)),
        (36_865, b'Y', (5, 1_023)),
    ] {
        let damaged = changed(heap, bytes, at, byte)?;
        assert_eq!(rt;
            outcome(read(damaged.as_slice(), &mut table)),
            Err(expected)
        );
    }
    Ok(())
}

#[test]
fn longest(rt: HostRuntime) -> Result<(), Fail> {
    let lines = [FiledLine {
        line: LINE,
        remark: b"roof",
    }];
    let mut file = write(&lines, rt.alloc())?;
    for (length, expected) in [(65_535, Ok(1)), (65_536, Err((1, 0)))] {
        file.resize(length, 0)?;
        assert_eq!(rt; file.len(), length);
        let mut table = [LINE; 1];
        assert_eq!(rt; outcome(read(file.as_slice(), &mut table)), expected);
        assert_eq!(rt; remark(file.as_slice(), 0).is_some(), expected.is_ok());
    }
    Ok(())
}

// One pair cut off byte by byte, and then no line behind it.
#[test]
fn shortest(rt: HostRuntime) {
    let pair = b"\x01\x00\x08\x00\x00\x00\x1e\x00";
    for (length, number) in [(0, 1), (1, 1), (2, 2), (7, 2), (8, 4)] {
        let mut table = [LINE; 1];
        assert_eq!(rt;
            outcome(read(&pair[0..length], &mut table)),
            Err((number, 0))
        );
    }
}

#[test]
fn what_no_file_holds(rt: HostRuntime) {
    let good = FiledLine {
        line: LINE,
        remark: &[b'r'; 79],
    };
    let wide = FiledLine {
        line: Line { class: 100, ..LINE },
        remark: b"",
    };
    let long = FiledLine {
        line: LINE,
        remark: &[b'r'; 80],
    };
    let heap = rt.alloc();
    let number = write(&[good, wide], heap).err();
    assert_eq!(rt; number, Some(WriteRefusal::Number { place: 1 }));
    let remark = write(&[long, wide], heap).err();
    assert_eq!(rt; remark, Some(WriteRefusal::Remark { place: 0 }));
}

// Lines of 110 bytes: 564 of them make 2 + 564 x 116 = 65,426 bytes, and one more passes the limit.
#[test]
fn how_many_lines(rt: HostRuntime) {
    let lines = [FiledLine {
        line: LINE,
        remark: &[b'r'; 79],
    }; 1025];
    for (count, refusal) in [
        (0, Some(WriteRefusal::LineCount)),
        (564, None),
        (565, Some(WriteRefusal::FileLength)),
        (1024, Some(WriteRefusal::FileLength)),
        (1025, Some(WriteRefusal::LineCount)),
    ] {
        assert_eq!(rt; write(&lines[0..count], rt.alloc()).err(), refusal);
    }
}
