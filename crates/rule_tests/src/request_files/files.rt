//! A file of three lines, damaged files, and what comes of reading them.
use accounts::record::{Kind, Line, Size};
use base::refusal::Numbered;
use requests::fault::RequestRefusal;
use std::alloc::{AllocError, Global};

/// Three lines at 20, 52 and 93: one without a remark, one with, one with an empty one behind byte 30. Two bytes between
/// lines and one at the end belong to none.
pub const FILE: &[u8] =
    b"\x03\x00\x14\x00\x00\x00\x1e\x00\x34\x00\x00\x00\x29\x00\x5d\x00\x00\x00\x1f\x0020010000001 010000 1000 02 S M??00000000007 100000 9800 16 L X north roof99999999999 999999 9999 99 S X !";

/// The lines of that file.
pub const LINES: [Line; 3] = [
    Line {
        account: 20_010_000_001,
        percentage: 10_000,
        savings: 1_000,
        class: 2,
        size: Size::Small,
        kind: Kind::Member,
    },
    Line {
        account: 7,
        percentage: 100_000,
        savings: 9_800,
        class: 16,
        size: Size::Large,
        kind: Kind::Anchor,
    },
    Line {
        account: 99_999_999_999,
        percentage: 999_999,
        savings: 9_999,
        class: 99,
        size: Size::Small,
        kind: Kind::Anchor,
    },
];

/// The remarks of that file: the place of the line, the text, and its offset in the file.
pub const REMARKS: [(usize, &str, usize); 3] = [(0, "", 50), (1, "north roof", 83), (2, "", 124)];

/// How many lines were read, or the refusal's number and place.
pub fn outcome(answer: Result<usize, RequestRefusal>) -> Result<usize, (u8, usize)> {
    answer.map_err(|refusal| (refusal.number(), refusal.place()))
}

/// The file with one byte changed.
pub fn changed(heap: Global, file: &[u8], at: usize, byte: u8) -> Result<Vec<u8>, AllocError> {
    let mut copy = file.to_vec(heap)?;
    if let Some(target) = copy.get_mut(at) {
        *target = byte;
    }
    Ok(copy)
}
