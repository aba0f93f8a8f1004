//! The head of a file: the line count, and a pair of offset and length for each line.
ghost use Rattle.std.specs.Prelude.{◌≡◌, ◌+◌, ◌≤◌, length};
ghost use Rattle.requests.specs.Meaning.{head_bytes, pair_at, end_of, fits, pairs_from, count, remark_start};

use crate::fault::{PairFault, RequestRefusal};
use crate::limits::{COUNT_BYTES, FIELD_BYTES, MOST_FILE, MOST_LINE, PAIR_BYTES};
use base::limits::MOST_LINES;

/// Where a line stands in the file.
#[derive(Clone, Copy)]
pub struct Pair {
    /// The line's first byte, counted from the file's start.
    pub offset: u32,
    /// The bytes of the line.
    pub length: u16,
}

/// How many lines a file of a possible length has: 1 to [`MOST_LINES`], and their pairs end within the file.
#[tactic(auto, unfolding(crate::specs::Meaning::count))]
pub fn line_count(file: &[u8]) -> Result<usize, RequestRefusal>
    ensures { result ≡ count file.now }
{
    if !(COUNT_BYTES..=MOST_FILE).contains(&file.len()) {
        return Err(RequestRefusal::FileLength);
    }
    let lines = u16::from_le_bytes([file[0], file[1]]) as usize;
    if !(1..=MOST_LINES).contains(&lines) || file.len() < COUNT_BYTES + PAIR_BYTES * lines {
        return Err(RequestRefusal::LineCount);
    }
    Ok(lines)
}

/// The pair at a place.
pub fn read_pair(file: &[u8], place: usize) -> Pair
    requires { head_bytes (place + 1) ≤ length file.now }
    ensures { result ≡ pair_at file.now place }
{
    let (pairs, _) = file[COUNT_BYTES..].as_chunks::<PAIR_BYTES>();
    let [a, b, c, d, e, f] = pairs[place];
    Pair {
        offset: u32::from_le_bytes([a, b, c, d]),
        length: u16::from_le_bytes([e, f]),
    }
}

impl Pair {
    /// The line's first byte.
    pub fn start(&self) -> usize
        ensures { result ≡ self.now.offset }
    {
        self.offset as usize
    }

    /// The first byte past the line.
    pub fn end(&self) -> usize
        ensures { result ≡ end_of self.now }
    {
        self.offset as usize + self.length as usize
    }

    /// Where the line's remark starts: past the space behind its fields, or at its end where nothing is behind them.
    pub fn remark_start(&self) -> usize
        ensures { result ≡ remark_start self.now }
    {
        if self.length as usize > FIELD_BYTES {
            self.start() + FIELD_BYTES + 1
        } else {
            self.end()
        }
    }

    /// Whether a line can stand here: from `start` on, of a possible length, within a file of `size` bytes.
    fn fits(&self, start: usize, size: usize) -> bool
        ensures { result ≡ fits size start self.now }
    {
        start <= self.start()
            && (FIELD_BYTES..=MOST_LINE).contains(&(self.length as usize))
            && self.end() <= size
    }
}

/// Judges the pairs in their order: each starts at or past the end of the one ahead, the first past the pairs.
#[tactic(auto, using(crate::proofs::Judged::pairs_step, crate::proofs::Judged::pairs_all))]
pub fn check_pairs(file: &[u8], lines: usize) -> Result<(), PairFault>
    requires { head_bytes lines ≤ length file.now }
    ensures { result ≡ pairs_from file.now (head_bytes lines) 0 lines }
{
    let mut start = COUNT_BYTES + PAIR_BYTES * lines;
    for place in 0..lines {
        let pair = read_pair(file, place);
        if !pair.fits(start, file.len()) {
            return Err(PairFault { place });
        }
        start = pair.end();
    }
    Ok(())
}
