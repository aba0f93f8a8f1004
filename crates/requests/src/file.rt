//! A request file that is judged once, and then asked for its lines and remarks by their places.
ghost use Rattle.std.specs.Prelude.{◌≡◌, ◌<◌, ◌≤◌, length, is_ok, IsTrue, IfOk, Ok, Some};
ghost use Rattle.std.specs.List.{slice_get};
ghost use Rattle.std.specs.Option.{option_map};
ghost use Rattle.std.specs.Result.{result_map_both};
ghost use Rattle.requests.specs.Meaning.{count, lines_of, meaning, lines_in, remark_at, written};

use crate::fault::RequestRefusal;
use crate::lines::{check_lines, line_at};
use crate::pairs::{check_pairs, line_count, read_pair};
use crate::remark::Remark;
use accounts::record::Line;
use std::alloc::{AllocError, Global};

/// A request file in order. [`RequestFile::open`] makes one.
#[derive(Clone, Copy)]
pub struct RequestFile<'a> {
    /// The file's bytes.
    pub bytes: &'a [u8],
    lines: usize,
    pub ghost in_order: { IsTrue (is_ok (meaning bytes.now)) },
    ghost counted: { lines ≡ length (lines_in bytes.now) },
}

impl<'a> RequestFile<'a> {
    /// Judges a file: its length, its line count, all pairs, and then the lines, pairs and lines in their order. A
    /// refusal is the first fault; it is never [`RequestRefusal::Table`].
    pub fn open(bytes: &'a [u8]) -> Result<RequestFile<'a>, RequestRefusal>
        ensures read { result_map_both (λ file. lines_in file.bytes.now) (λ e. e) result ≡ meaning bytes.now }
        ensures bytes { IfOk result (λ file. file.bytes.now ≡ bytes.now) }
    {
        let lines = line_count(bytes)?;
        RequestFile::judge(bytes, lines)
    }

    /// Judges the pairs and the lines of a file that has a line count in order.
    pub(crate) fn judge(bytes: &'a [u8], lines: usize) -> Result<RequestFile<'a>, RequestRefusal>
        requires { count bytes.now ≡ Ok lines }
        ensures lines { result_map_both (λ file. lines_in file.bytes.now) (λ e. e) result
            ≡ lines_of bytes.now lines }
        ensures bytes { IfOk result (λ file. file.bytes.now ≡ bytes.now) }
    {
        check_pairs(bytes, lines)?;
        check_lines(bytes, lines)?;
        Ok(RequestFile { bytes, lines })
    }

    /// How many lines the file has: 1 to [`MOST_LINES`](base::limits::MOST_LINES).
    pub fn count(&self) -> usize
        ensures { result ≡ length (lines_in self.now.bytes.now) }
    {
        self.lines
    }

    /// The line at a place, counted from 0; none past the last. Its numbers may be out of range.
    pub fn line(&self, place: usize) -> Option<Line>
        ensures { result ≡ slice_get (lines_in self.now.bytes.now) place }
    {
        if place < self.lines {
            Some(self.line_within(place))
        } else {
            None
        }
    }

    /// The line at a place that the file has.
    fn line_within(&self, place: usize) -> Line
        requires { place < length (lines_in self.now.bytes.now) }
        ensures { slice_get (lines_in self.now.bytes.now) place ≡ Some result }
    {
        line_at(self.bytes, place).unwrap()
    }

    /// The remark of the line at a place, counted from 0; none past the last line. A line without a remark has an empty
    /// one at its end.
    pub fn remark(&self, place: usize) -> Option<Remark<'a>>
        ensures { option_map (λ r. (r.text.now, r.offset)) result ≡ remark_at self.now.bytes.now place }
    {
        if place >= self.lines {
            return None;
        }
        let pair = read_pair(self.bytes, place);
        let start = pair.remark_start();
        Some(Remark {
            text: &self.bytes[start..pair.end()],
            offset: start,
        })
    }

    /// Writes the lines to the first places of a table.
    pub(crate) fn write(&self, table: &mut [Line])
        requires { length (lines_in self.now.bytes.now) ≤ length table.old }
        ensures { table.new ≡ written (meaning self.now.bytes.now) table.old }
    {
        for (place, line) in table[..self.lines].iter_mut().enumerate() {
            *line = self.line_within(place);
        }
    }

    /// The lines in a list.
    pub(crate) fn to_vec(&self, heap: Global) -> Result<Vec<Line>, AllocError>
        ensures { IfOk result (λ lines. lines.items ≡ lines_in self.now.bytes.now) }
    {
        let mut lines = Vec::with_capacity(heap, self.lines)?;
        for place in 0..self.lines {
            lines.push(self.line_within(place))?;
        }
        Ok(lines)
    }
}
