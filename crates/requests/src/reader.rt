//! Reading a request file: its lines into a lent table or an owned list, and the remark of one of its lines.
ghost use Rattle.std.specs.Prelude.{◌≡◌, length, IfOk, IfErr, Ok};
ghost use Rattle.std.specs.Option.{option_map};
ghost use Rattle.requests.specs.Meaning.{meaning, reading, counted, written, remark_at};
ghost use Rattle.requests.specs.Reading.{Declines};

use crate::fault::{ReadError, RequestRefusal};
use crate::file::RequestFile;
use crate::pairs::line_count;
use crate::remark::Remark;
use accounts::record::Line;
use std::alloc::Global;

/// Writes the file's lines to the first places of the table and answers how many there are: 1 to
/// [`MOST_LINES`](base::limits::MOST_LINES). The other places stay as they are, and all do where the file is refused,
/// with its first fault. A table with too few places is judged right after the line count. Nothing is allocated.
pub fn read(file: &[u8], table: &mut [Line]) -> Result<usize, RequestRefusal>
    ensures answer { result ≡ counted (reading file.now (length table.old)) }
    ensures table { table.new ≡ written (reading file.now (length table.old)) table.old }
{
    let lines = line_count(file)?;
    if table.len() < lines {
        return Err(RequestRefusal::Table);
    }
    let request = RequestFile::judge(file, lines)?;
    request.write(table);
    Ok(lines)
}

/// The file's lines in a list, or its first fault; or [`ReadError::NoMemory`], which no file that is refused meets.
pub fn read_lines(file: &[u8], heap: Global) -> Result<Vec<Line>, ReadError>
    ensures reads { IfOk result (λ lines. meaning file.now ≡ Ok lines.items) }
    ensures declines { IfErr result (Declines file.now) }
{
    let request = RequestFile::open(file)?;
    let list = request.to_vec(heap)?;
    Ok(list)
}

/// The remark of the line at a place, counted from 0; none where the file is not in order or has no such line. To ask
/// for several, open the file once as a [`RequestFile`].
pub fn remark<'a>(file: &'a [u8], place: usize) -> Option<Remark<'a>>
    ensures { option_map (λ r. (r.text.now, r.offset)) result ≡ remark_at file.now place }
{
    let request = RequestFile::open(file).ok()?;
    request.remark(place)
}
