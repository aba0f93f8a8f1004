//! A line of a text that is packed into a request file.
ghost use Rattle.std.specs.Prelude.{◌≡◌, ◌≤◌, drop, length};
ghost use Rattle.std.specs.List.{prefix_len};
ghost use Rattle.std.specs.Option.{option_map};
ghost use Rattle.std.specs.Result.{result_map_both};
ghost use Rattle.journal.specs.Packed.{behind_field, behind_fields, in_gap, packed_of, says_nothing};

use crate::parse::read_line;
use crate::reader::Reader;
use crate::statement::ParseError;
use accounts::record::Line;

/// How many fields a line has.
const FIELDS: usize = 6;

/// What a line of the text asks for one account, and the host's remark.
#[derive(Clone, Copy)]
pub struct Packed<'a> {
    /// The account and what is asked for it.
    pub line: Line,
    /// The host's remark, empty for none.
    pub remark: &'a [u8],
}

/// Whether a line is empty or begins with `#`.
fn says_nothing(text: &[u8]) -> bool
    ensures { result ≡ says_nothing text.now }
{
    matches!(text, [] | [b'#', ..])
}

/// How many bytes at the front are spaces, or are none.
fn gap(text: &[u8], spaces: bool) -> usize
    ensures value { result ≡ prefix_len (in_gap spaces) text.now }
    ensures bound { result ≤ length text.now }
{
    text.iter()
        .take_while(|byte| (**byte == b' ') == spaces)
        .count()
}

/// What is left of a line behind its first field; spaces alone divide fields.
fn behind_field(text: &[u8]) -> &[u8]
    ensures value { result.now ≡ behind_field text.now }
    ensures bound { length result.now ≤ length text.now }
{
    let field = &text[gap(text, true)..];
    &field[gap(field, false)..]
}

/// What is left of a line behind its six fields.
fn behind_fields(text: &[u8]) -> &[u8]
    ensures value { result.now ≡ behind_fields 6 text.now }
    ensures bound { length result.now ≤ length text.now }
{
    let mut left = text;
    for _field in 0..FIELDS {
        left = behind_field(left);
    }
    left
}

/// What stands behind a space; nothing where nothing is left.
fn behind_space(left: &[u8]) -> &[u8]
    ensures { result.now ≡ drop 1 left.now }
{
    left.get(1..).unwrap_or(&[])
}

/// What a line of the text says: six fields, divided by spaces, then a space and the host's remark, which is what is left
/// of the line. None where the line is empty or begins with `#`; the error is what was expected in the place of the first
/// word of the fields that is missing, wrong or too many.
pub fn read_packed<'a>(text: &'a [u8]) -> Result<Option<Packed<'a>>, ParseError>
    ensures { result_map_both (option_map (λ p. (p.line, p.remark.now))) (λ e. e) result
        ≡ packed_of text.now }
{
    if says_nothing(text) {
        return Ok(None);
    }
    let left = behind_fields(text);
    let line = read_line(&mut Reader {
        left: &text[..text.len() - left.len()],
    })?;
    let remark = behind_space(left);
    Ok(Some(Packed { line, remark }))
}
