//! The fields of a line: numbers of a fixed width, single spaces between them, two letters.
ghost use Rattle.std.specs.Prelude.{◌≡◌, ◌+◌, ◌^◌, ◌<◌, ◌≤◌, length, IfOk};
ghost use Rattle.requests.specs.Form.{with_digit, number_at, space_at, line_of};
ghost use Rattle.requests.specs.Limits.{field_bytes};

use crate::fault::FieldFault;
use crate::limits::{ACCOUNT_DIGITS, CLASS_DIGITS, FIELD_BYTES, PERCENTAGE_DIGITS, SAVINGS_DIGITS};
use accounts::record::{Kind, Line, Size};

/// The number so far with one digit more behind it.
fn with_digit(gathered: u64, byte: u8) -> Result<u64, FieldFault>
    requires { gathered < 10 ^ 18 }
    ensures { result ≡ with_digit gathered byte }
{
    let digit = char::from(byte).to_digit(10).ok_or(FieldFault::NotDigit)?;
    Ok(gathered * 10 + u64::from(digit))
}

/// The number that the `width` bytes from `at` on write.
fn number(line: &[u8], at: usize, width: usize) -> Result<u64, FieldFault>
    requires within { at + width ≤ length line.now }
    requires fits { width ≤ 18 }
    ensures value { result ≡ number_at line.now at width }
    ensures bound { IfOk result (λ n. n < 10 ^ width) }
{
    let mut gathered = 0;
    for byte in &line[at..at + width] {
        gathered = with_digit(gathered, *byte)?;
    }
    Ok(gathered)
}

fn space(line: &[u8], at: usize) -> Result<(), FieldFault>
    requires { at < length line.now }
    ensures { result ≡ space_at line.now at }
{
    if line[at] == b' ' {
        Ok(())
    } else {
        Err(FieldFault::NotSpace)
    }
}

/// The line that its bytes write: its fields, and in a longer line a space before the remark.
pub fn fields(line: &[u8]) -> Result<Line, FieldFault>
    requires { field_bytes ≤ length line.now }
    ensures { result ≡ line_of line.now }
{
    let account = number(line, 0, ACCOUNT_DIGITS)?;
    space(line, 11)?;
    let percentage = number(line, 12, PERCENTAGE_DIGITS)? as u32;
    space(line, 18)?;
    let savings = number(line, 19, SAVINGS_DIGITS)? as u16;
    space(line, 23)?;
    let class = number(line, 24, CLASS_DIGITS)? as u8;
    space(line, 26)?;
    let size = Size::try_from(line[27])?;
    space(line, 28)?;
    let kind = Kind::try_from(line[29])?;
    if line.len() > FIELD_BYTES {
        space(line, FIELD_BYTES)?;
    }
    Ok(Line {
        account,
        percentage,
        savings,
        class,
        size,
        kind,
    })
}
