//! The bytes of a line, pushed piece by piece.
ghost use Rattle.std.specs.Prelude.{◌≡◌, ◌≤◌, ◌++◌, length, OnOk, IfOk, IsTrue, string_bytes};
ghost use Rattle.requests.specs.Limits.{most_file};
ghost use Rattle.requests.specs.Packing.{form, item, text, has_digits, holds};

use crate::filed::FiledLine;
use crate::limits::{ACCOUNT_DIGITS, CLASS_DIGITS, FIELD_BYTES, PERCENTAGE_DIGITS, SAVINGS_DIGITS};
use accounts::record::Line;
use std::alloc::{AllocError, Global};

/// The bytes of a line's fields.
#[tactic(auto, using(crate::proofs::Padded::form_padded))]
fn form_text(line: &Line, heap: Global) -> Result<String, AllocError>
    requires { IsTrue (holds line.now) }
    ensures { IfOk result (λ text. string_bytes text ≡ form line.now) }
{
    let Line {
        account,
        percentage,
        savings,
        class,
        size,
        kind,
    } = *line;
    format!(in heap;
        "{account:0ACCOUNT_DIGITS$} {percentage:0PERCENTAGE_DIGITS$} {savings:0SAVINGS_DIGITS$} {class:0CLASS_DIGITS$} {size} {kind}"
    )
}

/// Pushes the fields, and behind them a space and the remark unless it is empty.
#[tactic(auto, using(crate::proofs::Texts::behind_none, crate::proofs::Texts::behind_some), unfolding(crate::specs::Packing::text))]
pub fn push_text(file: &mut Vec<u8>, filed_line: &FiledLine) -> Result<(), AllocError>
    requires { IsTrue (holds filed_line.now.line) }
    ensures { OnOk result (file.new.items ≡ file.old.items ++ text (item filed_line.now)) }
{
    let form = form_text(&filed_line.line, *file.allocator())?;
    file.extend_from_slice(form.as_bytes())?;
    if !filed_line.remark.is_empty() {
        file.push(b' ')?;
        file.extend_from_slice(filed_line.remark)?;
    }
    Ok(())
}

/// Whether a number has at most so many digits.
fn has_digits(digits: usize, number: u64) -> bool
    requires { digits ≤ 18 }
    ensures { result ≡ has_digits digits number }
{
    number < 10_u64.pow(digits as u32)
}

/// Whether each number has at most the digits of its field.
pub fn numbers_fit(line: &Line) -> bool
    ensures { result ≡ holds line.now }
{
    has_digits(ACCOUNT_DIGITS, line.account)
        && has_digits(PERCENTAGE_DIGITS, line.percentage as u64)
        && has_digits(SAVINGS_DIGITS, line.savings as u64)
        && has_digits(CLASS_DIGITS, line.class as u64)
}

/// How many bytes a line has with its remark.
#[tactic(auto, using(crate::proofs::Texts::length_text, crate::proofs::Texts::behind_none, crate::proofs::Texts::behind_some))]
pub fn text_length(filed_line: &FiledLine) -> usize
    requires { length filed_line.now.remark.now ≤ most_file }
    ensures { result ≡ length (text (item filed_line.now)) }
{
    if filed_line.remark.is_empty() {
        FIELD_BYTES
    } else {
        FIELD_BYTES + 1 + filed_line.remark.len()
    }
}
