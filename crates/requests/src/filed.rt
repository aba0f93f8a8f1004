//! What a host files for one account.
use accounts::record::Line;

/// A line and the remark behind it.
#[derive(Clone, Copy)]
pub struct FiledLine<'a> {
    /// What is asked for the account. Its numbers may be out of range.
    pub line: Line,
    /// The remark's bytes, none for no remark.
    pub remark: &'a [u8],
}
