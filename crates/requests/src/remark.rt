//! A line's remark.

/// A remark of the host, as it stands in the file.
#[derive(Clone, Copy, Debug)]
pub struct Remark<'a> {
    /// The remark's bytes, a part of the file's: 0 to 79 bytes, which need not be text.
    pub text: &'a [u8],
    /// Where the remark starts, counted from the file's start; for an empty one the line's end.
    pub offset: usize,
}
