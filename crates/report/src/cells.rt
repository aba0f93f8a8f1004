//! Cells of a table, pushed one behind the other.
ghost use Rattle.std.specs.Prelude.{◌≡◌, ◌++◌, string_bytes, IfSome, OnOk};
ghost use Rattle.report.specs.Tables.{right};

use std::alloc::{AllocError, Global};
use std::fmt::Display;

/// Pushes what a cell shows to the right side of its width, in columns; wider than that, it is pushed whole.
#[tactic(auto, using(crate::proofs::Spaces::spaces))]
pub(crate) fn push_right<T: Display>(
    out: &mut String,
    shown: &T,
    width: usize,
    heap: Global,
) -> Result<(), AllocError>
    ensures { OnOk result (IfSome (T.output shown.now) (λ text.
        string_bytes out.new ≡ string_bytes out.old ++ right width text)) }
{
    let text = shown.to_string(heap)?;
    let gap = width.saturating_sub(text.len());
    write!(out, "{:gap$}{text}", "")
}
