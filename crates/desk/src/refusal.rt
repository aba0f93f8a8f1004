//! The line of a refusal.
ghost use Rattle.std.specs.Prelude.{◌≡◌, IfOk, string_bytes};
ghost use Rattle.desk.specs.RefusalLines.{refused_text};

use base::refusal::Numbered;
use std::alloc::{AllocError, Global};

/// `WORD: refused NUMBER place PLACE: reason`, by the first word of the statement that is refused.
pub fn refusal_line<R: Numbered>(word: &str, why: &R, heap: Global) -> Result<String, AllocError>
    ensures { IfOk result (λ s. string_bytes s
        ≡ refused_text word.now (R.number why.now) (R.place why.now) (R.reason why.now)) }
{
    let number = why.number();
    let place = why.place();
    format!(in heap; "{word}: refused {number} place {place}: {why}")
}

/// The same line of a refusal that is told by its number, its place and its reason.
pub fn refused_line(
    word: &str,
    number: u8,
    place: usize,
    reason: &str,
    heap: Global,
) -> Result<String, AllocError>
    ensures { IfOk result (λ s. string_bytes s ≡ refused_text word.now number place reason.now) }
{
    format!(in heap; "{word}: refused {number} place {place}: {reason}")
}
