//! The line that is printed for a statement that answers.
ghost use Rattle.std.specs.Prelude.{◌≡◌, IfOk, string_bytes};
ghost use Rattle.std.specs.Option.{option_map};
ghost use Rattle.desk.specs.Logs.{word_of, calls_ledger, rates_text, file_text, call_text, note_text};

use crate::answers::{RATES_SET, answer_line, request_line};
use crate::note::Note;
use crate::refusal::refusal_line;
use crediting::rates::RatesRefusal;
use ledger::answer::Done;
use ledger::refusal::Refusal;
use requests::fault::RequestRefusal;
use std::alloc::{AllocError, Global};

/// The first word of a statement that answers.
pub fn word(note: Note) -> &'static str
    ensures { result.now ≡ word_of note }
{
    match note {
        Note::Rates(_) => "rates",
        Note::Request(_) => "request",
        Note::Enrol => "enrol",
        Note::Reading => "reading",
        Note::Bill => "bill",
        Note::Final => "final",
        Note::Disburse => "disburse",
        Note::Lapse => "lapse",
        Note::Close => "close",
    }
}

/// Whether a statement is a call of the ledger; rates and request files are answered at once.
pub fn is_call(note: Note) -> bool
    ensures { result ≡ calls_ledger note }
{
    !matches!(note, Note::Rates(_) | Note::Request(_))
}

/// The line of rates: set, or why they are refused.
fn rates_line(
    word: &str,
    judged: Result<(), RatesRefusal>,
    heap: Global,
) -> Result<String, AllocError>
    ensures { IfOk result (λ s. string_bytes s ≡ rates_text word.now judged) }
{
    match judged {
        Ok(()) => String::from_str(heap, RATES_SET),
        Err(why) => refusal_line(word, &why, heap),
    }
}

/// The line of a request file: how many lines it has, or why it is refused.
fn file_line(
    word: &str,
    read: Result<usize, RequestRefusal>,
    heap: Global,
) -> Result<String, AllocError>
    ensures { IfOk result (λ s. string_bytes s ≡ file_text word.now read) }
{
    match read {
        Ok(lines) => request_line(lines, heap),
        Err(why) => refusal_line(word, &why, heap),
    }
}

/// The line of a call; empty where it has no answer.
fn call_line(
    word: &str,
    answer: Option<Result<Done, Refusal>>,
    heap: Global,
) -> Result<String, AllocError>
    ensures { IfOk result (λ s. string_bytes s ≡ call_text word.now answer) }
{
    match answer {
        Some(answer) => answer_line(word, answer, heap),
        None => Ok(String::new(heap)),
    }
}

/// The line of a statement that answers; of one that is a call, by the ledger's answer.
pub fn note_line(
    note: Note,
    answer: Option<Result<Done, Refusal>>,
    heap: Global,
) -> Result<String, AllocError>
    ensures { IfOk result (λ s. string_bytes s ≡ note_text note answer) }
{
    let word = word(note);
    match note {
        Note::Rates(judged) => rates_line(word, judged, heap),
        Note::Request(read) => file_line(word, read, heap),
        _ => call_line(word, answer, heap),
    }
}
