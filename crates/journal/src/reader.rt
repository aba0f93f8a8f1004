//! Takes a line's words from the front, one by one.
ghost use Rattle.std.specs.Prelude.{◌≡◌, ◌≤◌, length, IfOk};
ghost use Rattle.std.specs.Option.{option_map};
ghost use Rattle.std.specs.List.{prefix_len};
ghost use Rattle.journal.specs.Words.{is_space, in_run, words, first, WordTaken};
ghost use Rattle.journal.specs.Fields.{number_at, either_at, IsMark, file_at, end_at};
ghost use Rattle.journal.specs.Meanings.{Reads};

use crate::number::number;
use crate::statement::{Expected, ParseError};
use accounts::marks::UnknownMark;
use std::str::from_utf8;

/// Whether a byte divides words: a space, a carriage return or a line feed.
fn is_space(b: u8) -> bool
    ensures { result ≡ is_space b }
{
    matches!(b, b' ' | b'\r' | b'\n')
}

/// How many bytes at the front are spaces, or are none.
fn run(line: &[u8], spaces: bool) -> usize
    ensures value { result ≡ prefix_len (in_run spaces) line.now }
    ensures bound { result ≤ length line.now }
{
    line.iter().take_while(|b| is_space(**b) == spaces).count()
}

/// A line as far as its words are not taken yet.
#[derive(Drop)]
pub struct Reader<'a> {
    /// What is left of the line.
    pub left: &'a [u8],
}

impl<'a> Reader<'a> {
    /// The next word; none at the line's end.
    #[tactic(auto, using(crate::proofs::Cutting::cuts))]
    pub fn word(&mut self) -> Option<&'a [u8]>
        ensures value { option_map (λ x. x.now) result ≡ first (words self.old.left.now) }
        ensures left { WordTaken self.old.left.now self.new.left.now }
    {
        let line = self.left;
        let start = run(line, true);
        let from = &line[start..];
        let (word, left) = from.split_at(run(from, false));
        self.left = left;
        if word.is_empty() { None } else { Some(word) }
    }

    /// The number that the next word writes, and `most` in the place of a larger one; `what` is expected where the word
    /// is missing or no number.
    pub fn number(&mut self, what: Expected, most: u64) -> Result<u64, ParseError>
        ensures value { result ≡ number_at what most (first (words self.old.left.now)) }
        ensures left { WordTaken self.old.left.now self.new.left.now }
        ensures bound { IfOk result (λ n. n ≤ most) }
    {
        self.word()
            .and_then(|word| number(word, most))
            .ok_or(ParseError::Expected(what))
    }

    /// What the next word stands for, which is one of two names; `what` is expected where it is neither.
    pub fn either<T: Copy>(
        &mut self,
        what: Expected,
        one: (&str, T),
        other: (&str, T),
    ) -> Result<T, ParseError>
        ensures value { result ≡ either_at what one.entry.0.now one.entry.1 other.entry.0.now other.entry.1
            (first (words self.old.left.now)) }
        ensures left { WordTaken self.old.left.now self.new.left.now }
    {
        match self.word() {
            Some(word) if word == one.0.as_bytes() => Ok(one.1),
            Some(word) if word == other.0.as_bytes() => Ok(other.1),
            _ => Err(ParseError::Expected(what)),
        }
    }

    /// The mark that the next word is, a word of one byte; `what` is expected where it is no such mark.
    pub fn mark<T: TryFrom<u8, Error = UnknownMark> + Copy>(
        &mut self,
        what: Expected,
    ) -> Result<T, ParseError>
        ensures value { IsMark what T.try_from_gives (first (words self.old.left.now)) result }
        ensures left { WordTaken self.old.left.now self.new.left.now }
    {
        match self.word() {
            Some([byte]) => T::try_from(*byte).or(Err(ParseError::Expected(what))),
            _ => Err(ParseError::Expected(what)),
        }
    }

    /// The next word as text, for a file's name.
    #[tactic(auto, using(crate::proofs::Listing::names))]
    pub fn text(&mut self) -> Result<&'a str, ParseError>
        ensures value { Reads (λ x. x.now) (file_at (first (words self.old.left.now))) result }
        ensures left { WordTaken self.old.left.now self.new.left.now }
    {
        let word = self.word().ok_or(ParseError::Expected(Expected::File))?;
        from_utf8(word).or(Err(ParseError::Expected(Expected::File)))
    }

    /// Refuses a line that has a word left.
    pub fn end(&mut self) -> Result<(), ParseError>
        ensures { result ≡ end_at (first (words self.old.left.now)) }
    {
        match self.word() {
            Some(_) => Err(ParseError::Expected(Expected::End)),
            None => Ok(()),
        }
    }
}
