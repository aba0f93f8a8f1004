//! The first word of a statement.
ghost use Rattle.std.specs.Prelude.{◌≡◌};
ghost use Rattle.std.specs.Option.{ok_or};
ghost use Rattle.journal.specs.declared.statement.Expected.TheVariants.{Statement};
ghost use Rattle.journal.specs.declared.statement.ParseError.TheVariants.{Expected as expected};
ghost use Rattle.journal.specs.Keywords.{keyword_of};

use crate::statement::{Expected, ParseError};

/// The first word of a statement, which says how the words behind it are read. Any other word is refused as no
/// statement.
#[derive(Clone, Copy, PartialEq, Eq, Debug)]
pub enum Keyword {
    Method,
    Book,
    Open,
    Rates,
    Line,
    Request,
    Enrol,
    Reading,
    Bill,
    Final,
    Disburse,
    Lapse,
    Close,
}

impl TryFrom<&[u8]> for Keyword {
    type Error = ParseError;

    ghost try_from_gives = { λ word r. r ≡ ok_or (keyword_of word.now) (expected Statement) };

    #[tactic(auto, using(crate::proofs::Cells::cells))]
    fn try_from(word: &[u8]) -> Result<Keyword, ParseError> {
        match word {
            b"method" => Ok(Keyword::Method),
            b"book" => Ok(Keyword::Book),
            b"open" => Ok(Keyword::Open),
            b"rates" => Ok(Keyword::Rates),
            b"line" => Ok(Keyword::Line),
            b"request" => Ok(Keyword::Request),
            b"enrol" => Ok(Keyword::Enrol),
            b"reading" => Ok(Keyword::Reading),
            b"bill" => Ok(Keyword::Bill),
            b"final" => Ok(Keyword::Final),
            b"disburse" => Ok(Keyword::Disburse),
            b"lapse" => Ok(Keyword::Lapse),
            b"close" => Ok(Keyword::Close),
            _ => Err(ParseError::Expected(Expected::Statement)),
        }
    }
}
