//! What a line says.
ghost use Rattle.std.specs.Prelude.{◌≡◌, true, [], Ok, Err, OnOk, string_bytes};
ghost use Rattle.std.specs.Option.{option_map};
ghost use Rattle.journal.specs.declared.statement.ParseError.TheVariants.{NoMemory};
ghost use Rattle.journal.specs.Words.{words, after_words, first, rest_from};
ghost use Rattle.journal.specs.Fields.{method_of, book_of, open_of, rates_from, six_of, line_of, request_of, number_alone, account_and, end_at};
ghost use Rattle.journal.specs.Results.{and_then};
ghost use Rattle.journal.specs.Meanings.{meaning, says, keeps, is_remark, statement_of, asks_memory, Reads};

use crate::keyword::Keyword;
use crate::number::number;
use crate::reader::Reader;
use crate::statement::{BookKind, Expected, MethodName, ParseError, Statement};
use accounts::project::Project;
use accounts::record::Line;
use std::alloc::Global;

/// The method's name.
fn read_method(line: &mut Reader) -> Result<MethodName, ParseError>
    ensures { result ≡ method_of (words line.old.left.now) }
{
    let name = line.either(
        Expected::Method,
        ("value-stack", MethodName::ValueStack),
        ("volumetric", MethodName::Volumetric),
    )?;
    line.end()?;
    Ok(name)
}

/// The kind of the book, and its places or bytes.
fn read_book(line: &mut Reader) -> Result<BookKind, ParseError>
    ensures { result ≡ book_of (words line.old.left.now) }
{
    let book = match line.word() {
        Some(b"table") => BookKind::Table {
            places: line.number(Expected::Places, u64::MAX)?,
        },
        Some(b"image") => BookKind::Image {
            bytes: line.number(Expected::Bytes, u64::MAX)?,
        },
        _ => return Err(ParseError::Expected(Expected::Book)),
    };
    line.end()?;
    Ok(book)
}

/// The fewest lines of a request, and whether the project is a farm's.
fn read_open(line: &mut Reader) -> Result<Project, ParseError>
    ensures { result ≡ open_of (words line.old.left.now) }
{
    // a larger number is read as the largest of the type, so that `as` loses nothing, here and below
    let smallest = line.number(Expected::Smallest, u64::from(u32::MAX))? as u32;
    let farm = line.either(Expected::Project, ("farm", true), ("plain", false))?;
    line.end()?;
    Ok(Project { smallest, farm })
}

/// The six fields of a line; words behind them are left.
fn read_fields(line: &mut Reader) -> Result<Line, ParseError>
    ensures value { result ≡ six_of (words line.old.left.now) }
    ensures left { OnOk result (words line.new.left.now ≡ rest_from 6 (words line.old.left.now)) }
    ensures after { OnOk result (line.new.left.now ≡ after_words 6 line.old.left.now) }
{
    let account = line.number(Expected::Account, u64::MAX)?;
    let percentage = line.number(Expected::Percentage, u64::from(u32::MAX))? as u32;
    let savings = line.number(Expected::Savings, u64::from(u16::MAX))? as u16;
    let class = line.number(Expected::Class, u64::from(u8::MAX))? as u8;
    let size = line.mark(Expected::Size)?;
    let kind = line.mark(Expected::Kind)?;
    Ok(Line {
        account,
        percentage,
        savings,
        class,
        size,
        kind,
    })
}

/// The six fields of a line, and no word behind them.
pub(crate) fn read_line(line: &mut Reader) -> Result<Line, ParseError>
    ensures { result ≡ line_of (words line.old.left.now) }
{
    let read = read_fields(line)?;
    line.end()?;
    Ok(read)
}

/// A number alone.
fn read_number(line: &mut Reader, what: Expected) -> Result<u64, ParseError>
    ensures { result ≡ number_alone what (words line.old.left.now) }
{
    let n = line.number(what, u64::MAX)?;
    line.end()?;
    Ok(n)
}

/// An account and a number of its own.
fn read_account_and(line: &mut Reader, what: Expected) -> Result<(u64, u64), ParseError>
    ensures { result ≡ account_and what (words line.old.left.now) }
{
    let account = line.number(Expected::Account, u64::MAX)?;
    let n = line.number(what, u64::MAX)?;
    line.end()?;
    Ok((account, n))
}

/// Rates, as many as there are words.
#[tactic(auto, unfolding(crate::specs::Fields::rates_from))]
fn read_rates(line: &mut Reader, heap: Global) -> Result<Vec<u32>, ParseError>
    ensures { Reads (λ rates. rates.items) (rates_from [] (words line.old.left.now)) result }
{
    let mut rates = Vec::new(heap);
    while let Some(word) = line.word() {
        let rate = number(word, u64::from(u32::MAX)).ok_or(ParseError::Expected(Expected::Rate))?;
        rates.push(rate as u32)?;
    }
    Ok(rates)
}

/// The name of a request file.
fn read_request(line: &mut Reader, heap: Global) -> Result<String, ParseError>
    ensures { Reads (λ name. string_bytes name) (request_of (words line.old.left.now)) result }
{
    let name = line.text()?;
    line.end()?;
    Ok(String::from_str(heap, name)?)
}

/// A statement of one word.
fn read_alone(line: &mut Reader, statement: Statement) -> Result<Statement, ParseError>
    ensures { result ≡ and_then (end_at (first (words line.old.left.now))) (λ _. Ok statement) }
{
    line.end()?;
    Ok(statement)
}

/// The statement of a first word and the words behind it.
fn read_statement(
    keyword: Keyword,
    line: &mut Reader,
    heap: Global,
) -> Result<Statement, ParseError>
    ensures value { Reads meaning (says keyword (words line.old.left.now)) result }
    ensures memory { result ≡ Err NoMemory → keeps keyword ≡ true }
{
    match keyword {
        Keyword::Method => Ok(Statement::Method(read_method(line)?)),
        Keyword::Book => Ok(Statement::Book(read_book(line)?)),
        Keyword::Open => Ok(Statement::Open(read_open(line)?)),
        Keyword::Rates => Ok(Statement::Rates(read_rates(line, heap)?)),
        Keyword::Line => Ok(Statement::Line(read_line(line)?)),
        Keyword::Request => Ok(Statement::Request(read_request(line, heap)?)),
        Keyword::Reading => Ok(Statement::Reading(read_number(line, Expected::Units)?)),
        Keyword::Bill => {
            let (account, cents) = read_account_and(line, Expected::Cents)?;
            Ok(Statement::Bill { account, cents })
        }
        Keyword::Final => {
            let (account, cents) = read_account_and(line, Expected::Cents)?;
            Ok(Statement::Final { account, cents })
        }
        Keyword::Disburse => {
            let (account, units) = read_account_and(line, Expected::Units)?;
            Ok(Statement::Disburse { account, units })
        }
        Keyword::Enrol => read_alone(line, Statement::Enrol),
        Keyword::Lapse => read_alone(line, Statement::Lapse),
        Keyword::Close => read_alone(line, Statement::Close),
    }
}

/// Whether a line's first word makes it a remark.
fn is_remark(word: &[u8]) -> bool
    ensures { result ≡ is_remark word.now }
{
    word.first() == Some(&b'#')
}

/// The statement of a line; none where the line is blank or a remark, which begins with `#`. The error is what was
/// expected in the place of the first word that is missing or wrong. Memory is asked for rates and for the name of a
/// file alone.
#[tactic(auto, using(crate::proofs::Saying::saying))]
pub fn parse(line: &[u8], heap: Global) -> Result<Option<Statement>, ParseError>
    ensures value { Reads (option_map meaning) (statement_of line.now) result }
    ensures memory { result ≡ Err NoMemory → asks_memory (words line.now) ≡ true }
{
    let mut left = Reader { left: line };
    let Some(word) = left.word() else {
        return Ok(None);
    };
    if is_remark(word) {
        return Ok(None);
    }
    let keyword = Keyword::try_from(word)?;
    read_statement(keyword, &mut left, heap).map(Some)
}
