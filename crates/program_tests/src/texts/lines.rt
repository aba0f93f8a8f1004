//! Lines of a journal: what they say, written out again, and what each mistake lacks.
use accounts::record::{Kind, Size};
use journal::parse::parse;
use journal::statement::{Expected, ParseError, Statement};
use journal::write::write;
use std::alloc::Global;
use std::process::Abort;
use std::test::Fail;

// The line is read, and its statement is written as this text.
fn says(rt: &impl Abort, heap: Global, line: &str, text: &str) -> Result<(), Fail> {
    match parse(line.as_bytes(), heap)? {
        Some(statement) => {
            let written = write(&statement, heap)?;
            assert_eq!(rt; written.as_str(), text, "{}", line);
            Ok(())
        }
        None => Err(Fail::new(format_args!("no statement: {line}"))),
    }
}

fn says_nothing(rt: &impl Abort, heap: Global, line: &str) -> Result<(), Fail> {
    assert!(rt; parse(line.as_bytes(), heap)?.is_none(), "{}", line);
    Ok(())
}

fn lacks(rt: &impl Abort, heap: Global, line: &[u8], what: Expected) -> Result<(), Fail> {
    match parse(line, heap) {
        Err(ParseError::Expected(expected)) => {
            assert_eq!(rt; expected, what);
            Ok(())
        },
        Err(ParseError::NoMemory) => Err(Fail::new("no memory")),
        Ok(_) => Err(Fail::new("a statement")),
    }
}

#[test]
fn every_statement(rt: HostRuntime) -> Result<(), Fail> {
    let heap = rt.alloc();
    says(&rt, heap, "method value-stack", "method value-stack")?;
    says(&rt, heap, "method volumetric", "method volumetric")?;
    says(&rt, heap, "book table 4096", "book table 4096")?;
    says(&rt, heap, "book image 98332", "book image 98332")?;
    says(&rt, heap, "open 10 plain", "open 10 plain")?;
    says(&rt, heap, "open 1 farm", "open 1 farm")?;
    says(&rt, heap, "rates", "rates")?;
    says(
        &rt,
        heap,
        "rates 109450 0 1000000",
        "rates 109450 0 1000000",
    )?;
    // how many rates there may be is judged where they are set
    let seventeen = "rates 1 2 3 4 5 6 7 8 9 10 11 12 13 14 15 16 17";
    says(&rt, heap, seventeen, seventeen)?;
    says(
        &rt,
        heap,
        "line 20010000001 10000 1000 2 S M",
        "line 20010000001 10000 1000 2 S M",
    )?;
    says(
        &rt,
        heap,
        "line 20010000002 40000 0 1 L X",
        "line 20010000002 40000 0 1 L X",
    )?;
    says(
        &rt,
        heap,
        "request data/january.sat",
        "request data/january.sat",
    )?;
    says(&rt, heap, "request höst#1", "request höst#1")?;
    says(&rt, heap, "enrol", "enrol")?;
    says(&rt, heap, "reading 100000", "reading 100000")?;
    says(&rt, heap, "bill 20010000001 7454", "bill 20010000001 7454")?;
    says(&rt, heap, "final 20010000001 0", "final 20010000001 0")?;
    says(
        &rt,
        heap,
        "disburse 20010000001 3",
        "disburse 20010000001 3",
    )?;
    says(&rt, heap, "lapse", "lapse")?;
    says(&rt, heap, "close", "close")
}

#[test]
fn fields_in_their_order(rt: HostRuntime) -> Result<(), Fail> {
    match parse(b"line 7 100 1000 16 L M", rt.alloc())? {
        Some(Statement::Line(line)) => {
            assert_eq!(rt; line.account, 7);
            assert_eq!(rt; line.percentage, 100);
            assert_eq!(rt; line.savings, 1000);
            assert_eq!(rt; line.class, 16);
            assert_eq!(rt; line.size, Size::Large);
            assert_eq!(rt; line.kind, Kind::Member);
        }
        _ => return Err(Fail::new("no line")),
    }
    match parse(b"disburse 5 9", rt.alloc())? {
        Some(Statement::Disburse { account, units }) => {
            assert!(rt; account == 5 && units == 9);
            Ok(())
        },
        _ => Err(Fail::new("no disbursement")),
    }
}

#[test]
fn spaces_and_remarks(rt: HostRuntime) -> Result<(), Fail> {
    let heap = rt.alloc();
    says(&rt, heap, "  bill   7  12 ", "bill 7 12")?;
    says(&rt, heap, "close\r", "close")?;
    says(&rt, heap, "close\r\n", "close")?;
    says(&rt, heap, "bill 007 0012", "bill 7 12")?;
    says_nothing(&rt, heap, "")?;
    says_nothing(&rt, heap, "   \r")?;
    says_nothing(&rt, heap, "# bill 7 12")?;
    says_nothing(&rt, heap, "#bill")?;
    says_nothing(&rt, heap, "  # a remark")
}

// A number past its type stands for the largest of it.
#[test]
fn large_numbers(rt: HostRuntime) -> Result<(), Fail> {
    let heap = rt.alloc();
    says(
        &rt,
        heap,
        "reading 18446744073709551615",
        "reading 18446744073709551615",
    )?;
    says(
        &rt,
        heap,
        "reading 18446744073709551616",
        "reading 18446744073709551615",
    )?;
    says(
        &rt,
        heap,
        "reading 99999999999999999999999999999999999999999999",
        "reading 18446744073709551615",
    )?;
    says(&rt, heap, "open 4294967296 farm", "open 4294967295 farm")?;
    says(
        &rt,
        heap,
        "line 1 4294967299 65536 256 S M",
        "line 1 4294967295 65535 255 S M",
    )?;
    says(
        &rt,
        heap,
        "rates 4294967295 4294967296",
        "rates 4294967295 4294967295",
    )
}

#[test]
fn wrong_first_words(rt: HostRuntime) -> Result<(), Fail> {
    let heap = rt.alloc();
    lacks(&rt, heap, b"pay 7 12", Expected::Statement)?;
    lacks(&rt, heap, b"Bill 7 12", Expected::Statement)?;
    lacks(&rt, heap, b"bills 7 12", Expected::Statement)?;
    lacks(&rt, heap, b"bil", Expected::Statement)?;
    lacks(&rt, heap, b"bill\t7 12", Expected::Statement)?;
    lacks(&rt, heap, b"\xff", Expected::Statement)
}

#[test]
fn words_missing_or_wrong(rt: HostRuntime) -> Result<(), Fail> {
    let heap = rt.alloc();
    lacks(&rt, heap, b"method", Expected::Method)?;
    lacks(&rt, heap, b"method net", Expected::Method)?;
    lacks(&rt, heap, b"book", Expected::Book)?;
    lacks(&rt, heap, b"book tables 5", Expected::Book)?;
    lacks(&rt, heap, b"book table", Expected::Places)?;
    lacks(&rt, heap, b"book image x", Expected::Bytes)?;
    lacks(&rt, heap, b"open plain", Expected::Smallest)?;
    lacks(&rt, heap, b"open 10", Expected::Project)?;
    lacks(&rt, heap, b"open 10 ranch", Expected::Project)?;
    lacks(&rt, heap, b"rates 1 -2", Expected::Rate)?;
    lacks(&rt, heap, b"line x 1 1 1 S M", Expected::Account)?;
    lacks(&rt, heap, b"line 1 1.5 1 1 S M", Expected::Percentage)?;
    lacks(&rt, heap, b"line 1 1 +1 1 S M", Expected::Savings)?;
    lacks(&rt, heap, b"line 1 1 1 R S M", Expected::Class)?;
    lacks(&rt, heap, b"line 1 1 1 1 M S", Expected::Size)?;
    lacks(&rt, heap, b"line 1 1 1 1 S", Expected::Kind)?;
    lacks(&rt, heap, b"line 1 1 1 1 s M", Expected::Size)?;
    lacks(&rt, heap, b"request", Expected::File)?;
    lacks(&rt, heap, b"request \xff.sat", Expected::File)?;
    lacks(&rt, heap, b"reading", Expected::Units)?;
    lacks(&rt, heap, b"bill", Expected::Account)?;
    lacks(&rt, heap, b"bill 7", Expected::Cents)?;
    lacks(&rt, heap, b"final 7 1O", Expected::Cents)?;
    lacks(&rt, heap, b"disburse 7", Expected::Units)
}

#[test]
fn words_too_many(rt: HostRuntime) -> Result<(), Fail> {
    let heap = rt.alloc();
    lacks(&rt, heap, b"method volumetric now", Expected::End)?;
    lacks(&rt, heap, b"book table 5 6", Expected::End)?;
    lacks(&rt, heap, b"open 1 farm 2", Expected::End)?;
    lacks(&rt, heap, b"line 1 1 1 1 S M M", Expected::End)?;
    lacks(&rt, heap, b"request a b", Expected::End)?;
    lacks(&rt, heap, b"enrol 12", Expected::End)?;
    lacks(&rt, heap, b"reading 1 000", Expected::End)?;
    lacks(&rt, heap, b"bill 7 12 # paid", Expected::End)?;
    lacks(&rt, heap, b"lapse 3", Expected::End)?;
    lacks(&rt, heap, b"close 1", Expected::End)
}
