//! The same calls on a book of each kind, with the answers that the rules give.
use super::samples::{largest, small};
use accounts::book::AccountBook;
use accounts::record::Record;
use books::checks::check_open;
use books::image::ImageBook;
use books::table::TableBook;
use std::process::Abort;

// A call and its answer as values: one list of both is made on three books.
#[derive(Clone, Copy)]
enum Call {
    Count,
    Capacity,
    Get(usize),
    Search(u64),
    Add(Record),
    Replace(usize, Record),
}

#[derive(Clone, Copy, PartialEq, Eq, Debug)]
enum Answer {
    Number(usize),
    Record(Option<Record>),
    Place(Option<usize>),
    Done(bool),
}

fn ask<B: AccountBook>(book: &mut B, call: Call) -> Answer {
    match call {
        Call::Count => Answer::Number(book.count()),
        Call::Capacity => Answer::Number(book.capacity()),
        Call::Get(place) => Answer::Record(book.get(place)),
        Call::Search(account) => Answer::Place(book.search(account)),
        Call::Add(record) => Answer::Done(book.add(record)),
        Call::Replace(place, record) => Answer::Done(book.replace(place, record)),
    }
}

fn script() -> [(Call, Answer); 22] {
    let billed = Record {
        held: 7,
        last: 1,
        ..small(5)
    };
    let ranged_out = Record {
        class: 17,
        ..small(5)
    };
    [
        (Call::Count, Answer::Number(0)),
        (Call::Capacity, Answer::Number(3)),
        (Call::Get(0), Answer::Record(None)),
        (Call::Search(5), Answer::Place(None)),
        (Call::Replace(0, small(5)), Answer::Done(false)),
        (Call::Add(small(5)), Answer::Done(true)),
        (Call::Add(billed), Answer::Done(false)),
        (Call::Add(small(0)), Answer::Done(false)),
        (Call::Add(small(100_000_000_000)), Answer::Done(false)),
        (Call::Add(largest()), Answer::Done(true)),
        (Call::Replace(0, billed), Answer::Done(true)),
        (Call::Replace(1, billed), Answer::Done(false)),
        (Call::Replace(2, billed), Answer::Done(false)),
        (Call::Replace(0, ranged_out), Answer::Done(false)),
        (Call::Add(small(1)), Answer::Done(true)),
        (Call::Add(small(2)), Answer::Done(false)),
        (Call::Count, Answer::Number(3)),
        (Call::Get(0), Answer::Record(Some(billed))),
        (Call::Get(1), Answer::Record(Some(largest()))),
        (Call::Get(3), Answer::Record(None)),
        (Call::Search(99_999_999_999), Answer::Place(Some(1))),
        (Call::Search(2), Answer::Place(None)),
    ]
}

fn run<B: AccountBook>(rt: &impl Abort, book: &mut B) {
    for (call, answer) in script() {
        assert_eq!(rt; ask(book, call), answer);
    }
}

#[test]
fn in_a_table(rt: HostRuntime) {
    let mut table = [small(77); 3];
    let mut book = TableBook::new(&mut table);
    run(&rt, &mut book);
}

#[test]
fn in_an_image(rt: HostRuntime) {
    let mut image = [0u8; 114];
    let mut book = ImageBook::start(&mut image);
    run(&rt, &mut book);
}

#[test]
fn opened_again(rt: HostRuntime) {
    let mut image = [0u8; 114];
    let mut book = ImageBook::start(&mut image);
    run(&rt, &mut book);
    assert_eq!(rt; check_open(&image), Ok(()));
    let mut again = ImageBook::open(&mut image);
    assert_eq!(rt; ask(&mut again, Call::Capacity), Answer::Number(3));
    assert_eq!(rt; ask(&mut again, Call::Count), Answer::Number(3));
    assert_eq!(rt;
        ask(&mut again, Call::Get(1)),
        Answer::Record(Some(largest()))
    );
    assert_eq!(rt;
        ask(&mut again, Call::Get(2)),
        Answer::Record(Some(small(1)))
    );
}
