//! The lines of answers, as they are printed.
ghost use Rattle.std.specs.Prelude.{Some, codes, false, refl};

use accounts::record::{Kind, Record, Size, State};
use base::refusal::Numbered;
use desk::answers::{OPENED, RATES_SET, answer_line, request_line};
use desk::book_lines::{account_line, ledger_line};
use desk::refusal::{refusal_line, refused_line};
use desk::totals::{CentTotals, UnitTotals};
use journal::mistake::Mistake;
use journal::statement::Expected;
use ledger::answer::{Done, Posting, Settlement};
use ledger::phase::Phase;
use ledger::refusal::Refusal;
use std::alloc::Global;
use std::fmt;
use std::process::Abort;
use std::test::Fail;

// A refusal of no crate.
#[derive(Clone, Copy)]
struct TooFewBytes;

impl fmt::Display for TooFewBytes {
    ghost output = { λ _. Some (codes "too few bytes") };

    fn fmt<W: fmt::Write>(&self, f: &mut fmt::Formatter<W>) -> fmt::Result {
        f.write_str("too few bytes")
    }
}

impl Numbered for TooFewBytes {
    ghost number = { λ _. 6 };

    ghost place = { λ _. 0 };

    ghost names_place = { λ _. false };

    ghost reason = { λ _. codes "too few bytes" };

    ghost spoken = { λ _. refl };

    fn number(&self) -> u8 {
        6
    }

    fn place(&self) -> usize {
        0
    }

    fn names_place(&self) -> bool {
        false
    }
}

fn done(rt: &impl Abort, heap: Global, answer: Done, text: &str) -> Result<(), Fail> {
    let line = answer_line("call", Ok(answer), heap)?;
    assert_eq!(rt; line.as_str(), text);
    Ok(())
}

fn declined(
    rt: &impl Abort,
    heap: Global,
    word: &str,
    why: Refusal,
    text: &str,
) -> Result<(), Fail> {
    let line = refusal_line(word, &why, heap)?;
    assert_eq!(rt; line.as_str(), text);
    Ok(())
}

#[test]
fn performed_calls(rt: HostRuntime) -> Result<(), Fail> {
    let heap = rt.alloc();
    let posting = Posting {
        applied: 7_454,
        used: 681,
        net: 745,
        fee: 6_709,
    };
    let nothing = Posting {
        applied: 0,
        used: 0,
        net: 0,
        fee: 0,
    };
    let settlement = Settlement {
        applied: 7_454,
        fees: 6_709,
        utility: 112,
        payment: 6_597,
    };
    done(&rt, heap, Done::Enrolled { new: 12 }, "enrol: 12 new")?;
    done(&rt, heap, Done::Opened { period: 1 }, "reading: period 1")?;
    done(
        &rt,
        heap,
        Done::Billed(posting),
        "bill: applied 7454 used 681 net 745 fee 6709",
    )?;
    done(
        &rt,
        heap,
        Done::FinallyBilled {
            posting: nothing,
            forfeited: 12,
        },
        "final: applied 0 used 0 net 0 fee 0 forfeited 12",
    )?;
    done(&rt, heap, Done::Disbursed { bank: 3 }, "disburse: bank 3")?;
    done(
        &rt,
        heap,
        Done::Lapsed { forfeited: 3 },
        "lapse: forfeited 3",
    )?;
    done(
        &rt,
        heap,
        Done::Closed(settlement),
        "close: applied 7454 fees 6709 utility 112 payment 6597",
    )?;
    assert_eq!(rt; OPENED, "open: opened");
    assert_eq!(rt; RATES_SET, "rates: set");
    let request = request_line(12, heap)?;
    assert_eq!(rt; request.as_str(), "request: 12 lines");
    Ok(())
}

#[test]
fn declined_calls(rt: HostRuntime) -> Result<(), Fail> {
    let heap = rt.alloc();
    declined(
        &rt,
        heap,
        "open",
        Refusal::WrongSmallest,
        "open: refused 9 place 0: the smallest number of lines is neither 1 nor 10",
    )?;
    declined(
        &rt,
        heap,
        "enrol",
        Refusal::LineOutOfRange { place: 11 },
        "enrol: refused 13 place 11: a number of the line is out of range",
    )?;
    declined(
        &rt,
        heap,
        "enrol",
        Refusal::PercentagesPass,
        "enrol: refused 16 place 0: the percentages pass 100 percent together",
    )?;
    declined(
        &rt,
        heap,
        "bill",
        Refusal::BilledAlready,
        "bill: refused 25 place 0: the account is billed already in this period",
    )?;
    declined(
        &rt,
        heap,
        "close",
        Refusal::ForeignBook,
        "close: refused 27 place 0: the book is another ledger's",
    )?;
    let other = refusal_line("book", &TooFewBytes, heap)?;
    assert_eq!(rt; other.as_str(), "book: refused 6 place 0: too few bytes");
    let alike = refused_line("book", 6, 0, "too few bytes", heap)?;
    assert_eq!(rt; alike.as_str(), "book: refused 6 place 0: too few bytes");
    let lapse = answer_line("lapse", Err(Refusal::InPeriod), heap)?;
    assert_eq!(rt;
        lapse.as_str(),
        "lapse: refused 11 place 0: a period is open"
    );
    let bank = answer_line("disburse", Ok(Done::Disbursed { bank: 0 }), heap)?;
    assert_eq!(rt; bank.as_str(), "disburse: bank 0");
    Ok(())
}

#[test]
fn books_and_totals(rt: HostRuntime) -> Result<(), Fail> {
    let heap = rt.alloc();
    let between = ledger_line(Phase::Between, 1, 0, heap)?;
    assert_eq!(rt;
        between.as_str(),
        "ledger: between periods, closed 1, bank 0, applied 0, fees 0"
    );
    let within = ledger_line(
        Phase::InPeriod {
            applied: 7_454,
            fees: 6_709,
        },
        0,
        20,
        heap,
    )?;
    assert_eq!(rt;
        within.as_str(),
        "ledger: in period, closed 0, bank 20, applied 7454, fees 6709"
    );
    let member = Record {
        account: 20_010_000_001,
        percentage: 10_000,
        savings: 1_000,
        class: 2,
        size: Size::Small,
        kind: Kind::Member,
        state: State::Open,
        held: 0,
        last: 1,
    };
    let first = account_line(member, heap)?;
    assert_eq!(rt;
        first.as_str(),
        "account 20010000001: percentage 10000 savings 1000 class 2 size S kind M state open held 0 last 1"
    );
    let anchor = Record {
        size: Size::Large,
        kind: Kind::Anchor,
        state: State::Closed,
        ..member
    };
    let second = account_line(anchor, heap)?;
    assert_eq!(rt;
        second.as_str(),
        "account 20010000001: percentage 10000 savings 1000 class 2 size L kind X state closed held 0 last 1"
    );
    let units = UnitTotals {
        read: 100,
        used: 50,
        forfeited: 10,
        bank: 20,
        held: 20,
    };
    let third = units.to_string(heap)?;
    assert_eq!(rt;
        third.as_str(),
        "units: read 100 used 50 forfeited 10 bank 20 held 20"
    );
    let cents = CentTotals {
        applied: 7_454,
        net: 745,
        paid: 6_597,
        utility: 112,
        open: 0,
    };
    let fourth = cents.to_string(heap)?;
    assert_eq!(rt;
        fourth.as_str(),
        "cents: applied 7454 net 745 paid 6597 utility 112 open 0"
    );
    Ok(())
}

#[test]
fn mistakes(rt: HostRuntime) -> Result<(), Fail> {
    let mistake = Mistake {
        line: 7,
        wanted: Expected::Size,
    };
    let line = mistake.to_string(rt.alloc())?;
    assert_eq!(rt; line.as_str(), "journal line 7: expected S or L");
    Ok(())
}
