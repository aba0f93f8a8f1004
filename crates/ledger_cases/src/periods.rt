// Periods, readings, bills and the bank at their limits: refusals 11 and 19 to 26.
use super::stage::{EXEMPT, ORDINARY, on_both};
use super::steps::{Act, Step, bill, disburse, expects, last_bill, line, one, two};
use super::told::{amount, declined, ended, posted, settled};

fn phases() -> [Step; 11] {
    [
        expects("all to account 1", one(line(1, 100_000)), amount(1)),
        expects("bill between periods", bill(1, 1), declined(22)),
        expects("final bill between periods", last_bill(1, 1), declined(22)),
        expects("close between periods", Act::Close, declined(22)),
        expects("reading", Act::Read(10), amount(1)),
        expects("request in a period", one(line(1, 100_000)), declined(11)),
        expects(
            "no line in a period",
            Act::EnrolMany { count: 0 },
            declined(11),
        ),
        expects("reading in a period", Act::Read(10), declined(11)),
        expects("disbursement in a period", disburse(1, 1), declined(11)),
        expects("lapse in a period", Act::Lapse, declined(11)),
        expects("close", Act::Close, settled(0, 0, 0, 0)),
    ]
}

fn readings() -> [Step; 11] {
    [
        expects("all to account 1", one(line(1, 100_000)), amount(1)),
        expects("10000000001 units", Act::Read(10_000_000_001), declined(20)),
        expects("10000000000 units", Act::Read(10_000_000_000), amount(1)),
        expects("close", Act::Close, settled(0, 0, 0, 0)),
        expects(
            "98 more",
            Act::Months {
                count: 98,
                units: 10_000_000_000,
            },
            amount(99),
        ),
        expects(
            "1000000000000 in all",
            Act::Read(10_000_000_000),
            amount(100),
        ),
        expects("close again", Act::Close, settled(0, 0, 0, 0)),
        expects("1 unit more", Act::Read(1), declined(21)),
        expects(
            "10000000001 units more",
            Act::Read(10_000_000_001),
            declined(20),
        ),
        expects("no unit more", Act::Read(0), amount(101)),
        expects("held", Act::Held { account: 1 }, amount(1_000_000_000_000)),
    ]
}

fn all_periods() -> [Step; 5] {
    [
        expects(
            "1199 periods",
            Act::Months {
                count: 1_199,
                units: 0,
            },
            amount(1_199),
        ),
        expects("the last reading", Act::Read(0), amount(1_200)),
        expects("the last close", Act::Close, settled(0, 0, 0, 0)),
        expects("one reading more", Act::Read(0), declined(19)),
        expects("one too large", Act::Read(10_000_000_001), declined(19)),
    ]
}

fn bills() -> [Step; 11] {
    [
        expects(
            "half and half",
            two(line(1, 50_000), line(2, 50_000)),
            amount(2),
        ),
        expects("reading", Act::Read(10_000_000_000), amount(1)),
        expects("1000000001 cents", bill(1, 1_000_000_001), declined(23)),
        expects(
            "1000000001 cents, no account",
            bill(3, 1_000_000_001),
            declined(23),
        ),
        expects("no account", bill(3, 1), declined(24)),
        expects("no account, final bill", last_bill(3, 1), declined(24)),
        expects(
            "1000000000 cents",
            bill(1, 1_000_000_000),
            posted(1_000_000_000, 1_000_000_000, 100_000_000, 900_000_000),
        ),
        expects("second bill", bill(1, 1), declined(25)),
        expects("final bill after a bill", last_bill(1, 1), declined(25)),
        expects(
            "final bill of nothing",
            last_bill(2, 0),
            ended(0, 0, 0, 0, 5_000_000_000),
        ),
        expects("closed account", bill(2, 1), declined(24)),
    ]
}

fn next_bills() -> [Step; 7] {
    [
        expects("all to account 1", one(line(1, 100_000)), amount(1)),
        expects("reading", Act::Read(100), amount(1)),
        expects("bill", bill(1, 10), posted(10, 10, 1, 9)),
        expects("close", Act::Close, settled(10, 9, 0, 9)),
        expects("next reading", Act::Read(0), amount(2)),
        expects("next bill", bill(1, 91), posted(90, 90, 9, 81)),
        expects("next close", Act::Close, settled(90, 81, 1, 80)),
    ]
}

fn bank() -> [Step; 11] {
    [
        expects("99.999 percent", one(line(1, 99_999)), amount(1)),
        expects("reading of 2", Act::Read(2), amount(1)),
        expects("bank", Act::Bank, amount(1)),
        expects("close", Act::Close, settled(0, 0, 0, 0)),
        expects("0 units, no account", disburse(2, 0), declined(24)),
        expects("0 units", disburse(1, 0), declined(26)),
        expects("2 units", disburse(1, 2), declined(26)),
        expects("1 unit", disburse(1, 1), amount(0)),
        expects("held", Act::Held { account: 1 }, amount(2)),
        expects("1 unit more", disburse(1, 1), declined(26)),
        expects("lapse of nothing", Act::Lapse, amount(0)),
    ]
}

fn lapses() -> [Step; 7] {
    [
        expects("half to account 1", one(line(1, 50_000)), amount(1)),
        expects("reading of 7", Act::Read(7), amount(1)),
        expects("final bill", last_bill(1, 2), ended(2, 2, 0, 2, 1)),
        expects("close", Act::Close, settled(2, 2, 0, 2)),
        expects("closed account", disburse(1, 1), declined(24)),
        expects("lapse", Act::Lapse, amount(4)),
        expects("bank", Act::Bank, amount(0)),
    ]
}

pub fn cases(rt: &HostRuntime) -> anyhow::Result<()> {
    on_both(rt, "phases", EXEMPT, &phases())?;
    on_both(rt, "readings", EXEMPT, &readings())?;
    on_both(rt, "all periods", ORDINARY, &all_periods())?;
    on_both(rt, "bills", EXEMPT, &bills())?;
    on_both(rt, "next bills", EXEMPT, &next_bills())?;
    on_both(rt, "bank", EXEMPT, &bank())?;
    on_both(rt, "lapses", EXEMPT, &lapses())
}
