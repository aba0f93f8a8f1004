// Requests at their limits: refusals 9, 10 and 12 to 18.
use super::stage::{EXEMPT, EXEMPT_FARM, ORDINARY, on_both};
use super::steps::{Act, Step, expects, large, last_bill, line, one, three, two};
use super::told::{amount, declined, declined_at, ended, settled};
use accounts::record::Line;

fn line_counts() -> [Step; 4] {
    [
        expects(
            "9 lines of at least 10",
            Act::EnrolMany { count: 9 },
            declined(12),
        ),
        expects(
            "10 lines, a book for 4",
            Act::EnrolMany { count: 10 },
            declined(18),
        ),
        expects(
            "1024 lines, a book for 4",
            Act::EnrolMany { count: 1_024 },
            declined(18),
        ),
        expects("1025 lines", Act::EnrolMany { count: 1_025 }, declined(12)),
    ]
}

fn few_lines() -> [Step; 3] {
    [
        expects(
            "no line of at least 1",
            Act::EnrolMany { count: 0 },
            declined(12),
        ),
        expects(
            "1 line of at least 1",
            Act::EnrolMany { count: 1 },
            amount(1),
        ),
        expects(
            "4 lines, a book for 4",
            Act::EnrolMany { count: 4 },
            amount(3),
        ),
    ]
}

// The second of two lines is the one in question.
fn second(account: u64, percentage: u32, savings: u16, class: u8) -> Act {
    let kept = line(2, 1);
    two(
        kept,
        Line {
            account,
            percentage,
            savings,
            class,
            ..kept
        },
    )
}

fn accounts_and_percentages() -> [Step; 8] {
    [
        expects("account 0", second(0, 1, 1_000, 1), declined_at(13, 1)),
        expects("account 1", second(1, 1, 1_000, 1), amount(2)),
        expects(
            "account 99999999999",
            second(99_999_999_999, 1, 1_000, 1),
            amount(1),
        ),
        expects(
            "account 100000000000",
            second(100_000_000_000, 1, 1_000, 1),
            declined_at(13, 1),
        ),
        expects("percentage 0", second(1, 0, 1_000, 1), declined_at(13, 1)),
        expects("percentage 1", second(1, 1, 1_000, 1), amount(0)),
        expects("percentage 100000", one(line(1, 100_000)), amount(0)),
        expects(
            "percentage 100001",
            one(line(1, 100_001)),
            declined_at(13, 0),
        ),
    ]
}

fn savings_and_classes() -> [Step; 8] {
    [
        expects("savings 499", second(1, 1, 499, 1), declined_at(13, 1)),
        expects("savings 500", second(1, 1, 500, 1), amount(2)),
        expects("savings 9800", second(1, 1, 9_800, 1), amount(0)),
        expects("savings 9801", second(1, 1, 9_801, 1), declined_at(13, 1)),
        expects("class 0", second(1, 1, 1_000, 0), declined_at(13, 1)),
        expects("class 1", second(1, 1, 1_000, 1), amount(0)),
        expects("class 16", second(1, 1, 1_000, 16), amount(0)),
        expects("class 17", second(1, 1, 1_000, 17), declined_at(13, 1)),
    ]
}

fn repeated_and_closed() -> [Step; 10] {
    [
        expects(
            "1, 2, 1",
            three(line(1, 1), line(2, 1), line(1, 1)),
            declined_at(14, 2),
        ),
        expects(
            "1, 1, 0: values first",
            three(line(1, 1), line(1, 1), line(0, 1)),
            declined_at(13, 2),
        ),
        expects("1, 2", two(line(1, 50_000), line(2, 50_000)), amount(2)),
        expects("reading of 100", Act::Read(100), amount(1)),
        expects(
            "final bill of account 2",
            last_bill(2, 10),
            ended(10, 10, 1, 9, 40),
        ),
        expects("close", Act::Close, settled(10, 9, 0, 9)),
        expects(
            "1, 2 closed",
            two(line(1, 1), line(2, 1)),
            declined_at(15, 1),
        ),
        expects(
            "1, 1, 2: repeats first",
            three(line(1, 1), line(1, 1), line(2, 1)),
            declined_at(14, 1),
        ),
        expects(
            "2 and 100.001 percent",
            two(line(2, 100_000), line(1, 1)),
            declined_at(15, 0),
        ),
        expects("1 alone", one(line(1, 1)), amount(0)),
    ]
}

fn percentages() -> [Step; 8] {
    [
        expects(
            "60 and 40 percent",
            two(line(1, 60_000), line(2, 40_000)),
            amount(2),
        ),
        expects(
            "60 and 40.001 percent",
            two(line(1, 60_000), line(2, 40_001)),
            declined(16),
        ),
        expects(
            "large 40 percent",
            two(large(1, 40_000), line(2, 60_000)),
            amount(0),
        ),
        expects("large 40.001 percent", one(large(1, 40_001)), declined(17)),
        expects(
            "large 15 and 25 percent",
            two(large(1, 15_000), large(2, 25_000)),
            amount(0),
        ),
        expects(
            "large 15 and 25.001 percent",
            two(large(1, 15_000), large(2, 25_001)),
            declined(17),
        ),
        expects(
            "large 60, small 40.001",
            two(large(1, 60_000), line(2, 40_001)),
            declined(16),
        ),
        expects(
            "large 40.001, no room",
            three(large(7, 40_001), line(8, 1), line(9, 1)),
            declined(17),
        ),
    ]
}

fn farm_percentages() -> [Step; 3] {
    [
        expects("large 40.001 percent", one(large(1, 40_001)), amount(1)),
        expects(
            "large 100 percent",
            two(large(1, 60_000), large(2, 40_000)),
            amount(1),
        ),
        expects(
            "large 100.001 percent",
            two(large(1, 60_000), large(2, 40_001)),
            declined(16),
        ),
    ]
}

fn room() -> [Step; 7] {
    [
        expects(
            "1, 2, 3",
            three(line(1, 1), line(2, 1), line(3, 1)),
            amount(3),
        ),
        expects(
            "4, 5, 3",
            three(line(4, 1), line(5, 1), line(3, 1)),
            declined(18),
        ),
        expects("records", Act::Records, amount(3)),
        expects(
            "4, 1, 2",
            three(line(4, 1), line(1, 1), line(2, 1)),
            amount(1),
        ),
        expects("percentage of 3", Act::Percentage { account: 3 }, amount(0)),
        expects("5", one(line(5, 1)), declined(18)),
        expects(
            "1, 2, 3 again",
            three(line(1, 1), line(2, 1), line(3, 1)),
            amount(0),
        ),
    ]
}

pub fn cases(rt: &HostRuntime) -> anyhow::Result<()> {
    on_both(rt, "many lines", ORDINARY, &line_counts())?;
    on_both(rt, "few lines", EXEMPT, &few_lines())?;
    on_both(
        rt,
        "accounts and percentages",
        EXEMPT,
        &accounts_and_percentages(),
    )?;
    on_both(rt, "savings and classes", EXEMPT, &savings_and_classes())?;
    on_both(rt, "repeated and closed", EXEMPT, &repeated_and_closed())?;
    on_both(rt, "percentages", EXEMPT, &percentages())?;
    on_both(rt, "farm", EXEMPT_FARM, &farm_percentages())?;
    on_both(rt, "room", EXEMPT, &room())
}
