// Four ways in which a posting goes astray, and does not here.
use super::group::Group;
use super::stage::{EXEMPT, on_both};
use super::steps::{Act, Step, bill, expects, last, line, monthly, one, rated, three, two};
use super::told::{Fact, Refused, amount, declined, declined_at, ended, posted, settled};
use accounts::record::{Kind, Line};
use ledger_run::worked::{worked_checks, worked_history, worked_postings};

// At 0.4 cents, 9 kilowatt-hours are worth 3 cents. A cent takes 3 of them, and 6 are left.
// Had the 2 cents left over been turned back into kilowatt-hours, 5 would be left, and one of the 9 would be gone.
// Used and forfeited are 9.
fn units_stay() -> [Step; 7] {
    [
        expects("all to account 1", one(line(1, 100_000)), amount(1)),
        expects("reading of 9", Act::Read(9), amount(1)),
        expects(
            "a bill of a cent",
            rated(4_000, monthly(1, 1)),
            posted(1, 3, 0, 1),
        ),
        expects("left", Act::Held { account: 1 }, amount(6)),
        expects("close", Act::Close, settled(1, 1, 0, 1)),
        expects("reading of none", Act::Read(0), amount(2)),
        expects(
            "final bill",
            rated(4_000, last(1, 900)),
            ended(2, 5, 0, 2, 1),
        ),
    ]
}

// 10 percent of 7,455 is 745.5 and the other 90 percent 6,709.5: rounded apart they are a cent less or a cent more than
// the credit. 98 percent of 51 is 49.98 and the rest 1.02.
fn cents_stay() -> [Step; 5] {
    let thrifty = Line {
        savings: 9_800,
        ..line(2, 50_000)
    };
    [
        expects("half and half", two(line(1, 50_000), thrifty), amount(2)),
        expects("reading of 14910", Act::Read(14_910), amount(1)),
        expects(
            "savings of 10 percent",
            bill(1, 7_455),
            posted(7_455, 7_455, 745, 6_710),
        ),
        expects("savings of 98 percent", bill(2, 51), posted(51, 51, 49, 2)),
        expects("close", Act::Close, settled(7_506, 6_712, 113, 6_599)),
    ]
}

// One and a half percent of 33 cents is nothing, and of 34 a cent.
// Three bills of 33 are 99 cents and a fee of one cent; three of 34 are 102 cents and a fee of two.
fn fee_of_the_sum() -> [Step; 11] {
    [
        expects(
            "three accounts",
            three(line(1, 30_000), line(2, 30_000), line(3, 30_000)),
            amount(3),
        ),
        expects("reading", Act::Read(1_000), amount(1)),
        expects("33 cents", bill(1, 33), posted(33, 33, 3, 30)),
        expects("33 cents", bill(2, 33), posted(33, 33, 3, 30)),
        expects("33 cents", bill(3, 33), posted(33, 33, 3, 30)),
        expects("close", Act::Close, settled(99, 90, 1, 89)),
        expects("reading", Act::Read(0), amount(2)),
        expects("34 cents", bill(1, 34), posted(34, 34, 3, 31)),
        expects("34 cents", bill(2, 34), posted(34, 34, 3, 31)),
        expects("34 cents", bill(3, 34), posted(34, 34, 3, 31)),
        expects("close", Act::Close, settled(102, 93, 2, 91)),
    ]
}

// The fee of 7,454 is 111.81 cents and of the subscription fees 100.64. An anchor's credit counts for nothing.
fn fee_of_the_credits() -> [Step; 6] {
    let anchor = Line {
        kind: Kind::Anchor,
        ..line(2, 50_000)
    };
    [
        expects("member and anchor", two(line(1, 50_000), anchor), amount(2)),
        expects("reading of 1362", Act::Read(1_362), amount(1)),
        expects(
            "member",
            rated(109_460, monthly(1, 20_000)),
            posted(7_454, 681, 745, 6_709),
        ),
        expects("anchor", bill(2, 20_000), posted(681, 681, 681, 0)),
        expects("close", Act::Close, settled(7_454, 6_709, 112, 6_597)),
        expects("bank", Act::Bank, amount(0)),
    ]
}

fn half_cents() -> [Step; 8] {
    [
        expects("all to account 1", one(line(1, 100_000)), amount(1)),
        expects("reading", Act::Read(1_000), amount(1)),
        expects("33 cents", bill(1, 33), posted(33, 33, 3, 30)),
        expects("close of 33 cents", Act::Close, settled(33, 30, 0, 30)),
        expects("reading", Act::Read(0), amount(2)),
        expects("34 cents", bill(1, 34), posted(34, 34, 3, 31)),
        expects("close of 34 cents", Act::Close, settled(34, 31, 1, 30)),
        expects("left", Act::Held { account: 1 }, amount(933)),
    ]
}

// A request is checked to its last line before anything of it is entered.
fn nothing_of_a_refused_request() -> [Step; 9] {
    let faulty = Line {
        class: 17,
        ..line(4, 1)
    };
    [
        expects("60 percent", one(line(1, 60_000)), amount(1)),
        expects(
            "last line out of range",
            three(line(2, 1), line(1, 7), faulty),
            declined_at(13, 2),
        ),
        expects("records", Act::Records, amount(1)),
        expects("percentage", Act::Percentage { account: 1 }, amount(60_000)),
        expects(
            "last line repeated",
            three(line(2, 1), line(1, 7), line(2, 1)),
            declined_at(14, 2),
        ),
        expects("records", Act::Records, amount(1)),
        expects(
            "percentages pass",
            three(line(2, 1), line(1, 7), line(3, 100_000)),
            declined(16),
        ),
        expects("records", Act::Records, amount(1)),
        expects("percentage", Act::Percentage { account: 1 }, amount(60_000)),
    ]
}

pub fn cases(rt: &HostRuntime) -> anyhow::Result<()> {
    let group = Group::new(rt, "worked");
    group.show(
        "681 at 10.946 cents",
        posted(7_454, 681, 745, 6_709),
        Ok(Fact::Posted(worked_postings())),
    )?;
    group.show(
        "first of several faults",
        declined_at(13, 2),
        Err(Refused::from(worked_checks())),
    )?;
    group.show(
        "units used in a history",
        amount(150),
        Ok(Fact::Amount(worked_history())),
    )?;
    on_both(rt, "units stay", EXEMPT, &units_stay())?;
    on_both(rt, "cents stay", EXEMPT, &cents_stay())?;
    on_both(rt, "fee of the sum", EXEMPT, &fee_of_the_sum())?;
    on_both(rt, "fee of the credits", EXEMPT, &fee_of_the_credits())?;
    on_both(rt, "half cents", EXEMPT, &half_cents())?;
    on_both(
        rt,
        "refused request",
        EXEMPT,
        &nothing_of_a_refused_request(),
    )
}
