// Opening at its limits, refusals 9 and 10, and books that are another ledger's, refusal 27.
use super::group::Group;
use super::satellite::satellite;
use super::stage::{EXEMPT, Stage};
use super::steps::{Act, Step, bill, disburse, expects};
use super::told::{ACCEPTED, Told, amount, declined, posted, settled, told};
use accounts::book::AccountBook;
use accounts::project::Project;
use accounts::record::Record;
use base::limits::MOST_UNITS;
use books::table::TableBook;
use ledger::ledger::Ledger;
use std::alloc::Global;

#[derive(Clone, Copy)]
struct Opening {
    name: &'static str,
    smallest: u32,
    empty: Told,
    filled: Told,
}

fn opens(name: &'static str, smallest: u32, empty: Told, filled: Told) -> Opening {
    Opening {
        name,
        smallest,
        empty,
        filled,
    }
}

fn openings() -> [Opening; 6] {
    [
        opens("at least 0 lines", 0, declined(9), declined(9)),
        opens("at least 1 line", 1, ACCEPTED, declined(10)),
        opens("at least 2 lines", 2, declined(9), declined(9)),
        opens("at least 9 lines", 9, declined(9), declined(9)),
        opens("at least 10 lines", 10, ACCEPTED, declined(10)),
        opens("at least 11 lines", 11, declined(9), declined(9)),
    ]
}

fn open_all(rt: &HostRuntime) -> anyhow::Result<()> {
    let on_empty = Group::new(rt, "opening on an empty book");
    let on_filled = Group::new(rt, "opening on a book with a record");
    let mut table = [Record::default(); 1];
    let empty = TableBook::new(&mut table);
    let mut table = [Record::default(); 1];
    let mut filled = TableBook::new(&mut table);
    let _ = filled.add(satellite(1, 1, 0));
    let mut ledger = Ledger::new();
    for case in &openings() {
        let project = Project {
            smallest: case.smallest,
            farm: false,
        };
        on_empty.show(case.name, case.empty, told(ledger.open(project, &empty)))?;
        on_filled.show(case.name, case.filled, told(ledger.open(project, &filled)))?;
    }
    Ok(())
}

// A ledger with 5 units in its bank, opened on a book of its own, is then given another's with two records.
fn on_another(group: Group, first: Record, other: Record, steps: &[Step]) -> anyhow::Result<()> {
    let mut ledger = Ledger::new();
    let mut table = [Record::default(); 1];
    let mut own = TableBook::new(&mut table);
    let mut stage = Stage::new(&mut ledger, &mut own);
    stage.open(group, EXEMPT)?;
    let banked = [
        expects("reading of 5 with no account", Act::Read(5), amount(1)),
        expects("close", Act::Close, settled(0, 0, 0, 0)),
    ];
    stage.play(group, &banked)?;
    let mut table = [Record::default(); 2];
    let mut book = TableBook::new(&mut table);
    let _ = book.add(first);
    let _ = book.add(other);
    Stage::new(&mut ledger, &mut book).play(group, steps)
}

fn reading_of_one(expected: Told) -> [Step; 1] {
    [expects("reading of 1", Act::Read(1), expected)]
}

fn disbursements() -> [Step; 3] {
    [
        expects("2 units", disburse(1, 2), declined(27)),
        expects("6 units", disburse(1, 6), declined(26)),
        expects("1 unit", disburse(1, 1), amount(4)),
    ]
}

// One bill of an account that another book holds, at the most units, as never billed.
fn bill_of_another(ledger: &mut Ledger, cents: u64, heap: Global) -> anyhow::Result<Told> {
    let mut table = [Record::default(); 1];
    let mut book = TableBook::new(&mut table);
    let _ = book.add(satellite(1, 1, MOST_UNITS));
    Stage::new(ledger, &mut book).perform(bill(1, cents), heap)
}

// Ten thousand bills of the most cents are 10^13 cents, which the period's applied credits may not pass.
fn most_applied(rt: &HostRuntime) -> anyhow::Result<()> {
    let group = Group::new(rt, "applied credits");
    let heap = rt.alloc();
    let mut ledger = Ledger::new();
    let mut table = [Record::default(); 1];
    let mut own = TableBook::new(&mut table);
    let read = Stage::new(&mut ledger, &mut own).perform(Act::Read(0), heap)?;
    group.show("reading", amount(1), read)?;
    for _ in 0..9_999 {
        let _ = bill_of_another(&mut ledger, 1_000_000_000, heap)?;
    }
    group.show(
        "9999 bills",
        amount(9_999_000_000_000),
        amount(ledger.applied()),
    )?;
    group.show(
        "to the limit",
        posted(1_000_000_000, 1_000_000_000, 100_000_000, 900_000_000),
        bill_of_another(&mut ledger, 1_000_000_000, heap)?,
    )?;
    let cent = bill_of_another(&mut ledger, 1, heap)?;
    group.show("a cent more", declined(27), cent)?;
    let none = bill_of_another(&mut ledger, 0, heap)?;
    group.show("no cent more", posted(0, 0, 0, 0), none)
}

pub fn cases(rt: &HostRuntime) -> anyhow::Result<()> {
    open_all(rt)?;
    let most = satellite(1, 60_000, 0);
    let idle = satellite(2, 0, MOST_UNITS);
    on_another(
        Group::new(rt, "another's whole"),
        most,
        satellite(2, 40_000, 0),
        &reading_of_one(amount(2)),
    )?;
    on_another(
        Group::new(rt, "another's 100.001 percent"),
        most,
        satellite(2, 40_001, 0),
        &reading_of_one(declined(27)),
    )?;
    on_another(
        Group::new(rt, "most units after it"),
        satellite(1, 100_000, MOST_UNITS - 1),
        idle,
        &reading_of_one(amount(2)),
    )?;
    on_another(
        Group::new(rt, "most units ahead of it"),
        satellite(1, 100_000, MOST_UNITS),
        idle,
        &reading_of_one(declined(27)),
    )?;
    on_another(
        Group::new(rt, "disbursements"),
        satellite(1, 0, MOST_UNITS - 1),
        idle,
        &disbursements(),
    )?;
    most_applied(rt)
}
