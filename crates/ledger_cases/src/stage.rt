// A ledger and the book on which it performs the steps of a case.
use super::group::Group;
use super::steps::{Act, Method, Step, line};
use super::told::{ACCEPTED, Told, amount, told};
use accounts::book::AccountBook;
use accounts::project::Project;
use accounts::record::{Line, Record};
use books::image::ImageBook;
use books::table::TableBook;
use crediting::method::CreditMethod;
use crediting::rates::RatesRefusal;
use crediting::value_stack::ValueStack;
use crediting::volumetric::Volumetric;
use ledger::call::Call;
use ledger::ledger::Ledger;
use ledger::refusal::Refusal;
use std::alloc::Global;

// An exempt project, which may ask for a single line; each program names projects of its own.
pub const EXEMPT: Project = Project {
    smallest: 1,
    farm: false,
};

pub const ORDINARY: Project = Project {
    smallest: 10,
    farm: false,
};

pub const EXEMPT_FARM: Project = Project {
    smallest: 1,
    farm: true,
};

// A call that names no crediting method.
type Plain = Call<ValueStack>;

#[derive(Drop)]
pub struct Stage<'l, 'b, B> {
    ledger: &'l mut Ledger,
    book: &'b mut B,
}

fn volumetric(rate: u32) -> Result<Volumetric, RatesRefusal> {
    let mut method = Volumetric::new();
    method.set_rates(&[rate; 16])?;
    Ok(method)
}

impl<'l, 'b, B: AccountBook> Stage<'l, 'b, B> {
    pub fn new(ledger: &'l mut Ledger, book: &'b mut B) -> Self {
        Stage { ledger, book }
    }

    fn call<M: CreditMethod + Drop>(&mut self, call: Call<M>) -> Told {
        told(self.ledger.perform(self.book, &call))
    }

    fn enrol(&mut self, lines: Vec<Line>) -> Told {
        self.call(Plain::Enrol(lines))
    }

    fn months(&mut self, count: u32, units: u64) -> Told {
        for _ in 0..count {
            let _ = self.call(Plain::Reading(units));
            let _ = self.call(Plain::Close);
        }
        amount(u64::from(self.ledger.closed_periods()))
    }

    fn record(&self, account: u64) -> Result<Record, Refusal> {
        self.book
            .search(account)
            .and_then(|place| self.book.get(place))
            .ok_or(Refusal::NoOpenAccount)
    }

    pub fn perform(&mut self, act: Act, heap: Global) -> anyhow::Result<Told> {
        Ok(match act {
            Act::Enrol(lines) => self.enrol(lines.into_iter().flatten().collect(heap)?),
            Act::EnrolMany { count } => {
                self.enrol((1..=count).map(|account| line(account, 1)).collect(heap)?)
            }
            Act::Read(units) => self.call(Plain::Reading(units)),
            Act::Post(Method::ValueStack, bill) => self.call(bill.by(ValueStack)),
            Act::Post(Method::Volumetric { rate }, bill) => self.call(bill.by(volumetric(rate)?)),
            Act::Disburse { account, units } => self.call(Plain::Disburse { account, units }),
            Act::Lapse => self.call(Plain::Lapse),
            Act::Close => self.call(Plain::Close),
            Act::Months { count, units } => self.months(count, units),
            Act::Records => amount(self.book.count() as u64),
            Act::Bank => amount(self.ledger.bank()),
            Act::Held { account } => told(self.record(account).map(|found| found.held)),
            Act::Percentage { account } => told(self.record(account).map(|found| found.percentage)),
        })
    }

    pub fn open(&mut self, group: Group, project: Project) -> anyhow::Result<()> {
        let opened = told(self.ledger.open(project, self.book));
        group.show("the ledger opens", ACCEPTED, opened)
    }

    // Performs steps one after another, and prints each.
    pub fn play(&mut self, group: Group, steps: &[Step]) -> anyhow::Result<()> {
        for step in steps {
            let came = self.perform(step.act, group.rt.alloc())?;
            group.show(step.name, step.expected, came)?;
        }
        Ok(())
    }
}

// A new ledger on an empty book.
fn on_book<B: AccountBook + Drop>(
    group: Group,
    book: &mut B,
    project: Project,
    steps: &[Step],
) -> anyhow::Result<()> {
    let mut ledger = Ledger::new();
    let mut stage = Stage::new(&mut ledger, book);
    stage.open(group, project)?;
    stage.play(group, steps)
}

// Once for each kind of book, with room for four records.
pub fn on_both(
    rt: &HostRuntime,
    title: &str,
    project: Project,
    steps: &[Step],
) -> anyhow::Result<()> {
    let mut table = [Record::default(); 4];
    let mut book = TableBook::new(&mut table);
    let group = format!(in rt.alloc(); "{title}, table")?;
    on_book(Group::new(rt, &group), &mut book, project, steps)?;
    let mut image = [0u8; 148];
    let mut book = ImageBook::start(&mut image);
    let group = format!(in rt.alloc(); "{title}, image")?;
    on_book(Group::new(rt, &group), &mut book, project, steps)
}
