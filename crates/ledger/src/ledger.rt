//! The ledger. It holds no records: the caller lends it the book of them for each call.
ghost use Rattle.std.specs.Prelude.{◌≡◌, ◌+◌, ◌*◌, ◌≤◌};
ghost use Rattle.base.specs.Limits.{most_periods};
ghost use Rattle.ledger.specs.Limits.{most_applied, most_read};
ghost use Rattle.ledger.specs.Phases.{applied_in, fees_in, open_periods};

use super::account::open_entry;
use super::answer::{Done, Settlement};
use super::call::Call;
use super::enrolment::{clear_percentages, enter_lines};
use super::limits::{BASIS, MOST_LARGE, MOST_READ, UTILITY_RATE, WHOLE};
use super::lines::{first_closed, first_out_of_range, first_repeated, new_accounts, percentages};
use super::period::Period;
use super::phase::Phase;
use super::refusal::Refusal;
use accounts::book::AccountBook;
use accounts::project::Project;
use accounts::record::{Line, Record};
use base::limits::{MOST_LINES, MOST_PERIODS, MOST_READING, MOST_UNITS};
use crediting::method::CreditMethod;
use sharing::reading::Reading;

/// The numbers of one host's ledger.
#[derive(Clone, Copy)]
pub struct Ledger {
    pub(crate) project: Project,
    pub(crate) phase: Phase,
    // closed periods
    pub(crate) closed: u32,
    // units in the host bank
    pub(crate) bank: u64,
    // units of all accepted readings
    pub(crate) read: u64,
    ghost periods: { closed + open_periods phase ≤ most_periods },
    ghost banked: { bank ≤ read },
    ghost limited: { read ≤ most_read },
    ghost bounded: { applied_in phase ≤ most_applied },
    ghost fees_part: { fees_in phase ≤ applied_in phase },
    // a member's fee is at least a fiftieth of its credit, so that the fees cover the utility fee
    ghost covered: { applied_in phase ≤ 50 * fees_in phase },
}

/// Between calls.
impl Ledger {
    /// Whether a period is open, and what its bills have come to.
    pub fn phase(&self) -> Phase
        ensures { result ≡ self.now.phase }
    {
        self.phase
    }

    /// How many periods are closed.
    pub fn closed_periods(&self) -> u32
        ensures { result ≡ self.now.closed }
    {
        self.closed
    }

    /// The units in the host bank.
    pub fn bank(&self) -> u64
        ensures { result ≡ self.now.bank }
    {
        self.bank
    }

    /// The open period's members' applied credits, in cents; 0 between periods.
    pub fn applied(&self) -> u64
        ensures { result ≡ applied_in self.now.phase }
    {
        match self.phase {
            Phase::Between => 0,
            Phase::InPeriod { applied, .. } => applied,
        }
    }

    /// The open period's subscription fees, in cents; 0 between periods.
    pub fn open_fees(&self) -> u64
        ensures { result ≡ fees_in self.now.phase }
    {
        match self.phase {
            Phase::Between => 0,
            Phase::InPeriod { fees, .. } => fees,
        }
    }
}

impl Ledger {
    ghost use Rattle.std.specs.Prelude.{Ok, false};
    ghost use Rattle.accounts.specs.Books.{Contents, Keeps};
    ghost use Rattle.ledger.specs.Lines.{judge_lines};
    ghost use Rattle.ledger.specs.Steps.{bill, close, disburse, enrol, final_bill, lapse, open_answer, opened, reading, step};
    ghost use Rattle.ledger.specs.Views.{Opens, Performs, open_refusal, outcome, view};

    /// A place for a ledger, as if opened for a project that needs ten lines, without the farm mark.
    pub fn new() -> Ledger
        ensures { (b : Contents) → view result b
            ≡ opened (record { smallest = 10; farm = false }) b.room b.records }
    {
        Ledger::opened(Project {
            smallest: 10,
            farm: false,
        })
    }

    // A ledger opened for a project: between periods, all numbers 0.
    fn opened(project: Project) -> Ledger
        ensures { (b : Contents) → view result b ≡ opened project b.room b.records }
    {
        Ledger {
            project,
            phase: Phase::Between,
            closed: 0,
            bank: 0,
            read: 0,
        }
    }

    /// Opens a ledger in its place, on a book with no records. Refused, with 9 or 10, the place stays as it was.
    pub fn open<B: AccountBook>(&mut self, project: Project, book: &B) -> Result<(), Refusal>
        ensures answer { B.sound book.now
            → result ≡ open_answer (open_refusal project (B.contents book.now)) }
        ensures state { B.sound book.now → Opens project (B.contents book.now) self.old self.new }
    {
        if project.smallest != 1 && project.smallest != 10 {
            return Err(Refusal::WrongSmallest);
        }
        if book.count() != 0 {
            return Err(Refusal::BookHasRecords);
        }
        *self = Ledger::opened(project);
        Ok(())
    }

    /// Performs a call, or declines it and leaves ledger and book as they were.
    pub fn perform<M: CreditMethod, B: AccountBook>(
        &mut self,
        book: &mut B,
        call: &Call<M>,
    ) -> Result<Done, Refusal>
        ensures keeps { Keeps B.sound B.contents B.same_rest book.old book.new }
        ensures performs { Performs B.sound B.contents self.old self.new book.old book.new result
            (λ s. step M.worth s call.now) }
    {
        match (self.phase, call) {
            (Phase::Between, Call::Enrol(lines)) => self.enrol(book, lines.as_slice()),
            (Phase::Between, Call::Reading(units)) => self.reading(book, *units),
            (Phase::Between, Call::Disburse { account, units }) => {
                self.disburse(book, *account, *units)
            }
            (Phase::Between, Call::Lapse) => Ok(self.lapse()),
            (Phase::Between, Call::Bill { .. } | Call::FinalBill { .. } | Call::Close) => {
                Err(Refusal::BetweenPeriods)
            }
            (
                Phase::InPeriod { applied, fees },
                Call::Bill {
                    method,
                    account,
                    cents,
                },
            ) => {
                let period = Period {
                    number: self.closed + 1,
                    applied,
                    fees,
                };
                self.bill(period, book, method, *account, *cents)
            }
            (
                Phase::InPeriod { applied, fees },
                Call::FinalBill {
                    method,
                    account,
                    cents,
                },
            ) => {
                let period = Period {
                    number: self.closed + 1,
                    applied,
                    fees,
                };
                self.final_bill(period, book, method, *account, *cents)
            }
            (Phase::InPeriod { applied, fees }, Call::Close) => Ok(self.close(applied, fees)),
            (
                Phase::InPeriod { .. },
                Call::Enrol(_) | Call::Reading(_) | Call::Disburse { .. } | Call::Lapse,
            ) => Err(Refusal::InPeriod),
        }
    }

    // The number of new accounts of a request, or why it is declined.
    fn judge_lines<B: AccountBook>(&self, book: &B, lines: &[Line]) -> Result<usize, Refusal>
        ensures { B.sound book.now → result ≡ judge_lines self.now.project.smallest self.now.project.farm
            (B.contents book.now).room (B.contents book.now).records lines.now }
    {
        if lines.len() < self.project.smallest as usize || lines.len() > MOST_LINES {
            return Err(Refusal::WrongLineCount);
        }
        if let Some(place) = first_out_of_range(lines) {
            return Err(Refusal::LineOutOfRange { place });
        }
        if let Some(place) = first_repeated(lines) {
            return Err(Refusal::AccountRepeated { place });
        }
        if let Some(place) = first_closed(book, lines) {
            return Err(Refusal::LineOfClosedAccount { place });
        }
        let sums = percentages(lines);
        if sums.all > WHOLE {
            return Err(Refusal::PercentagesPass);
        }
        if !self.project.farm && sums.large > MOST_LARGE {
            return Err(Refusal::LargePercentagesPass);
        }
        let new = new_accounts(book, lines);
        if new > book.capacity().saturating_sub(book.count()) {
            return Err(Refusal::BookTooSmall);
        }
        Ok(new)
    }

    // Accounts on a line get its values, new ones join, and other records keep no percentage.
    fn enrol<B: AccountBook>(&mut self, book: &mut B, lines: &[Line]) -> Result<Done, Refusal>
        ensures keeps { Keeps B.sound B.contents B.same_rest book.old book.new }
        ensures performs { Performs B.sound B.contents self.old self.new book.old book.new result
            (λ s. enrol s lines.now) }
    {
        let new = self.judge_lines(book, lines)?;
        clear_percentages(book);
        enter_lines(book, lines);
        Ok(Done::Enrolled { new })
    }

    // Opens the next period with a reading: each satellite gains its share, and the host bank the rest.
    fn reading<B: AccountBook>(&mut self, book: &mut B, units: u64) -> Result<Done, Refusal>
        ensures keeps { Keeps B.sound B.contents B.same_rest book.old book.new }
        ensures performs { Performs B.sound B.contents self.old self.new book.old book.new result
            (λ s. reading s units) }
    {
        if self.closed >= MOST_PERIODS {
            return Err(Refusal::PeriodsOver);
        }
        if units > MOST_READING {
            return Err(Refusal::ReadingTooLarge);
        }
        if self.read + units > MOST_READ {
            return Err(Refusal::ReadingsPass);
        }
        let reading = Reading { units };
        let shared = reading.judge(book).ok_or(Refusal::ForeignBook)?;
        reading.share_out(book);
        self.phase = Phase::InPeriod {
            applied: 0,
            fees: 0,
        };
        self.bank += units - shared;
        self.read += units;
        Ok(Done::Opened {
            period: self.closed + 1,
        })
    }

    // A bill of an account in the open period.
    fn bill<M: CreditMethod, B: AccountBook>(
        &mut self,
        period: Period,
        book: &mut B,
        method: &M,
        account: u64,
        cents: u64,
    ) -> Result<Done, Refusal>
        requires { period.number ≡ self.old.closed + 1 }
        ensures keeps { Keeps B.sound B.contents B.same_rest book.old book.new }
        ensures performs { Performs B.sound B.contents self.old self.new book.old book.new result
            (λ s. bill (M.worth method.now) s period.applied period.fees account cents) }
    {
        let bill = period.judge_bill(book, method, account, cents)?;
        self.phase = period.raised(&bill);
        let _ = book.replace(bill.account.place, bill.billed(period.number));
        Ok(Done::Billed(bill.posting))
    }

    // The last bill of an account in the open period; the units left are forfeited, and the account is closed.
    fn final_bill<M: CreditMethod, B: AccountBook>(
        &mut self,
        period: Period,
        book: &mut B,
        method: &M,
        account: u64,
        cents: u64,
    ) -> Result<Done, Refusal>
        requires { period.number ≡ self.old.closed + 1 }
        ensures keeps { Keeps B.sound B.contents B.same_rest book.old book.new }
        ensures performs { Performs B.sound B.contents self.old self.new book.old book.new result
            (λ s. final_bill (M.worth method.now) s period.applied period.fees account cents) }
    {
        let bill = period.judge_bill(book, method, account, cents)?;
        self.phase = period.raised(&bill);
        let _ = book.replace(bill.account.place, bill.ended(period.number));
        Ok(Done::FinallyBilled {
            posting: bill.posting,
            forfeited: bill.left(),
        })
    }

    // Moves units from the host bank to an account.
    fn disburse<B: AccountBook>(
        &mut self,
        book: &mut B,
        account: u64,
        units: u64,
    ) -> Result<Done, Refusal>
        ensures keeps { Keeps B.sound B.contents B.same_rest book.old book.new }
        ensures performs { Performs B.sound B.contents self.old self.new book.old book.new result
            (λ s. disburse s account units) }
    {
        let entry = open_entry(book, account)?;
        if units == 0 || units > self.bank {
            return Err(Refusal::NotInBank);
        }
        let held = entry.holder.held + units;
        if held > MOST_UNITS {
            return Err(Refusal::ForeignBook);
        }
        let _ = book.replace(
            entry.place,
            Record {
                held,
                ..entry.holder
            },
        );
        self.bank -= units;
        Ok(Done::Disbursed { bank: self.bank })
    }

    // Forfeits the host bank.
    fn lapse(&mut self) -> Done
        ensures { (b : Contents) → outcome self.new b (Ok result) ≡ lapse (view self.old b) }
    {
        let forfeited = self.bank;
        self.bank = 0;
        Done::Lapsed { forfeited }
    }

    // Closes the open period: the host is paid its fees less the utility fee.
    fn close(&mut self, applied: u64, fees: u64) -> Done
        requires { self.old.phase ≡ Phase.InPeriod applied fees }
        ensures { (b : Contents) → outcome self.new b (Ok result) ≡ close (view self.old b) applied fees }
    {
        let utility = (applied * UTILITY_RATE + BASIS / 2) / BASIS;
        self.phase = Phase::Between;
        self.closed += 1;
        Done::Closed(Settlement {
            applied,
            fees,
            utility,
            payment: fees - utility,
        })
    }
}
