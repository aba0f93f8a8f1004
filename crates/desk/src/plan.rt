//! The calls of a journal, which grow by one statement after another.
ghost use Rattle.std.specs.Prelude.{◌≡◌, map, IfOk, OnOk};
ghost use Rattle.journal.specs.JournalLines.{content_of};
ghost use Rattle.desk.specs.Deeds.{deed, note_of};
ghost use Rattle.desk.specs.Plans.{seen, begun, noted, called, with_rates, more_line, read_file, enrolled, step, planned, Becomes};

use crate::note::Note;
use crate::rated::Rated;
use accounts::record::Line;
use crediting::method::CreditMethod;
use crediting::volumetric::Volumetric;
use journal::line::JournalLine;
use journal::statement::Statement;
use ledger::call::Call;
use requests::fault::ReadError;
use requests::reader::read_lines;
use std::alloc::{AllocError, Global};
use std::mem;

/// What the statements so far come to.
#[derive(Drop)]
pub struct Plan<M> {
    /// The rates of the bills that follow.
    pub rates: Volumetric,
    /// The lines in hand.
    pub lines: Vec<Line>,
    /// The calls of the ledger, in order.
    pub calls: Vec<Call<M>>,
    /// The notes of the statements that answer, in order.
    pub notes: Vec<Note>,
}

impl<M: Rated + Drop> Plan<M> {
    /// No call, no line in hand, rate 1 for every class.
    pub fn new(heap: Global) -> Plan<M>
        ensures { seen M.CreditMethod.worth result ≡ begun }
    {
        Plan {
            rates: Volumetric::new(),
            lines: Vec::new(heap),
            calls: Vec::new(heap),
            notes: Vec::new(heap),
        }
    }

    /// A statement that is answered at once.
    fn note(&mut self, note: Note) -> Result<(), AllocError>
        ensures { OnOk result (Becomes M.CreditMethod.worth self.old self.new (λ s. noted s note)) }
    {
        self.notes.push(note)?;
        Ok(())
    }

    /// A statement that is a call.
    fn call(&mut self, call: Call<M>) -> Result<(), AllocError>
        ensures { OnOk result (Becomes M.CreditMethod.worth self.old self.new
            (λ s. called s (deed M.CreditMethod.worth call) (note_of call))) }
    {
        self.notes.push(Note::from(&call))?;
        self.calls.push(call)?;
        Ok(())
    }

    /// The rates of the bills that follow; refused, those in force stay.
    fn set_rates(&mut self, rates: &[u32]) -> Result<(), AllocError>
        ensures { OnOk result (Becomes M.CreditMethod.worth self.old self.new (λ s. with_rates s rates.now)) }
    {
        let judged = self.rates.set_rates(rates);
        self.note(Note::Rates(judged))
    }

    /// One more line in hand.
    fn add_line(&mut self, line: Line) -> Result<(), AllocError>
        ensures { OnOk result (Becomes M.CreditMethod.worth self.old self.new (λ s. more_line s line)) }
    {
        self.lines.push(line)?;
        Ok(())
    }

    /// The lines of a request file in the place of those in hand; refused, those in hand stay.
    fn read_request(&mut self, file: &[u8], heap: Global) -> Result<(), AllocError>
        ensures { OnOk result (Becomes M.CreditMethod.worth self.old self.new (λ s. read_file s file.now)) }
    {
        match read_lines(file, heap) {
            Ok(lines) => {
                let count = lines.len();
                self.lines = lines;
                self.note(Note::Request(Ok(count)))
            }
            Err(ReadError::Refused(why)) => self.note(Note::Request(Err(why))),
            Err(ReadError::NoMemory) => Err(AllocError),
        }
    }

    /// Enrols the lines in hand, and then none are.
    fn enrol(&mut self, heap: Global) -> Result<(), AllocError>
        ensures { OnOk result (Becomes M.CreditMethod.worth self.old self.new (λ s. enrolled s)) }
    {
        let lines = mem::replace(&mut self.lines, Vec::new(heap));
        self.call(Call::Enrol(lines))
    }

    /// One statement more. A statement of the journal's head adds nothing.
    pub fn add(&mut self, stated: &JournalLine, heap: Global) -> Result<(), AllocError>
        ensures { OnOk result (Becomes M.CreditMethod.worth self.old self.new
            (λ s. step M.Rated.worths s (content_of stated.now))) }
    {
        match stated.statement {
            Statement::Method(_) | Statement::Book(_) | Statement::Open(_) => Ok(()),
            Statement::Rates(ref rates) => self.set_rates(rates.as_slice()),
            Statement::Line(line) => self.add_line(line),
            Statement::Request(_) => self.read_request(stated.file.as_slice(), heap),
            Statement::Enrol => self.enrol(heap),
            Statement::Reading(units) => self.call(Call::Reading(units)),
            Statement::Bill { account, cents } => {
                let method = M::rated(&self.rates);
                self.call(Call::Bill {
                    method,
                    account,
                    cents,
                })
            }
            Statement::Final { account, cents } => {
                let method = M::rated(&self.rates);
                self.call(Call::FinalBill {
                    method,
                    account,
                    cents,
                })
            }
            Statement::Disburse { account, units } => self.call(Call::Disburse { account, units }),
            Statement::Lapse => self.call(Call::Lapse),
            Statement::Close => self.call(Call::Close),
        }
    }

    /// The calls and notes of a whole journal; an error only where memory fails.
    pub fn of_statements(statements: &[JournalLine], heap: Global) -> Result<Plan<M>, AllocError>
        ensures { IfOk result (λ p. seen M.CreditMethod.worth p
            ≡ planned M.Rated.worths begun (map content_of statements.now)) }
    {
        let mut plan = Plan::new(heap);
        for stated in statements {
            plan.add(stated, heap)?;
        }
        Ok(plan)
    }
}
