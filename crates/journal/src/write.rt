//! The text of a statement, which reads as the statement again.
ghost use Rattle.std.specs.Prelude.{Some, IfOk, string_bytes};
ghost use Rattle.journal.specs.Meanings.{meaning, an_opening, some_rates, a_line};
ghost use Rattle.journal.specs.Texts.{method_text, Written};

use crate::statement::{BookKind, MethodName, Statement};
use accounts::project::Project;
use accounts::record::Line;
use std::alloc::{AllocError, Global};
use std::fmt;
use std::fmt::Write;

impl fmt::Display for MethodName {
    ghost output = { λ name. Some (method_text name) };

    fn fmt<W: fmt::Write>(&self, f: &mut fmt::Formatter<W>) -> fmt::Result {
        f.write_str(match self {
            MethodName::ValueStack => "value-stack",
            MethodName::Volumetric => "volumetric",
        })
    }
}

/// The line that opens the ledger of a project.
#[tactic(auto, using(crate::proofs::Rewriting::reads_again))]
fn write_open(project: Project, heap: Global) -> Result<String, AllocError>
    ensures { IfOk result (λ s. Written (an_opening project) (string_bytes s)) }
{
    let smallest = project.smallest;
    let mark = if project.farm { "farm" } else { "plain" };
    format!(in heap; "open {smallest} {mark}")
}

/// The line of rates.
fn write_rates(rates: &[u32], heap: Global) -> Result<String, AllocError>
    ensures { IfOk result (λ s. Written (some_rates rates.now) (string_bytes s)) }
{
    let mut text = String::from_str(heap, "rates")?;
    for rate in rates {
        write!(text, " {rate}")?;
    }
    Ok(text)
}

/// The line of a line in hand.
#[tactic(auto, using(crate::proofs::Rewriting::reads_again))]
fn write_line(line: Line, heap: Global) -> Result<String, AllocError>
    ensures { IfOk result (λ s. Written (a_line line) (string_bytes s)) }
{
    let Line {
        account,
        percentage,
        savings,
        class,
        size,
        kind,
    } = line;
    format!(in heap; "line {account} {percentage} {savings} {class} {size} {kind}")
}

/// A statement's line, without its end. It is read as the statement again; the line of a request only where the file's
/// name is one word.
#[tactic(auto, using(crate::proofs::Rewriting::reads_again))]
pub fn write(statement: &Statement, heap: Global) -> Result<String, AllocError>
    ensures { IfOk result (λ s. Written (meaning statement.now) (string_bytes s)) }
{
    match *statement {
        Statement::Method(name) => format!(in heap; "method {name}"),
        Statement::Book(BookKind::Table { places }) => format!(in heap; "book table {places}"),
        Statement::Book(BookKind::Image { bytes }) => format!(in heap; "book image {bytes}"),
        Statement::Open(project) => write_open(project, heap),
        Statement::Rates(ref rates) => write_rates(rates.as_slice(), heap),
        Statement::Line(line) => write_line(line, heap),
        Statement::Request(ref name) => {
            let name = name.as_str();
            format!(in heap; "request {name}")
        }
        Statement::Enrol => String::from_str(heap, "enrol"),
        Statement::Reading(units) => format!(in heap; "reading {units}"),
        Statement::Bill { account, cents } => format!(in heap; "bill {account} {cents}"),
        Statement::Final { account, cents } => format!(in heap; "final {account} {cents}"),
        Statement::Disburse { account, units } => { format!(in heap; "disburse {account} {units}") }
        Statement::Lapse => String::from_str(heap, "lapse"),
        Statement::Close => String::from_str(heap, "close"),
    }
}
