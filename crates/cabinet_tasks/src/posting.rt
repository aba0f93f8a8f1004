//! Posts a journal by the method and in the book that its head names.
ghost use Rattle.std.specs.Prelude.{IfErr};
ghost use Rattle.anyhow.specs.Error.{HasNoCause};

use crate::ending::Ending;
use crate::failure::Failure;
use crate::files::read_file;
use crate::journals::{folder_of, journal_of};
use crate::printout::Printout;
use crate::progress::Progress;
use accounts::book::AccountBook;
use accounts::record::Record;
use base::limits;
use books::checks::check_start;
use books::codec::RECORD_BYTES;
use books::image::ImageBook;
use books::indexed::IndexedBook;
use books::table::TableBook;
use crediting::value_stack::ValueStack;
use crediting::volumetric::Volumetric;
use desk::plan::Plan;
use desk::rated::Rated;
use desk::refusal::refusal_line;
use journal::line::JournalLine;
use journal::order::{Head, read_head};
use journal::statement::{BookKind, MethodName};
use std::io::Read;

/// The most records of a book.
const MOST_RECORDS: u64 = limits::MOST_RECORDS as u64;

/// The most bytes of an image: a count of four bytes, and the records.
const MOST_IMAGE: u64 = 4 + RECORD_BYTES as u64 * MOST_RECORDS;

/// How many hints an index has: four to a record, so that an account is mostly found at the first look.
const SLOTS: usize = 4 * limits::MOST_RECORDS;

/// Posts the journal that stands on an input.
pub fn post_input_task<P: Printout, I: Read + Drop>(
    rt: &HostRuntime,
    printout: &P,
    mut input: I,
) -> Result<Ending, Failure> {
    let mut text = Vec::new(rt.alloc());
    input.read_to_end(&mut text)?;
    post_text(rt, printout, "", text.as_slice())
}

/// As [`post_input_task`]; the error says what that failure says, cut to 120 bytes, and no cause stands behind it.
pub fn post_input<P: Printout, I: Read + Drop>(
    rt: &HostRuntime,
    printout: &P,
    mut input: I,
) -> anyhow::Result<Ending>
    ensures alone { IfErr result HasNoCause }
{
    Ok(post_input_task(rt, printout, &mut input)?)
}

/// Posts the journal in a file. Request files that it names are looked for where the program runs, and then beside it.
pub fn post_file_task<P: Printout>(
    rt: &HostRuntime,
    printout: &P,
    name: &str,
) -> Result<Ending, Failure> {
    let text = read_file(rt, name)?;
    post_text(rt, printout, folder_of(name), text.as_slice())
}

/// As [`post_file_task`]; the error says what that failure says, cut to 120 bytes, and no cause stands behind it.
pub fn post_file<P: Printout>(rt: &HostRuntime, printout: &P, name: &str) -> anyhow::Result<Ending>
    ensures alone { IfErr result HasNoCause }
{
    Ok(post_file_task(rt, printout, name)?)
}

/// Posts a journal's text, once all of it is understood.
fn post_text<P: Printout>(
    rt: &HostRuntime,
    printout: &P,
    folder: &str,
    text: &[u8],
) -> Result<Ending, Failure> {
    let mut progress = Progress::start(rt)?;
    let journal = journal_of(&mut progress, folder, text)?;
    let statements = journal.statements.as_slice();
    let head = read_head(statements, journal.lines.saturating_add(1)).map_err(|why| Failure::told(
        &why,
        rt.alloc(),
    ))?;
    match head.method {
        MethodName::ValueStack => {
            post_in_book::<ValueStack, P>(&mut progress, printout, head, statements)?
        }
        MethodName::Volumetric => {
            post_in_book::<Volumetric, P>(&mut progress, printout, head, statements)?
        }
    }
    Ok(Ending::Done)
}

/// Posts statements in a new book of the kind that the head names.
fn post_in_book<M: Rated + Drop, P: Printout>(
    progress: &mut Progress<HostRuntime>,
    printout: &P,
    head: Head,
    statements: &[JournalLine],
) -> anyhow::Result<()> {
    let rt = progress.rt;
    let heap = rt.alloc();
    match head.book {
        BookKind::Table { places } => {
            let mut table = vec![in heap; Record::default(); places.min(MOST_RECORDS) as usize]?;
            let mut book = TableBook::new(table.as_mut_slice());
            post_indexed::<M, TableBook, P>(progress, printout, head, &mut book, statements)
        }
        BookKind::Image { bytes } => {
            let mut image = vec![in heap; 0u8; bytes.min(MOST_IMAGE) as usize]?;
            if let Err(why) = check_start(image.as_slice()) {
                let text = refusal_line("book", &why, heap)?;
                println!(rt; "{text}")?;
                return Ok(());
            }
            let mut book = ImageBook::start(image.as_mut_slice());
            post_indexed::<M, ImageBook, P>(progress, printout, head, &mut book, statements)
        }
    }
}

/// Posts statements in a book, with hints of where its accounts stand.
fn post_indexed<M: Rated + Drop, B: AccountBook, P: Printout>(
    progress: &mut Progress<HostRuntime>,
    printout: &P,
    head: Head,
    book: &mut B,
    statements: &[JournalLine],
) -> anyhow::Result<()> {
    let heap = progress.rt.alloc();
    let plan: Plan<M> = Plan::of_statements(statements, heap)?;
    progress.tell(plan.calls.len(), "calls are to be posted")?;
    let mut hints = vec![in heap; None; SLOTS]?;
    let mut book = IndexedBook::new(book, hints.as_mut_slice());
    printout.print(progress, head.project, &mut book, &plan)
}
