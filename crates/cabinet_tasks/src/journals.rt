//! Reads a journal with the request files that it names.
use crate::failure::Failure;
use crate::progress::Progress;
use journal::line::JournalLine;
use journal::mistake::Mistake;
use journal::statement::Statement;
use journal::text::{Journal, JournalFault, read_journal};
use std::alloc::Global;
use std::fs;

/// The folder of a journal, with the bar behind it; empty where its name has none.
pub(crate) fn folder_of(name: &str) -> &str {
    let length = name.rfind('/').map_or(0, |bar| bar.saturating_add(1));
    name.get(..length).unwrap_or("")
}

/// The bytes of a request file: by its name as it stands, or else from the folder of the journal.
fn request_bytes(rt: &HostRuntime, folder: &str, name: &str) -> anyhow::Result<Option<Vec<u8>>> {
    if let Ok(bytes) = fs::read(rt, name) {
        return Ok(Some(bytes));
    }
    let beside = format!(in rt.alloc(); "{folder}{name}")?;
    Ok(fs::read(rt, beside.as_str()).ok())
}

/// Reads the request files that statements name; one that cannot be read is a mistake of its line.
fn read_requests(
    rt: &HostRuntime,
    folder: &str,
    statements: &mut [JournalLine],
) -> Result<(), Failure> {
    for stated in statements.iter_mut() {
        if let Statement::Request(name) = &stated.statement {
            let bytes = request_bytes(rt, folder, name.as_str())?;
            let mistake = Mistake {
                line: stated.line,
                wanted: "a request file that can be read",
            };
            stated.file = bytes.ok_or_else(|| Failure::told(&mistake, rt.alloc()))?;
        }
    }
    Ok(())
}

/// Why a text is no journal: a line of it, or memory that failed.
fn no_journal(why: JournalFault, heap: Global) -> Failure {
    match why {
        JournalFault::Line(mistake) => Failure::told(&mistake, heap),
        JournalFault::NoMemory => Failure::Failed(why.into()),
    }
}

/// The journal of a text with its request files.
pub(crate) fn journal_of(
    progress: &mut Progress<HostRuntime>,
    folder: &str,
    text: &[u8],
) -> Result<Journal, Failure> {
    let rt = progress.rt;
    let heap = rt.alloc();
    let mut journal = read_journal(text, heap).map_err(|why| no_journal(why, heap))?;
    progress.tell(journal.lines, "lines are read")?;
    read_requests(rt, folder, journal.statements.as_mut_slice())?;
    Ok(journal)
}
