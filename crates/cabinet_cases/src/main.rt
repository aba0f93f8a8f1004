//! Asks the cabinet for what the year's journal does not: packs and shows request files, prints the reports of a
//! quarter, of a farm's project and of a month whose credits are published, hands it journals and nothing as its input,
//! and gives it texts, files, journals and options with a mistake. Asks for some of it, too, by the functions whose errors
//! are cut to 120 bytes.
#![tactic(auto)]

use cabinet_tasks::arguments::{finish, finish_task, perform, perform_task, run};
use cabinet_tasks::ending::Ending;
use cabinet_tasks::files::{pack, show};
use cabinet_tasks::log::Log;
use cabinet_tasks::monthly::Report;
use cabinet_tasks::posting::{post_file, post_input};
use std::fmt::Display;
use std::fs;
use std::process::ExitCode;

/// A name that no journal has, so long that what is told of it has more than 120 bytes.
const LONG_NAME: &str =
    "journals/a_journal_whose_name_is_long_and_that_nobody_has_written_yet.journal";

/// An empty input.
const NOTHING: &[u8] = &[];

/// The line with which a person would ask.
fn print_words(rt: &HostRuntime, words: &[&str]) -> anyhow::Result<()> {
    print!(rt; "$ cabinet")?;
    for word in words {
        print!(rt; " {word}")?;
    }
    Ok(())
}

/// How a task ended, or what was wrong.
fn print_end<E: Display + Drop>(rt: &HostRuntime, end: Result<Ending, E>) -> anyhow::Result<()> {
    match end {
        Ok(ending) => println!(rt; "{ending}")?,
        Err(why) => println!(rt; "{why}")?,
    }
    println!(rt; "")?;
    Ok(())
}

/// Asks with an empty input.
fn ask(rt: &HostRuntime, words: &[&str]) -> anyhow::Result<()> {
    print_words(rt, words)?;
    println!(rt; "")?;
    print_end(rt, perform_task(rt, NOTHING, words))
}

/// Asks with the journal in a file as its input.
fn pipe(rt: &HostRuntime, journal: &str, words: &[&str]) -> anyhow::Result<()> {
    let text = fs::read(rt, journal)?;
    print_words(rt, words)?;
    println!(rt; " < {journal}")?;
    print_end(rt, perform_task(rt, text.as_slice(), words))
}

/// Asks by this program's own words, which are `--report`, and on its own standard input, as the cabinet itself is
/// asked.
fn ask_as_program(rt: &HostRuntime) -> anyhow::Result<()> {
    println!(rt; "$ cabinet --report < stdin")?;
    if run(rt)? == ExitCode::SUCCESS {
        println!(rt; "done")?;
    }
    println!(rt; "")?;
    Ok(())
}

/// Packs and shows a file, posts journals and performs words by the functions that answer an error as `anyhow` keeps it.
fn ask_cut(rt: &HostRuntime) -> anyhow::Result<()> {
    println!(rt; "pack lines.txt cut.req")?;
    print_end(rt, pack(rt, "lines.txt", "cut.req"))?;
    println!(rt; "pack mistake.txt cut.req")?;
    print_end(rt, pack(rt, "mistake.txt", "cut.req"))?;
    println!(rt; "show cut.req")?;
    print_end(rt, show(rt, "cut.req"))?;
    println!(rt; "show torn.req")?;
    print_end(rt, show(rt, "torn.req"))?;
    println!(rt; "show mistake.req")?;
    print_end(rt, show(rt, "mistake.req"))?;
    println!(rt; "post_file short.journal")?;
    print_end(rt, post_file(rt, &Report, "short.journal"))?;
    println!(rt; "post_file journals/unknown.journal")?;
    print_end(rt, post_file(rt, &Log, "journals/unknown.journal"))?;
    println!(rt; "post_input < short.journal")?;
    let journal = fs::read(rt, "short.journal")?;
    print_end(rt, post_input(rt, &Report, journal.as_slice()))?;
    println!(rt; "post_input")?;
    print_end(rt, post_input(rt, &Log, NOTHING))?;
    println!(rt; "perform {LONG_NAME}")?;
    print_end(rt, perform(rt, NOTHING, &[LONG_NAME]))?;
    println!(rt; "finish perform --show torn.req")?;
    if finish(rt, perform(rt, NOTHING, &["--show", "torn.req"]))? == ExitCode::FAILURE {
        println!(rt; "status 1")?;
    }
    println!(rt; "")?;
    Ok(())
}

// it ends as the cabinet does on a request file that is refused: with status 1
fn main(rt: HostRuntime) -> anyhow::Result<ExitCode> {
    ask(&rt, &["--pack", "lines.txt", "lines.req"])?;
    ask(&rt, &["--pack", "spaced.txt", "spaced.req"])?;
    ask(&rt, &["--pack", "returned.txt", "returned.req"])?;
    for text in [
        "mistake.txt",
        "long.txt",
        "wide.txt",
        "none.txt",
        "bytes.txt",
        "blank.txt",
        "indented.txt",
        "returns.txt",
    ] {
        ask(&rt, &["--pack", text, "mistake.req"])?;
    }
    ask(&rt, &["--pack", "lines.txt", "nowhere/lines.req"])?;
    for file in [
        "lines.req",
        "spaced.req",
        "returned.req",
        "mistake.req",
        "torn.req",
    ] {
        ask(&rt, &["--show", file])?;
    }
    for journal in [
        "quarter.journal",
        "short.journal",
        "mistake.journal",
        "journals/farm.journal",
        "journals/five.journal",
    ] {
        ask(&rt, &["--report", journal])?;
    }
    for journal in [
        "journals/farm.journal",
        "journals/narrow.journal",
        "journals/image.journal",
        "journals/bytes.journal",
        "journals/five.journal",
        "journals/early.journal",
        "journals/twice.journal",
        "journals/lost.journal",
        "journals/nowhere.journal",
        "journals/unknown.journal",
        LONG_NAME,
    ] {
        ask(&rt, &[journal])?;
    }
    pipe(&rt, "quarter.journal", &[])?;
    pipe(&rt, "quarter.journal", &["--report"])?;
    ask(&rt, &[])?;
    ask(&rt, &["--report"])?;
    ask(&rt, &["--pack", "lines.txt"])?;
    ask(&rt, &["--show"])?;
    ask(&rt, &["--print"])?;
    ask(&rt, &["--report", "quarter.journal", "short.journal"])?;
    ask(&rt, &["--pack", "lines.txt", "lines.req", "spaced.req"])?;
    ask(&rt, &["--show", "lines.req", "spaced.req", "torn.req"])?;
    ask(&rt, &["--help"])?;
    ask(&rt, &["--report", "published_month.journal"])?;
    ask(&rt, &["published_month.journal"])?;
    ask_as_program(&rt)?;
    ask_cut(&rt)?;
    finish_task(&rt, perform_task(&rt, NOTHING, &["--show", "torn.req"]))
}
