//! What the words behind the program's name ask for, and how the program ends.
ghost use Rattle.std.specs.Prelude.{◌≡◌, Err, IfErr, IfOk, IsOk};
ghost use Rattle.std.specs.Process.{exit_status};
ghost use Rattle.anyhow.specs.Error.{HasNoCause};
ghost use Rattle.anyhow.specs.declared.error.Error.{Error};
ghost use Rattle.cabinet_tasks.specs.Endings.{status_of};
ghost use Rattle.cabinet_tasks.specs.declared.failure.Failure.TheVariants.{Failed};

use crate::ending::Ending;
use crate::failure::Failure;
use crate::files::{pack_task, show_task};
use crate::help::HELP;
use crate::log::Log;
use crate::monthly::Report;
use crate::posting::{post_file_task, post_input_task};
use std::env;
use std::fmt::Display;
use std::io::{Eprint, Read};
use std::process::ExitCode;

/// Where people find what the program can be asked.
const EXPLAINED: &str = "cabinet --help explains";

/// The program: reads its words, performs them on standard input, and ends with a status.
pub fn run(rt: &HostRuntime) -> anyhow::Result<ExitCode> {
    let heap = rt.alloc();
    let args: Vec<String> = env::args(rt)?.skip(1).collect(heap)?;
    let words: Vec<&str> = args.iter().map(|word| word.as_str()).collect(heap)?;
    finish_task(rt, perform_task(rt, rt.stdin(), words.as_slice()))
}

/// A failure of words that ask for nothing.
fn misused<T: Display>(rt: &HostRuntime, what: &T) -> Failure {
    Failure::told(&format_args!("cabinet: {what}; {EXPLAINED}"), rt.alloc())
}

/// Performs what the words behind the program's name ask for. A journal that they do not name stands on `input`. The
/// error says what could not be understood, read or done.
pub fn perform_task<I: Read + Drop>(
    rt: &HostRuntime,
    input: I,
    words: &[&str],
) -> Result<Ending, Failure> {
    match *words {
        [_, _, _, _, ..] => Err(misused(rt, &"too many words")),
        [] => post_input_task(rt, &Log, input),
        ["--help"] => {
            rt.print(HELP)?;
            Ok(Ending::Done)
        }
        ["--report"] => post_input_task(rt, &Report, input),
        ["--report", name] => post_file_task(rt, &Report, name),
        ["--pack", text, file] => pack_task(rt, text, file),
        ["--show", file] => show_task(rt, file),
        [name] if !name.starts_with("--") => post_file_task(rt, &Log, name),
        ["--pack", ..] => Err(misused(rt, &"--pack takes a text and a file")),
        ["--show", ..] => Err(misused(rt, &"--show takes a file")),
        [name] => Err(misused(rt, &format_args!("there is no option {name}"))),
        _ => Err(misused(rt, &"too many words")),
    }
}

/// As [`perform_task`]; the error says what that failure says, cut to 120 bytes, and no cause stands behind it.
pub fn perform<I: Read + Drop>(rt: &HostRuntime, input: I, words: &[&str]) -> anyhow::Result<Ending>
    ensures alone { IfErr result HasNoCause }
{
    Ok(perform_task(rt, input, words)?)
}

/// The status of the program. What could not be understood, read or written is told whole on standard error; where
/// memory, the clock, or the program's own input or output failed, the error is handed on.
pub fn finish_task<R: Eprint>(rt: &R, end: Result<Ending, Failure>) -> anyhow::Result<ExitCode>
    ensures status { IfOk result (λ code. exit_status code ≡ status_of end) }
    ensures ended { IsOk end → IsOk result }
    ensures handed { (why : Error) → end ≡ Err (Failed why) → result ≡ Err why }
{
    match end {
        Ok(ending) => Ok(ending.into()),
        Err(Failure::Told(line)) => {
            eprintln!(rt; "{line}")?;
            Ok(ExitCode::FAILURE)
        }
        Err(Failure::Cut(why)) => {
            eprintln!(rt; "{why}")?;
            Ok(ExitCode::FAILURE)
        }
        Err(Failure::Failed(why)) => Err(why),
    }
}

/// The status for an end whose error is one of `anyhow`. What could not be understood, read or done is told on standard
/// error, whatever failed; an error that is handed on says that it could not be told.
pub fn finish<R: Eprint>(rt: &R, end: anyhow::Result<Ending>) -> anyhow::Result<ExitCode>
    ensures status { IfOk result (λ code. exit_status code ≡ status_of end) }
    ensures ended { IsOk end → IsOk result }
{
    finish_task(rt, end.map_err(Failure::Cut))
}
