//! Packs and shows request files.
ghost use Rattle.std.specs.Prelude.{IfErr};
ghost use Rattle.anyhow.specs.Error.{HasNoCause};

use crate::ending::Ending;
use crate::failure::Failure;
use accounts::record::Line;
use desk::refusal::refusal_line;
use journal::packed::{Packed, read_packed};
use journal::statement::Statement;
use journal::write::write as write_statement;
use requests::file::RequestFile;
use requests::filed::FiledLine;
use requests::packing::WriteRefusal;
use requests::writer::write;
use std::alloc::Global;
use std::fs;
use std::str::from_utf8;

/// The first word of a line's statement, and a space.
const LINE_WORD: &str = "line ";

/// The bytes of a file.
pub(crate) fn read_file(rt: &HostRuntime, name: &str) -> Result<Vec<u8>, Failure> {
    fs::read(rt, name).map_err(|why| {
        let words = format_args!("cabinet: {name} cannot be read: {why}");
        Failure::told(&words, rt.alloc())
    })
}

/// Why lines cannot be packed, with the line of the text where it is one line's fault.
fn unpacked(why: WriteRefusal, numbers: &[usize], heap: Global) -> Failure {
    let line = match why {
        WriteRefusal::Number { place } | WriteRefusal::Remark { place } => numbers.get(place),
        _ => None,
    };
    match line {
        Some(number) => Failure::told(&format_args!("text line {number}: {why}"), heap),
        None => Failure::told(&format_args!("cabinet: {why}"), heap),
    }
}

/// Writes a request file from a text of lines and remarks.
pub fn pack_task(rt: &HostRuntime, text: &str, file: &str) -> Result<Ending, Failure> {
    let heap = rt.alloc();
    let bytes = read_file(rt, text)?;
    let Ok(lines) = from_utf8(bytes.as_slice()) else {
        return Err(Failure::told(&format_args!("cabinet: {text} is no text"), heap));
    };
    let mut filed = Vec::new(heap);
    // the line of the text for each of them
    let mut numbers = Vec::new(heap);
    for (place, words) in lines.lines().enumerate() {
        let number = place.saturating_add(1);
        let packed = read_packed(words.as_bytes()).map_err(|why| {
            Failure::told(&format_args!("text line {number}: {why}"), heap)
        })?;
        if let Some(Packed { line, remark }) = packed {
            filed.push(FiledLine { line, remark })?;
            numbers.push(number)?;
        }
    }
    let packed = write(filed.as_slice(), heap).map_err(|why| unpacked(
        why,
        numbers.as_slice(),
        heap,
    ))?;
    fs::write(rt, file, packed.as_slice()).map_err(|why| {
        Failure::told(
            &format_args!("cabinet: {file} cannot be written: {why}"),
            heap,
        )
    })?;
    let lines = filed.len();
    let size = packed.len();
    println!(rt; "{file}: {lines} lines, {size} bytes")?;
    Ok(Ending::Done)
}

/// As [`pack_task`]; the error says what that failure says, cut to 120 bytes, and no cause stands behind it.
pub fn pack(rt: &HostRuntime, text: &str, file: &str) -> anyhow::Result<Ending>
    ensures alone { IfErr result HasNoCause }
{
    Ok(pack_task(rt, text, file)?)
}

/// Prints a line in the form in which it is packed: as a journal's statement, without its first word.
fn show_line(rt: &HostRuntime, file: &RequestFile, place: usize, line: Line) -> anyhow::Result<()> {
    let statement = write_statement(&Statement::Line(line), rt.alloc())?;
    match statement.as_str().strip_prefix(LINE_WORD) {
        Some(fields) => print!(rt; "{fields}")?,
        None => print!(rt; "{statement}")?,
    }
    if let Some(found) = file.remark(place) {
        match from_utf8(found.text) {
            Ok("") => {}
            Ok(text) => print!(rt; " {text}")?,
            Err(_) => print!(rt; " (a remark that is not text)")?,
        }
    }
    println!(rt; "")?;
    Ok(())
}

/// Prints the lines of a request file with their remarks, or why it is refused.
pub fn show_task(rt: &HostRuntime, name: &str) -> Result<Ending, Failure> {
    let bytes = read_file(rt, name)?;
    match RequestFile::open(bytes.as_slice()) {
        Ok(file) => {
            let lines = file.count();
            println!(rt; "# {name}: {lines} lines")?;
            for place in 0..lines {
                if let Some(line) = file.line(place) {
                    show_line(rt, &file, place, line)?;
                }
            }
            Ok(Ending::Done)
        }
        Err(why) => {
            let text = refusal_line(name, &why, rt.alloc())?;
            println!(rt; "{text}")?;
            Ok(Ending::Refused)
        }
    }
}

/// As [`show_task`]; the error says what that failure says, cut to 120 bytes, and no cause stands behind it.
pub fn show(rt: &HostRuntime, name: &str) -> anyhow::Result<Ending>
    ensures alone { IfErr result HasNoCause }
{
    Ok(show_task(rt, name)?)
}
