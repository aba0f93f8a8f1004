// Request files and rates at their limits: refusals 1 to 5 and 8.
use super::group::Group;
use super::patch::{Patch, put};
use super::told::{ACCEPTED, Told, amount, declined, declined_at, told};
use accounts::record::Line;
use crediting::volumetric::Volumetric;
use requests::reader::read;

// Two lines: at bytes 14 and 44, 30 bytes each.
const PAIRS: [u8; 14] = [2, 0, 14, 0, 0, 0, 30, 0, 44, 0, 0, 0, 30, 0];

const FIRST: &[u8] = b"20010000001 010000 1000 02 S M";

const SECOND: &[u8] = b"99999999999 040000 9800 16 L X";

fn pairs() -> [Patch; 10] {
    [
        put("no line", 0, 0, declined(2)),
        put("2 lines", 0, 2, amount(2)),
        put("3 lines", 0, 3, declined(4)),
        put("first line at 13", 2, 13, declined(4)),
        put("first line at 14", 2, 14, amount(2)),
        put("first line at 15", 2, 15, declined_at(4, 1)),
        put("first line of 29 bytes", 6, 29, declined(4)),
        put("second line at 43", 8, 43, declined_at(4, 1)),
        put("second line at 45", 8, 45, declined_at(4, 1)),
        put("second line of 31 bytes", 12, 31, declined_at(4, 1)),
    ]
}

fn fields() -> [Patch; 10] {
    [
        put("byte below the digits", 14, b'/', declined(5)),
        put("digit 0", 14, b'0', amount(2)),
        put("digit 9", 14, b'9', amount(2)),
        put("byte above the digits", 14, b':', declined(5)),
        put("no space", 25, b'.', declined(5)),
        put("last digit", 39, b'x', declined(5)),
        put("size S", 71, b'S', amount(2)),
        put("size s", 71, b's', declined_at(5, 1)),
        put("kind M", 73, b'M', amount(2)),
        put("kind m", 73, b'm', declined_at(5, 1)),
    ]
}

fn two_lines(rt: &HostRuntime) -> anyhow::Result<Vec<u8>> {
    let mut file = PAIRS.to_vec(rt.alloc())?;
    file.extend_from_slice(FIRST)?;
    file.extend_from_slice(SECOND)?;
    Ok(file)
}

fn patched(rt: &HostRuntime, title: &str, patches: &[Patch]) -> anyhow::Result<()> {
    let group = Group::new(rt, title);
    for patch in patches {
        let file = patch.of(two_lines(rt)?);
        let came = told(read(&file, &mut [Line::default(); 3]));
        group.show(patch.name, patch.expected, came)?;
    }
    Ok(())
}

fn tables(rt: &HostRuntime) -> anyhow::Result<()> {
    let group = Group::new(rt, "table");
    let file = two_lines(rt)?;
    let one = told(read(&file, &mut [Line::default(); 1]));
    group.show("1 place", declined(3), one)?;
    let two = told(read(&file, &mut [Line::default(); 2]));
    group.show("2 places", amount(2), two)
}

// A file of so many bytes that tells so many lines; the other bytes are 0, as are its pairs.
#[derive(Clone, Copy)]
struct BlankFile {
    name: &'static str,
    bytes: usize,
    lines: u16,
    expected: Told,
}

fn blank(name: &'static str, bytes: usize, lines: u16, expected: Told) -> BlankFile {
    BlankFile {
        name,
        bytes,
        lines,
        expected,
    }
}

fn blank_files() -> [BlankFile; 8] {
    [
        blank("1 byte", 1, 0, declined(1)),
        blank("2 bytes", 2, 0, declined(2)),
        blank("65535 bytes", 65_535, 1, declined(4)),
        blank("65536 bytes", 65_536, 1, declined(1)),
        blank("1024 lines", 65_535, 1_024, declined(4)),
        blank("1025 lines", 65_535, 1_025, declined(2)),
        blank("7 bytes for a pair", 7, 1, declined(2)),
        blank("8 bytes for a pair", 8, 1, declined(4)),
    ]
}

fn blanks(rt: &HostRuntime) -> anyhow::Result<()> {
    let group = Group::new(rt, "blank file");
    let heap = rt.alloc();
    for case in &blank_files() {
        let mut file = vec![in heap; 0u8; case.bytes]?;
        if let Some(count) = file.first_chunk_mut() {
            *count = case.lines.to_le_bytes();
        }
        let mut table = vec![in heap; Line::default(); 1_025]?;
        group.show(case.name, case.expected, told(read(&file, &mut table)))?;
    }
    Ok(())
}

// A file of one line of so many bytes, the form and a remark.
fn long_line(rt: &HostRuntime, length: u8) -> anyhow::Result<Told> {
    let mut file = [1, 0, 8, 0, 0, 0, length, 0].to_vec(rt.alloc())?;
    file.extend_from_slice(FIRST)?;
    file.resize(8 + usize::from(length.max(30)), b' ')?;
    Ok(told(read(&file, &mut [Line::default(); 1])))
}

fn lengths(rt: &HostRuntime) -> anyhow::Result<()> {
    let group = Group::new(rt, "length of a line");
    group.show("29 bytes", declined(4), long_line(rt, 29)?)?;
    group.show("30 bytes", amount(1), long_line(rt, 30)?)?;
    group.show("110 bytes", amount(1), long_line(rt, 110)?)?;
    group.show("111 bytes", declined(4), long_line(rt, 111)?)
}

// Fifteen rates of 1 and a last one.
fn with_last(rate: u32) -> [u32; 16] {
    let mut rates = [1; 16];
    rates[15] = rate;
    rates
}

fn all_rates(rt: &HostRuntime) -> anyhow::Result<()> {
    let group = Group::new(rt, "rates");
    let set = |name, rates, expected| -> anyhow::Result<()> {
        group.show(name, expected, told(Volumetric::new().set_rates(rates)))
    };
    set("15 rates", &[1; 15], declined(8))?;
    set("16 rates", &[1; 16], ACCEPTED)?;
    set("17 rates", &[1; 17], declined(8))?;
    set("rate 0", &with_last(0), declined_at(8, 15))?;
    set("rate 1", &with_last(1), ACCEPTED)?;
    set("rate 1000000", &with_last(1_000_000), ACCEPTED)?;
    set("rate 1000001", &with_last(1_000_001), declined_at(8, 15))
}

pub fn cases(rt: &HostRuntime) -> anyhow::Result<()> {
    blanks(rt)?;
    tables(rt)?;
    patched(rt, "pairs", &pairs())?;
    lengths(rt)?;
    patched(rt, "fields", &fields())?;
    all_rates(rt)
}
