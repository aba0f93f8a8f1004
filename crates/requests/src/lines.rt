//! The lines that the pairs of a file name.
ghost use Rattle.std.specs.Prelude.{◌≡◌, ℕ, ◌+◌, ◌<◌, ◌≤◌, length};
ghost use Rattle.requests.specs.Meaning.{head_bytes, pair_at, line_at, lines_from, checked};
ghost use Rattle.requests.specs.Placed.{Placed};

use crate::fault::LineFault;
use crate::field::fields;
use crate::pairs::read_pair;
use accounts::record::Line;

/// The line at a place, or what breaks its form.
pub fn line_at(file: &[u8], place: usize) -> Result<Line, LineFault>
    requires within { head_bytes (place + 1) ≤ length file.now }
    requires placed { Placed (length file.now) (pair_at file.now place) }
    ensures { result ≡ line_at file.now place }
{
    let pair = read_pair(file, place);
    let line = &file[pair.start()..pair.end()];
    fields(line).map_err(|field| LineFault { place, field })
}

/// Judges the lines in their order.
#[tactic(auto, using(crate::proofs::Judged::lines_step, crate::proofs::Judged::lines_all))]
pub fn check_lines(file: &[u8], lines: usize) -> Result<(), LineFault>
    requires within { head_bytes lines ≤ length file.now }
    requires placed { (place : ℕ) → place < lines → Placed (length file.now) (pair_at file.now place) }
    ensures { result ≡ checked (lines_from file.now 0 lines) }
{
    for place in 0..lines {
        line_at(file, place)?;
    }
    Ok(())
}
