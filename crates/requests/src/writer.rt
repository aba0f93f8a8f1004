//! Packing lines with their remarks into a request file.
ghost use Rattle.std.specs.Prelude.{◌≡◌, map, IfOk, IfErr, Ok};
ghost use Rattle.requests.specs.Packing.{item, packing, Refuses, Unheld, ReadsBack};

use crate::filed::FiledLine;
use crate::pack::{check, pack};
use crate::packing::WriteRefusal;
use std::alloc::Global;

/// The request file of some lines with their remarks: reading it gives back both. Where it is refused for any reason but
/// want of memory, no file reads so.
pub fn write(lines: &[FiledLine], heap: Global) -> Result<Vec<u8>, WriteRefusal>
    ensures packs { IfOk result (λ file. packing (map item lines.now) ≡ Ok file.items) }
    ensures refuses { IfErr result (Refuses (map item lines.now)) }
    ensures only { IfErr result (Unheld (map item lines.now)) }
    ensures reads_back { IfOk result (λ file. ReadsBack file.items (map item lines.now)) }
{
    let size = check(lines)?;
    let file = pack(lines, size, heap)?;
    Ok(file)
}
