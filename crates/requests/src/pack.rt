//! The parts of a file one after another: the line count, the pairs, the lines.
ghost use Rattle.std.specs.Prelude.{◌≡◌, ◌+◌, ◌≤◌, ◌++◌, map, length, All, IsTrue, IsOk, IfOk, OnOk, Ok};
ghost use Rattle.std.specs.List.{flat_map};
ghost use Rattle.requests.specs.Limits.{most_file};
ghost use Rattle.requests.specs.Meaning.{head_bytes};
ghost use Rattle.requests.specs.Packing.{item, text, holds, pairs, packing, sized};
ghost use Rattle.requests.specs.declared.filed.FiledLine.{FiledLine};

use crate::filed::FiledLine;
use crate::limits::{COUNT_BYTES, MOST_FILE, MOST_REMARK, PAIR_BYTES};
use crate::packing::WriteRefusal;
use crate::text::{numbers_fit, push_text, text_length};
use base::limits::MOST_LINES;
use std::alloc::{AllocError, Global};

/// Pushes a pair for each line. The lines are to stand right behind the pairs, one behind the other.
#[tactic(auto, using(crate::proofs::Packs::pairs_more, crate::proofs::Packs::left_more, crate::proofs::Packs::remark_short), unfolding(crate::specs::Packing::pairs))]
fn push_pairs(file: &mut Vec<u8>, lines: &[FiledLine]) -> Result<(), AllocError>
    requires { head_bytes (length lines.now) + length (flat_map text (map item lines.now)) ≤ most_file }
    ensures { OnOk result (file.new.items
        ≡ file.old.items ++ pairs (head_bytes (length lines.now)) (map item lines.now)) }
{
    let mut at = COUNT_BYTES + PAIR_BYTES * lines.len();
    for filed_line in lines {
        let length = text_length(filed_line);
        file.extend_from_slice(&(at as u32).to_le_bytes())?;
        file.extend_from_slice(&(length as u16).to_le_bytes())?;
        at += length;
    }
    Ok(())
}

/// Pushes the bytes of each line.
#[tactic(auto, using(crate::proofs::Packs::texts_more))]
fn push_texts(file: &mut Vec<u8>, lines: &[FiledLine]) -> Result<(), AllocError>
    requires { All (λ (f : FiledLine). IsTrue (holds f.line)) lines.now }
    ensures { OnOk result (file.new.items ≡ file.old.items ++ flat_map text (map item lines.now)) }
{
    for filed_line in lines {
        push_text(file, filed_line)?;
    }
    Ok(())
}

/// The file of lines that one can hold; `size` is its length in bytes.
pub fn pack(lines: &[FiledLine], size: usize, heap: Global) -> Result<Vec<u8>, AllocError>
    requires { IsOk (packing (map item lines.now)) }
    ensures { IfOk result (λ file. packing (map item lines.now) ≡ Ok file.items) }
{
    let mut file = Vec::with_capacity(heap, size)?;
    file.extend_from_slice(&(lines.len() as u16).to_le_bytes())?;
    push_pairs(&mut file, lines)?;
    push_texts(&mut file, lines)?;
    Ok(file)
}

/// How many bytes the file has, or why there is none.
pub fn check(lines: &[FiledLine]) -> Result<usize, WriteRefusal>
    ensures { result ≡ sized (packing (map item lines.now)) }
{
    if !(1..=MOST_LINES).contains(&lines.len()) {
        return Err(WriteRefusal::LineCount);
    }
    let mut size = COUNT_BYTES + PAIR_BYTES * lines.len();
    for (place, filed_line) in lines.iter().enumerate() {
        if !numbers_fit(&filed_line.line) {
            return Err(WriteRefusal::Number { place });
        }
        if filed_line.remark.len() > MOST_REMARK {
            return Err(WriteRefusal::Remark { place });
        }
        size += text_length(filed_line);
    }
    if size > MOST_FILE {
        return Err(WriteRefusal::FileLength);
    }
    Ok(size)
}
