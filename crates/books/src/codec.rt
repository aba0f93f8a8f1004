//! An account record as bytes, and back.
ghost use Rattle.std.specs.Prelude.{◌≡◌, ℕ, ◌+◌, ◌<◌, ◌≤◌, true, List, Some, All};
ghost use Rattle.accounts.specs.Ranges.{in_range};
ghost use Rattle.books.specs.Bytes.{part};
ghost use Rattle.books.specs.Codec.{decoded, encoded, has_zero_filler, record_bytes};

use accounts::record::{Kind, Record, Size, State};

/// How many bytes a record has.
pub const RECORD_BYTES: usize = 36;

// How many of them, the last, are 0.
const FILLER_BYTES: usize = 6;

// Where each field begins; it ends where the next begins. The filler is the last.
const ACCOUNT: usize = 0;

const PERCENTAGE: usize = 8;

const SAVINGS: usize = 12;

const CLASS: usize = 14;

const SIZE: usize = 15;

const KIND: usize = 16;

const STATE: usize = 17;

const HELD: usize = 18;

const LAST: usize = 26;

const FILLER: usize = 30;

/// The bytes of a record. Those of a record in range read back as it, and no others do.
#[tactic(auto, using(crate::proofs::Inverse::inverse), unfolding(crate::specs::Codec::encoded))]
pub fn encode(of: &Record) -> [u8; RECORD_BYTES]
    ensures value { result ≡ encoded of.now }
    ensures reads_back { in_range of.now ≡ true → decoded result ≡ Some of.now }
    ensures only { (bs : List ℕ) → All (λ b. b < 256) bs → decoded bs ≡ Some of.now → bs ≡ result }
{
    let mut bytes = [0u8; RECORD_BYTES];
    bytes[ACCOUNT..PERCENTAGE].copy_from_slice(&of.account.to_le_bytes());
    bytes[PERCENTAGE..SAVINGS].copy_from_slice(&of.percentage.to_le_bytes());
    bytes[SAVINGS..CLASS].copy_from_slice(&of.savings.to_le_bytes());
    bytes[CLASS] = of.class;
    bytes[SIZE] = of.size.into();
    bytes[KIND] = of.kind.into();
    bytes[STATE] = of.state.into();
    bytes[HELD..LAST].copy_from_slice(&of.held.to_le_bytes());
    bytes[LAST..FILLER].copy_from_slice(&of.last.to_le_bytes());
    bytes
}

// So many bytes of a record from a place on.
fn field<const N: usize>(bytes: &[u8; RECORD_BYTES], at: usize) -> [u8; N]
    requires { at + N ≤ record_bytes }
    ensures { result ≡ part at N bytes.now }
{
    let mut field = [0; N];
    field.copy_from_slice(&bytes[at..at + N]);
    field
}

// Whether the filler is 0.
fn has_zero_filler(bytes: &[u8; RECORD_BYTES]) -> bool
    ensures { result ≡ has_zero_filler bytes.now }
{
    field(bytes, FILLER) == [0; FILLER_BYTES]
}

/// The record whose bytes these are; none where they are those of no record in range.
#[tactic(auto, unfolding(crate::specs::Codec::fields_in))]
pub fn decode(bytes: &[u8]) -> Option<Record>
    ensures { result ≡ decoded bytes.now }
{
    let bytes: &[u8; RECORD_BYTES] = bytes.try_into().ok()?;
    if !has_zero_filler(bytes) {
        return None;
    }
    let size = Size::try_from(bytes[SIZE]).ok()?;
    let kind = Kind::try_from(bytes[KIND]).ok()?;
    let state = State::try_from(bytes[STATE]).ok()?;
    let read = Record {
        account: u64::from_le_bytes(field(bytes, ACCOUNT)),
        percentage: u32::from_le_bytes(field(bytes, PERCENTAGE)),
        savings: u16::from_le_bytes(field(bytes, SAVINGS)),
        class: bytes[CLASS],
        size,
        kind,
        state,
        held: u64::from_le_bytes(field(bytes, HELD)),
        last: u32::from_le_bytes(field(bytes, LAST)),
    };
    read.in_range().then_some(read)
}
