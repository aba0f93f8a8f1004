//! Numbers of any width as bytes, the lowest byte first.
ghost use Rattle.std.specs.Prelude.{◌≡◌, ◌^◌, ◌<◌, min, length, slice_index};
ghost use Rattle.std.specs.Int.{w64, from_le_bytes};

// The byte at a place, 0 past the end.
fn byte(bytes: &[u8], place: usize) -> u8
    ensures { result ≡ slice_index bytes.now place }
{
    bytes.get(place).copied().unwrap_or(0)
}

/// The number that the bytes stand for; bytes past the eighth are not read.
pub fn number(bytes: &[u8]) -> u64
    ensures value { result ≡ from_le_bytes w64 bytes.now }
    ensures bound { result < 256 ^ min 8 (length bytes.now) }
{
    u64::from_le_bytes([
        byte(bytes, 0),
        byte(bytes, 1),
        byte(bytes, 2),
        byte(bytes, 3),
        byte(bytes, 4),
        byte(bytes, 5),
        byte(bytes, 6),
        byte(bytes, 7),
    ])
}
