// The marks of a record: size and kind by a letter, the state by a number in an image and by a word in print.
// Each type is written out: a table for all three would name each mark of each type too, and be no shorter.
ghost use Rattle.std.specs.Prelude.{◌≡◌, Some};
ghost use Rattle.std.specs.Option.{ok_or};
ghost use Rattle.accounts.specs.Marks.{size_letter, size_of, size_text, kind_letter, kind_of, kind_text, state_number, state_of, state_text, unknown_text};

use super::record::{Kind, Size, State};
use std::error::Error;
use std::fmt;

// A byte that marks no size, kind or state.
#[derive(Clone, Copy, PartialEq, Eq, Debug)]
pub struct UnknownMark {
    pub byte: u8,
}

impl fmt::Display for UnknownMark {
    ghost output = { λ mark. Some (unknown_text mark.byte) };

    fn fmt<W: fmt::Write>(&self, f: &mut fmt::Formatter<W>) -> fmt::Result {
        write!(f, "no size, kind or state has the mark {}", self.byte)
    }
}

impl Error for UnknownMark {}

impl From<Size> for u8 {
    ghost from_gives = { λ size b. b ≡ size_letter size };

    fn from(size: Size) -> u8 {
        match size {
            Size::Small => b'S',
            Size::Large => b'L',
        }
    }
}

impl TryFrom<u8> for Size {
    type Error = UnknownMark;

    ghost try_from_gives = { λ b r. r ≡ ok_or (size_of b) (record { byte = b }) };

    fn try_from(byte: u8) -> Result<Size, UnknownMark> {
        match byte as char {
            'S' => Ok(Size::Small),
            'L' => Ok(Size::Large),
            _ => Err(UnknownMark { byte }),
        }
    }
}

impl fmt::Display for Size {
    ghost output = { λ size. Some (size_text size) };

    fn fmt<W: fmt::Write>(&self, f: &mut fmt::Formatter<W>) -> fmt::Result {
        f.write_str(match self {
            Size::Small => "S",
            Size::Large => "L",
        })
    }
}

impl From<Kind> for u8 {
    ghost from_gives = { λ kind b. b ≡ kind_letter kind };

    fn from(kind: Kind) -> u8 {
        match kind {
            Kind::Member => b'M',
            Kind::Anchor => b'X',
        }
    }
}

impl TryFrom<u8> for Kind {
    type Error = UnknownMark;

    ghost try_from_gives = { λ b r. r ≡ ok_or (kind_of b) (record { byte = b }) };

    fn try_from(byte: u8) -> Result<Kind, UnknownMark> {
        match byte as char {
            'M' => Ok(Kind::Member),
            'X' => Ok(Kind::Anchor),
            _ => Err(UnknownMark { byte }),
        }
    }
}

impl fmt::Display for Kind {
    ghost output = { λ kind. Some (kind_text kind) };

    fn fmt<W: fmt::Write>(&self, f: &mut fmt::Formatter<W>) -> fmt::Result {
        f.write_str(match self {
            Kind::Member => "M",
            Kind::Anchor => "X",
        })
    }
}

impl From<State> for u8 {
    ghost from_gives = { λ state b. b ≡ state_number state };

    fn from(state: State) -> u8 {
        match state {
            State::Open => 1,
            State::Closed => 2,
        }
    }
}

impl TryFrom<u8> for State {
    type Error = UnknownMark;

    ghost try_from_gives = { λ b r. r ≡ ok_or (state_of b) (record { byte = b }) };

    fn try_from(byte: u8) -> Result<State, UnknownMark> {
        match byte {
            1 => Ok(State::Open),
            2 => Ok(State::Closed),
            _ => Err(UnknownMark { byte }),
        }
    }
}

impl fmt::Display for State {
    ghost output = { λ state. Some (state_text state) };

    fn fmt<W: fmt::Write>(&self, f: &mut fmt::Formatter<W>) -> fmt::Result {
        f.write_str(match self {
            State::Open => "open",
            State::Closed => "closed",
        })
    }
}
