//! Records to build books from.
use accounts::record::{Kind, Record, Size, State};

// A small member's record in range.
pub(crate) fn small(account: u64) -> Record {
    Record {
        account,
        percentage: 10_000,
        savings: 1_000,
        class: 2,
        ..Record::default()
    }
}

// Every number at the top of its range.
pub(crate) fn largest() -> Record {
    Record {
        account: 99_999_999_999,
        percentage: 100_000,
        savings: 9_800,
        class: 16,
        size: Size::Large,
        kind: Kind::Anchor,
        state: State::Closed,
        held: 1_000_000_000_000,
        last: 1_200,
    }
}
