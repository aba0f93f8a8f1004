//! The count and the room of the book that an image makes.
ghost use Rattle.std.specs.Prelude.{◌≡◌};
ghost use Rattle.books.specs.Reading.{opened_count, opened_room, started, started_room, Reads};

use crate::checks::{check_start, opened_count};
use crate::layout;

/// How many records a book in an image has, and how many it has room for; none in an unfit image.
#[derive(Clone, Copy, Default)]
pub(crate) struct Extent {
    pub(crate) count: usize,
    pub(crate) room: usize,
}

impl Extent {
    ghost use Rattle.books.specs.Holding.{ComesBack};

    /// Writes a count of 0 into an image that is fit; an unfit image stays, with no room.
    pub(crate) fn start(image: &mut [u8]) -> Extent
        ensures image { image.new ≡ started image.old }
        ensures count { result.count ≡ 0 }
        ensures room { result.room ≡ started_room image.old }
        ensures reads { Reads image.new result.count result.room }
    {
        if check_start(image).is_err() {
            return Extent::default();
        }
        let room = layout::capacity(image);
        layout::put_count(image, 0);
        Extent { count: 0, room }
    }

    /// The count and the room of the book in an image.
    pub(crate) fn open(image: &[u8]) -> Extent
        ensures count { result.count ≡ opened_count image.now }
        ensures room { result.room ≡ opened_room image.now }
        ensures reads { Reads image.now result.count result.room }
        ensures again { ComesBack image.now result.count result.room }
    {
        opened_count(image)
            .map(|count| Extent {
                count,
                room: layout::capacity(image),
            })
            .unwrap_or_default()
    }
}
