//! What every refusal tells: a fixed number, a place, and a reason as its text.

ghost use Rattle.std.specs.Prelude.{◌≡◌, ℕ, Bool, List, Some};

use std::fmt::Display;

/// A refusal that is known by a number.
pub trait Numbered: Display {
    ghost number: { Self → ℕ };

    ghost place: { Self → ℕ };

    // whether it names a place
    ghost names_place: { Self → Bool };

    // why, in words
    ghost reason: { Self → List ℕ };

    /// The number under which the refusal is known.
    fn number(&self) -> u8
        ensures { result ≡ number self.now };

    /// The place of the line, pair, record or rate at fault, counted from 0; 0 where none is told.
    fn place(&self) -> usize
        ensures { result ≡ place self.now };

    /// Whether the refusal is about a place; where not, its place is 0.
    fn names_place(&self) -> bool
        ensures { result ≡ names_place self.now };

    // what it prints is its reason
    ghost spoken: { (x : Self) → Self.output x ≡ Some (reason x) };
}
