//! The number that a word writes.
ghost use Rattle.std.specs.Prelude.{◌≡◌, ◌≤◌, IfSome};
ghost use Rattle.journal.specs.Numbers.{number_of};

/// The number that a word of digits writes, and `most` in the place of a larger one; none where the word is empty or a
/// byte of it is no digit.
#[tactic(auto, using(crate::proofs::Gathering::digits))]
pub fn number(word: &[u8], most: u64) -> Option<u64>
    ensures value { result ≡ number_of most word.now }
    ensures bound { IfSome result (λ n. n ≤ most) }
{
    if word.is_empty() {
        return None;
    }
    let mut n: u64 = 0;
    for b in word {
        if !b.is_ascii_digit() {
            return None;
        }
        n = n
            .saturating_mul(10)
            .saturating_add(u64::from(*b - b'0'))
            .min(most);
    }
    Some(n)
}
