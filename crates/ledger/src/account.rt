//! The record of an account that is open.
ghost use Rattle.ledger.specs.Accepting.{OpenAccount};

use super::refusal::Refusal;
use accounts::book::AccountBook;
use accounts::entries::entry_at;
use accounts::entry::Entry;
use accounts::record::State;

/// The record of an open account and its place, or that there is no open account of this number. A record out of range,
/// which no proper book has, is another ledger's.
#[tactic(auto, using(accounts::proofs::Locating::missing))]
pub(crate) fn open_entry<B: AccountBook>(book: &B, account: u64) -> Result<Entry, Refusal>
    ensures { B.sound book.now → OpenAccount (B.contents book.now).records account result }
{
    let place = book.search(account).ok_or(Refusal::NoOpenAccount)?;
    let entry = entry_at(book, place).ok_or(Refusal::ForeignBook)?;
    match entry.holder.state {
        State::Open => Ok(entry),
        State::Closed => Err(Refusal::NoOpenAccount),
    }
}
