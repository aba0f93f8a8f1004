//! What a statement answers: at once, or as its call.
ghost use Rattle.std.specs.Prelude.{◌≡◌};
ghost use Rattle.desk.specs.Deeds.{note_of};

use crediting::rates::RatesRefusal;
use ledger::call::Call;
use requests::fault::RequestRefusal;

/// A statement that answers. Rates and request files are answered at once, the others by the ledger.
#[derive(Clone, Copy, PartialEq, Eq, Debug)]
pub enum Note {
    /// Rates are set, or why they are refused.
    Rates(Result<(), RatesRefusal>),
    /// How many lines a request file has, or why it is refused.
    Request(Result<usize, RequestRefusal>),
    Enrol,
    Reading,
    Bill,
    Final,
    Disburse,
    Lapse,
    Close,
}

impl<M> From<&Call<M>> for Note {
    ghost from_gives = { λ call note. note ≡ note_of call.now };

    fn from(call: &Call<M>) -> Note {
        match call {
            Call::Enrol(_) => Note::Enrol,
            Call::Reading(_) => Note::Reading,
            Call::Bill { .. } => Note::Bill,
            Call::FinalBill { .. } => Note::Final,
            Call::Disburse { .. } => Note::Disburse,
            Call::Lapse => Note::Lapse,
            Call::Close => Note::Close,
        }
    }
}
