//! Postings, calls and a history worked by hand, shown of the definitions that the ledger's calls and the law are made of.
ghost use Rattle.std.specs.Prelude.{◌≡◌, Err, Vec};
ghost use Rattle.std.specs.declared.alloc.Global.{Global};
ghost use Rattle.accounts.specs.declared.record.Line.{Line};
ghost use Rattle.ledger.specs.Steps.{posting};
ghost use Rattle.ledger_run.specs.Histories.{used_by};
ghost use Rattle.ledger_run.specs.WorkedChecks.{WorkedChecks, several};
ghost use Rattle.ledger_run.specs.WorkedHistory.{WorkedHistory, worked};
ghost use Rattle.ledger_run.specs.WorkedPostings.{WorkedPostings, member, rated};

use ledger::answer::Posting;
use ledger::refusal::Refusal;

/// The twelve worked postings hold. The answer is one of them: a member with a savings rate of 10 percent who holds 681
/// kilowatt-hours at 10.946 cents is billed 200 dollars.
#[tactic(auto, unfolding(crediting::specs::Credits::applied_credit, crediting::specs::Credits::units_used, crediting::specs::Credits::smallest))]
pub fn worked_postings() -> Posting
    ensures cases { WorkedPostings }
    ensures value { result ≡ posting (rated 109460) (member 1000 681) 20000 }
{
    Posting {
        applied: 7_454,
        used: 681,
        net: 745,
        fee: 6_709,
    }
}

/// The worked calls are answered as by hand, at the edges of their ranges and where more than one check fails, and leave
/// what was found by hand. The answer is that to a request with several faults: a line out of range is told first.
pub fn worked_checks() -> Refusal
    ensures checks { WorkedChecks }
    ensures value { Err result ≡ several }
{
    Refusal::LineOutOfRange { place: 2 }
}

/// The worked history says of each account what was found by hand. The answer is what the bills of one account used, its
/// final bill among them.
#[tactic(auto, unfolding(crate::specs::Histories::used_by))]
pub fn worked_history() -> u64
    ensures history { WorkedHistory }
    ensures value { (first second : Vec Line Global) → result ≡ used_by 1 (worked first second) }
{
    150
}
