//! What the ledger answers on a book that is not proper, of which no contract speaks: a record out of range is another
//! ledger's, and an account that is lacking is none.
ghost use Rattle.std.specs.Prelude.{[]};

use accounts::book::AccountBook;
use accounts::project::Project;
use accounts::record::Record;
use crediting::value_stack::ValueStack;
use ledger::call::Call;
use ledger::ledger::Ledger;
use ledger::refusal::Refusal;
use std::process::Abort;
use std::test::Fail;

// An account of a record whose class and savings rate are 0.
const OUT_OF_RANGE: u64 = 1;

// No account of the book.
const LACKING: u64 = 2;

// A book that never says that it is proper: none, or one record, which is out of range.
#[derive(Drop)]
struct Improper {
    count: usize,
}

impl AccountBook for Improper {
    ghost contents = { λ b. record { records = []; room = 0; side = []; loans = [] } };

    ghost sound = { λ b. ⊥ };

    ghost same_rest = { λ a b. Unit {0} };

    ghost proper = { λ b s. absurd s };

    ghost rest_stays = { λ b. tt };

    ghost rest_follows = { λ a b c h k. tt };

    fn count(&self) -> usize {
        self.count
    }

    fn capacity(&self) -> usize {
        1
    }

    fn get(&self, place: usize) -> Option<Record> {
        (place < self.count).then(|| Record {
            account: OUT_OF_RANGE,
            ..Record::default()
        })
    }

    fn search(&self, account: u64) -> Option<usize> {
        (self.count > 0 && account == OUT_OF_RANGE).then(|| 0)
    }

    fn add(&mut self, _new: Record) -> bool {
        false
    }

    fn replace(&mut self, _place: usize, _new: Record) -> bool {
        false
    }
}

// A call on a book is declined for this reason.
fn declined(
    rt: &impl Abort,
    ledger: &mut Ledger,
    book: &mut Improper,
    call: &Call<ValueStack>,
    why: Refusal,
) {
    assert_eq!(rt; ledger.perform(book, call).err(), Some(why));
}

// A bill of an account.
fn bill(account: u64) -> Call<ValueStack> {
    Call::Bill {
        method: ValueStack,
        account,
        cents: 1,
    }
}

// A final bill of an account.
fn final_bill(account: u64) -> Call<ValueStack> {
    Call::FinalBill {
        method: ValueStack,
        account,
        cents: 1,
    }
}

// A disbursement to an account.
fn disbursement(account: u64) -> Call<ValueStack> {
    Call::Disburse { account, units: 1 }
}

#[test]
fn records_out_of_range(rt: HostRuntime) -> Result<(), Fail> {
    let mut ledger = Ledger::new();
    let mut empty = Improper { count: 0 };
    let mut book = Improper { count: 1 };
    let project = Project {
        smallest: 1,
        farm: true,
    };
    assert!(rt; ledger.open(project, &empty).is_ok());
    let reading = Call::Reading(5);
    declined(&rt, &mut ledger, &mut book, &reading, Refusal::ForeignBook);
    assert!(rt; ledger.perform(&mut empty, &reading).is_ok());
    for call in [bill(OUT_OF_RANGE), final_bill(OUT_OF_RANGE)] {
        declined(&rt, &mut ledger, &mut book, &call, Refusal::ForeignBook);
    }
    for call in [bill(LACKING), final_bill(LACKING)] {
        declined(&rt, &mut ledger, &mut book, &call, Refusal::NoOpenAccount);
    }
    assert!(rt;
        ledger
            .perform(&mut empty, &Call::<ValueStack>::Close)
            .is_ok()
    );
    let out_of_range = disbursement(OUT_OF_RANGE);
    declined(
        &rt,
        &mut ledger,
        &mut book,
        &out_of_range,
        Refusal::ForeignBook,
    );
    let lacking = disbursement(LACKING);
    declined(
        &rt,
        &mut ledger,
        &mut book,
        &lacking,
        Refusal::NoOpenAccount,
    );
    Ok(())
}
