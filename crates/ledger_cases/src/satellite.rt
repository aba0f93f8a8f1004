// A satellite's record.
use accounts::record::Record;

pub fn satellite(account: u64, percentage: u32, held: u64) -> Record {
    Record {
        account,
        percentage,
        savings: 1_000,
        class: 1,
        held,
        ..Record::default()
    }
}
