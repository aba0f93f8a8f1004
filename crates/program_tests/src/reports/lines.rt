//! Tests of the report's lines, each at numbers as large as a period can have.
use ledger::answer::Settlement;
use report::payment::ITEMS;
use report::row::Row;
use report::table::{Bank, bank_line, row_line, satellites_line};
use std::test::Fail;

// 4,096 bills of the largest size are paid in full, 3,000 of them members', who save 10 percent.
#[test]
fn payment(rt: HostRuntime) -> Result<(), Fail> {
    let settlement = Settlement {
        applied: 3_000_000_000_000,
        fees: 2_700_000_000_000,
        utility: 45_000_000_000,
        payment: 2_655_000_000_000,
    };
    let lines = [
        "Credit applied to satellites                        40960000000.00",
        "  less that of excluded anchors, without fee        10960000000.00",
        "Credit applied to members                           30000000000.00",
        "  less their net credit                              3000000000.00",
        "Subscription fees                                   27000000000.00",
        "  less utility fee, 1.5 percent of members' credit    450000000.00",
        "Paid to the host                                    26550000000.00",
    ];
    for (item, line) in ITEMS.iter().zip(lines) {
        let printed = item.line(4_096_000_000_000, &settlement, rt.alloc())?;
        assert_eq!(rt; printed.as_str(), line);
    }
    Ok(())
}

// The largest reading makes one satellite's units the most that an account may hold; another has the smallest
// percentage.
#[test]
fn summary(rt: HostRuntime) -> Result<(), Fail> {
    let heap = rt.alloc();
    let most = Row {
        account: 99_999_999_999,
        percentage: 99_999,
        carried: 990_000_100_000,
        share: 9_999_900_000,
        applied: 1_000_000_000,
        left: 999_000_000_000,
        forfeited: 0,
    };
    let least = Row {
        account: 1,
        percentage: 1,
        carried: 0,
        share: 100_000,
        applied: 0,
        left: 100_000,
        forfeited: 0,
    };
    let bank = Bank {
        before: 999_999_999_999,
        after: 1_000_000_000_000,
    };
    assert_eq!(rt;
        row_line(&most, heap)?.as_str(),
        "99999999999    99.999   990000100000     9999900000  1000000000000    10000000.00   999000000000"
    );
    assert_eq!(rt;
        row_line(&least, heap)?.as_str(),
        "          1     0.001              0         100000         100000           0.00         100000"
    );
    assert_eq!(rt;
        satellites_line(&[most, least], heap)?.as_str(),
        " Satellites   100.000   990000100000    10000000000  1000000100000    10000000.00   999000100000"
    );
    assert_eq!(rt;
        bank_line(bank, heap)?.as_str(),
        "  Host bank             999999999999              1  1000000000000           0.00  1000000000000"
    );
    Ok(())
}
