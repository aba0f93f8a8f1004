//! How dollars and percentages are written.
use base::amount::{Decimal, Dollars, Percent};
use std::test::Fail;

#[test]
fn dollars(rt: HostRuntime) -> Result<(), Fail> {
    let heap = rt.alloc();
    for (cents, text) in [
        (0, "0.00"),
        (5, "0.05"),
        (99, "0.99"),
        (7_454, "74.54"),
        (100_000_000_000_000, "1000000000000.00"),
    ] {
        assert_eq!(rt; Dollars::from(cents).to_string(heap)?.as_str(), text);
    }
    Ok(())
}

#[test]
fn percentages(rt: HostRuntime) -> Result<(), Fail> {
    let heap = rt.alloc();
    for (thousandths, text) in [(5, "0.005"), (6_125, "6.125"), (100_000, "100.000")] {
        assert_eq!(rt; Percent::from(thousandths).to_string(heap)?.as_str(), text);
    }
    Ok(())
}

// One whole of the decimal does not fit 128 bits.
#[test]
fn many_decimals(rt: HostRuntime) -> Result<(), Fail> {
    assert_eq!(rt;
        Decimal::<39>(u128::MAX).to_string(rt.alloc())?.as_str(),
        "0.340282366920938463463374607431768211455"
    );
    Ok(())
}
