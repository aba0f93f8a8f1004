//! Tests of the crediting methods at the edges of every range.

use base::limits::MOST_UNITS;
use base::refusal::Numbered;
use crediting::credit::Credit;
use crediting::limits::MOST_WORTH;
use crediting::method::CreditMethod;
use crediting::rates::RatesRefusal;
use crediting::value_stack::ValueStack;
use crediting::volumetric::Volumetric;
use std::process::Abort;

// Rate 1 for class 1, 1,000,000 for class 2, and some between.
const RATES: [u32; 16] = [
    1, 1_000_000, 109_460, 4_000, 500_000, 1, 1, 1, 1, 1, 1, 1, 1, 1, 1, 109_015,
];

// Class, units, bill, and the applied credit and units used to expect.
type Case = (u8, u64, u64, u64, u64);

const VOLUMETRIC: [Case; 29] = [
    (1, 0, 0, 0, 0),
    (1, 0, 1_000_000_000, 0, 0),
    (1, 1, 1, 0, 0),
    (1, 9_999, 1_000_000_000, 0, 0),
    (1, 10_000, 1_000_000_000, 1, 10_000),
    (1, 20_000, 900, 2, 20_000),
    (
        1,
        1_000_000_000_000,
        1_000_000_000,
        100_000_000,
        1_000_000_000_000,
    ),
    (
        1,
        1_000_000_000_000,
        99_999_999,
        99_999_999,
        999_999_990_000,
    ),
    (1, 1_000_000_000_000, 1_000_000_001, 0, 0),
    (1, 1_000_000_000_001, 1_000_000_000, 0, 0),
    (2, 0, 1_000_000_000, 0, 0),
    (2, 1, 99, 99, 1),
    (2, 1, 100, 100, 1),
    (2, 1, 101, 100, 1),
    (2, 1_000_000_000_000, 0, 0, 0),
    (2, 1_000_000_000_000, 1, 1, 1),
    (
        2,
        1_000_000_000_000,
        1_000_000_000,
        1_000_000_000,
        10_000_000,
    ),
    (2, 1_000_000_000_000, 1_000_000_001, 0, 0),
    (2, 1_000_000_000_001, 1, 0, 0),
    (3, 681, 20_000, 7_454, 681),
    (3, 681, 5_000, 5_000, 457),
    (4, 2, 900, 0, 0),
    (4, 4, 900, 1, 3),
    (5, 4, 101, 101, 3),
    (16, 1_062, 20_000, 11_577, 1_062),
    (
        16,
        1_000_000_000_000,
        1_000_000_000,
        1_000_000_000,
        91_730_496,
    ),
    (0, 5, 5, 0, 0),
    (17, 5, 5, 0, 0),
    (255, 1_000_000_000_000, 1_000_000_000, 0, 0),
];

const VALUE_STACK: [Case; 11] = [
    (1, 0, 0, 0, 0),
    (1, 0, 1_000_000_000, 0, 0),
    (1, 1, 0, 0, 0),
    (1, 1, 1, 1, 1),
    (1, 5_000, 3_210, 3_210, 3_210),
    (
        1,
        1_000_000_000_000,
        1_000_000_000,
        1_000_000_000,
        1_000_000_000,
    ),
    (16, 1_000_000_000_000, 999_999_999, 999_999_999, 999_999_999),
    (16, 1_000_000_000_000, 1_000_000_001, 0, 0),
    (16, 1_000_000_000_001, 1_000_000_000, 0, 0),
    (0, 1, 1, 0, 0),
    (17, 1, 1, 0, 0),
];

// Class, units, and their worth in cents by the rates of `RATES` and by Value Stack.
const WORTHS: [(u8, u64, u64, u64); 11] = [
    (0, 5, 0, 0),
    (1, 0, 0, 0),
    (1, 9_999, 0, 9_999),
    (1, 10_000, 1, 10_000),
    (1, 1_000_000_000_000, 100_000_000, 1_000_000_000_000),
    (1, 1_000_000_000_001, 0, 0),
    (2, 1, 100, 1),
    (2, 1_000_000_000_000, 100_000_000_000_000, 1_000_000_000_000),
    (3, 681, 7_454, 681),
    (16, 1_000_000_000_000, 10_901_500_000_000, 1_000_000_000_000),
    (17, 5, 0, 0),
];

fn rated() -> Result<Volumetric, RatesRefusal> {
    let mut method = Volumetric::new();
    method.set_rates(&RATES)?;
    Ok(method)
}

fn check_credits<M: CreditMethod>(rt: &impl Abort, method: &M, cases: &[Case]) {
    for &(class, units, bill, applied, used) in cases {
        assert_eq!(rt; method.credit(class, units, bill), Credit { applied, used });
    }
}

#[test]
fn credits(rt: HostRuntime) -> Result<(), RatesRefusal> {
    check_credits(&rt, &rated()?, &VOLUMETRIC);
    check_credits(&rt, &ValueStack, &VALUE_STACK);
    Ok(())
}

#[test]
fn worths(rt: HostRuntime) -> Result<(), RatesRefusal> {
    let method = rated()?;
    for (class, units, volumetric, value_stack) in WORTHS {
        assert_eq!(rt; method.worth(class, units), volumetric);
        assert_eq!(rt; ValueStack.worth(class, units), value_stack);
    }
    assert_eq!(rt; method.worth(2, MOST_UNITS), MOST_WORTH);
    Ok(())
}

#[test]
fn rates(rt: HostRuntime) {
    let mut method = Volumetric::new();
    assert_eq!(rt; method.rate(0), None);
    assert_eq!(rt; method.rate(1), Some(1));
    assert_eq!(rt; method.rate(16), Some(1));
    assert_eq!(rt; method.rate(17), None);
    assert_eq!(rt; method.set_rates(&RATES), Ok(()));
    assert_eq!(rt; method.rate(2), Some(1_000_000));
    assert_eq!(rt; method.rate(16), Some(109_015));
}

#[test]
fn refused_rates(rt: HostRuntime) -> Result<(), RatesRefusal> {
    let mut method = rated()?;
    assert_eq!(rt; method.set_rates(&[]), Err(RatesRefusal::WrongCount));
    assert_eq!(rt;
        method.set_rates(&RATES[0..15]),
        Err(RatesRefusal::WrongCount)
    );
    assert_eq!(rt; method.set_rates(&[7; 17]), Err(RatesRefusal::WrongCount));
    let mut bad = [7; 16];
    bad[15] = 1_000_001;
    assert_eq!(rt;
        method.set_rates(&bad),
        Err(RatesRefusal::OutOfRange { place: 15 })
    );
    bad[4] = 0;
    assert_eq!(rt;
        method.set_rates(&bad),
        Err(RatesRefusal::OutOfRange { place: 4 })
    );
    assert_eq!(rt; RatesRefusal::OutOfRange { place: 4 }.number(), 8);
    assert_eq!(rt; RatesRefusal::OutOfRange { place: 4 }.place(), 4);
    assert_eq!(rt; RatesRefusal::WrongCount.number(), 8);
    assert_eq!(rt; RatesRefusal::WrongCount.place(), 0);
    assert_eq!(rt; method.rate(1), Some(1));
    assert_eq!(rt; method.rate(2), Some(1_000_000));
    assert_eq!(rt; method.rate(16), Some(109_015));
    Ok(())
}

fn mark_of<M: CreditMethod>(_: &M) -> u8 {
    M::MARK
}

#[test]
fn marks(rt: HostRuntime) {
    assert_eq!(rt; <ValueStack as CreditMethod>::MARK, b'C');
    assert_eq!(rt; <Volumetric as CreditMethod>::MARK, b'K');
    assert_eq!(rt; mark_of(&ValueStack), b'C');
    assert_eq!(rt; mark_of(&Volumetric::new()), b'K');
}
