//! Posts two months of a small project through a run, with each crediting method and in each kind of book, and prints
//! every answer, the ledger and the accounts.
#![tactic(auto)]

use accounts::book::AccountBook;
use accounts::project::Project;
use accounts::record::{Kind, Line, Record, Size};
use anyhow::anyhow;
use books::image::ImageBook;
use books::table::TableBook;
use crediting::method::CreditMethod;
use crediting::value_stack::ValueStack;
use crediting::volumetric::Volumetric;
use desk::answers::answer_line;
use desk::book_lines::{account_line, ledger_line};
use desk::log::word;
use desk::note::Note;
use desk::refusal::refusal_line;
use ledger::answer::Done;
use ledger::call::Call;
use ledger::ledger::Ledger;
use ledger::refusal::Refusal;
use ledger_run::refusal::RunRefusal;
use ledger_run::run::run;
use std::alloc::{AllocError, Global};

const SHOP: u64 = 20_010_000_001;

const FLAT: u64 = 20_010_000_002;

const MILL: u64 = 20_010_000_003;

/// An exempt project: requests of any number of lines.
const EXEMPT: Project = Project {
    smallest: 1,
    farm: false,
};

/// A line of a satellite that saves 10 percent.
fn line(account: u64, percentage: u32, kind: Kind) -> Line {
    Line {
        account,
        percentage,
        savings: 1_000,
        class: 2,
        size: Size::Small,
        kind,
    }
}

/// Two members and an anchor.
fn request(heap: Global) -> Result<Vec<Line>, AllocError> {
    let lines = [
        line(SHOP, 40_000, Kind::Member),
        line(FLAT, 35_500, Kind::Member),
        line(MILL, 20_000, Kind::Anchor),
    ];
    lines.to_vec(heap)
}

/// A bill of an account.
fn bill<M>(method: M, account: u64, cents: u64) -> Call<M> {
    Call::Bill {
        method,
        account,
        cents,
    }
}

/// The calls of the first month: an account is billed twice over.
fn first_month<M: Copy>(
    calls: &mut Vec<Call<M>>,
    method: M,
    heap: Global,
) -> Result<(), AllocError> {
    calls.push(Call::Enrol(request(heap)?))?;
    calls.push(Call::Reading(1_003))?;
    calls.push(bill(method, SHOP, 20_000))?;
    calls.push(bill(method, FLAT, 300))?;
    calls.push(bill(method, MILL, 777))?;
    calls.push(bill(method, SHOP, 1))?;
    calls.push(Call::Close)?;
    Ok(())
}

/// The calls of the second month: ahead of it units are disbursed and the rest of the bank lapses; in it the anchor
/// leaves.
fn second_month<M: Copy>(calls: &mut Vec<Call<M>>, method: M) -> Result<(), AllocError> {
    calls.push(Call::Disburse {
        account: FLAT,
        units: 30,
    })?;
    calls.push(Call::Lapse)?;
    calls.push(Call::Reading(500))?;
    calls.push(bill(method, FLAT, 100_000))?;
    calls.push(Call::FinalBill {
        method,
        account: MILL,
        cents: 9,
    })?;
    calls.push(Call::Close)?;
    calls.push(Call::Close)?;
    Ok(())
}

/// The line of each call's answer.
fn print_answers<M>(
    rt: &HostRuntime,
    calls: &[Call<M>],
    answers: &[Result<Done, Refusal>],
) -> anyhow::Result<()> {
    for (call, answer) in calls.iter().zip(answers) {
        let text = answer_line(word(Note::from(call)), *answer, rt.alloc())?;
        println!(rt; "{text}")?;
    }
    Ok(())
}

/// The line of each account.
fn print_accounts<B: AccountBook>(rt: &HostRuntime, book: &B) -> anyhow::Result<()> {
    for record in (0..book.count()).filter_map(|place| book.get(place)) {
        let text = account_line(record, rt.alloc())?;
        println!(rt; "{text}")?;
    }
    Ok(())
}

/// Posts both months in an empty book.
fn post<M: CreditMethod + Copy, B: AccountBook>(
    rt: &HostRuntime,
    method: M,
    book: &mut B,
) -> anyhow::Result<()> {
    let heap = rt.alloc();
    let mut calls = Vec::new(heap);
    first_month(&mut calls, method, heap)?;
    second_month(&mut calls, method)?;
    let mut ledger = Ledger::new();
    match run(&mut ledger, EXEMPT, book, &calls, heap) {
        Ok(answers) => print_answers(rt, &calls, &answers)?,
        Err(RunRefusal::NotOpened(why)) => {
            let text = refusal_line("open", &why, heap)?;
            println!(rt; "{text}")?;
        }
        Err(RunRefusal::NoMemory) => return Err(anyhow!("no memory for the answers")),
    }
    let text = ledger_line(ledger.phase(), ledger.closed_periods(), ledger.bank(), heap)?;
    println!(rt; "{text}")?;
    print_accounts(rt, book)
}

/// Posts both months in a table and in an image.
fn post_both<M: CreditMethod + Copy>(
    rt: &HostRuntime,
    title: &str,
    method: M,
) -> anyhow::Result<()> {
    println!(rt; "# {title}, table")?;
    let mut table = [Record::default(); 4];
    post(rt, method, &mut TableBook::new(&mut table))?;
    println!(rt; "# {title}, image")?;
    let mut image = [0u8; 112];
    post(rt, method, &mut ImageBook::start(&mut image))
}

// volumetric at 10.946 cents for every class
fn main(rt: HostRuntime) -> anyhow::Result<()> {
    post_both(&rt, "Value Stack", ValueStack)?;
    let mut method = Volumetric::new();
    method.set_rates(&[109_460; 16])?;
    post_both(&rt, "volumetric", method)
}
