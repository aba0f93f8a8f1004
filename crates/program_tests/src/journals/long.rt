//! A journal of over a megabyte is read whole, and every bill of it becomes a call.
use crediting::value_stack::ValueStack;
use desk::plan::Plan;
use journal::text::read_journal;
use std::test::Fail;

const BILLS: usize = 60_000;

#[test]
fn sixty_thousand_bills(rt: HostRuntime) -> Result<(), Fail> {
    let heap = rt.alloc();
    let mut text = Vec::from_slice(heap, b"method value-stack\nbook table 1\nopen 1 plain\n")?;
    for _ in 0..BILLS {
        text.extend_from_slice(b"bill 20010000001 100\n")?;
    }
    assert!(rt; text.len() > 1_000_000);
    let journal = read_journal(text.as_slice(), heap)?;
    assert_eq!(rt; journal.lines, BILLS + 3);
    assert_eq!(rt; journal.statements.len(), BILLS + 3);
    let plan: Plan<ValueStack> = Plan::of_statements(journal.statements.as_slice(), heap)?;
    assert_eq!(rt; plan.calls.len(), BILLS);
    assert_eq!(rt; plan.notes.len(), BILLS);
    Ok(())
}
