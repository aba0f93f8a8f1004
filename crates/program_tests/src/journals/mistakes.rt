//! Whole journals: how many statements they have, or where they are refused and what was expected there.
use journal::order::read_head;
use journal::text::read_journal;
use std::alloc::Global;
use std::process::Abort;
use std::test::Fail;

// What is wrong with a journal: nothing, or its mistake in words.
fn mistake_of(text: &[u8], heap: Global) -> Result<String, Fail> {
    let journal = match read_journal(text, heap) {
        Ok(journal) => journal,
        Err(why) => return Ok(why.to_string(heap)?),
    };
    match read_head(
        journal.statements.as_slice(),
        journal.lines.saturating_add(1),
    ) {
        Ok(_) => Ok(String::new(heap)),
        Err(mistake) => Ok(mistake.to_string(heap)?),
    }
}

fn refused(rt: &impl Abort, heap: Global, text: &str, mistake: &str) -> Result<(), Fail> {
    let found = mistake_of(text.as_bytes(), heap)?;
    assert_eq!(rt; found.as_str(), mistake, "{}", text);
    Ok(())
}

// The statements of a text, by the lines on which they stand.
fn stands_on(
    rt: &impl Abort,
    heap: Global,
    text: &[u8],
    lines: usize,
    places: &[usize],
) -> Result<(), Fail> {
    let journal = read_journal(text, heap)?;
    assert_eq!(rt; journal.lines, lines);
    assert_eq!(rt; journal.statements.len(), places.len());
    for (stated, place) in journal.statements.iter().zip(places) {
        assert_eq!(rt; stated.line, *place);
    }
    Ok(())
}

#[test]
fn lines_of_a_text(rt: HostRuntime) -> Result<(), Fail> {
    let heap = rt.alloc();
    stands_on(&rt, heap, b"", 0, &[])?;
    stands_on(&rt, heap, b"\n", 1, &[])?;
    stands_on(&rt, heap, b"close", 1, &[1])?;
    stands_on(&rt, heap, b"close\n", 1, &[1])?;
    stands_on(&rt, heap, b"close\r\nlapse\r\n", 2, &[1, 2])?;
    stands_on(&rt, heap, b"\n# remark\n\n  close  \nlapse", 5, &[4, 5])?;
    stands_on(&rt, heap, b"# \xff no text\nclose", 2, &[2])
}

#[test]
fn journals_in_order(rt: HostRuntime) -> Result<(), Fail> {
    let heap = rt.alloc();
    refused(
        &rt,
        heap,
        "method volumetric\nbook table 3\nopen 1 farm",
        "",
    )?;
    refused(
        &rt,
        heap,
        "# a\n\nmethod value-stack\n# b\nbook image 40\nopen 10 plain\n\nclose\n",
        "",
    )
}

#[test]
fn mistakes_of_order(rt: HostRuntime) -> Result<(), Fail> {
    let heap = rt.alloc();
    refused(
        &rt,
        heap,
        "",
        "journal line 1: expected the method as the first statement",
    )?;
    refused(
        &rt,
        heap,
        "# nothing\n\n",
        "journal line 3: expected the method as the first statement",
    )?;
    refused(
        &rt,
        heap,
        "book table 3\nmethod volumetric\n",
        "journal line 1: expected the method as the first statement",
    )?;
    refused(
        &rt,
        heap,
        "method volumetric\nopen 1 farm\n",
        "journal line 2: expected the book as the second statement",
    )?;
    refused(
        &rt,
        heap,
        "method volumetric\nbook table 3\n",
        "journal line 3: expected the opening as the third statement",
    )?;
    refused(
        &rt,
        heap,
        "method volumetric\nbook table 3\nclose\nopen 1 farm\n",
        "journal line 3: expected the opening as the third statement",
    )?;
    refused(
        &rt,
        heap,
        "method volumetric\nbook table 3\nopen 1 farm\nclose\nmethod volumetric\n",
        "journal line 5: expected no second method, book or opening",
    )?;
    refused(
        &rt,
        heap,
        "method volumetric\nbook table 3\nopen 1 farm\nopen 1 farm\n",
        "journal line 4: expected no second method, book or opening",
    )
}

#[test]
fn mistakes_of_form(rt: HostRuntime) -> Result<(), Fail> {
    let heap = rt.alloc();
    refused(
        &rt,
        heap,
        "method volumetric\nbook table 3\nopen 1 farm\n\n# the bill\nbill 20010000001\nfinal\n",
        "journal line 6: expected cents, in digits",
    )?;
    refused(
        &rt,
        heap,
        "method net\n",
        "journal line 1: expected value-stack or volumetric",
    )?;
    refused(
        &rt,
        heap,
        "\nmethod volumetric now\n",
        "journal line 2: expected the end of the line",
    )?;
    refused(
        &rt,
        heap,
        "book shelf 3\n",
        "journal line 1: expected table or image",
    )?;
    refused(
        &rt,
        heap,
        "book table three\n",
        "journal line 1: expected the places of the table, in digits",
    )?;
    refused(
        &rt,
        heap,
        "open 1 plane\n",
        "journal line 1: expected plain or farm",
    )?;
    refused(
        &rt,
        heap,
        "rates 1 2 x\n",
        "journal line 1: expected a rate, in digits",
    )?;
    refused(
        &rt,
        heap,
        "line 1 2 3 4 S A\n",
        "journal line 1: expected M or X",
    )?;
    refused(
        &rt,
        heap,
        "reading -5\n",
        "journal line 1: expected units, in digits",
    )?;
    refused(
        &rt,
        heap,
        "close\nenroll\n",
        "journal line 2: expected a statement: method, book, open, rates, line, request, enrol, reading, bill, final, disburse, lapse or close",
    )?;
    // a line that cannot be understood is told ahead of the order of the others
    refused(
        &rt,
        heap,
        "close\nbill x 1\n",
        "journal line 2: expected an account, in digits",
    )
}
