//! When the lines of a request are enrolled.
ghost use Rattle.std.specs.Prelude.{◌≡◌, ◌≤◌, ◌==◌, not, [], length, sum_by};
ghost use Rattle.std.specs.List.{list_any, position_from};
ghost use Rattle.base.specs.Limits.{most_lines};
ghost use Rattle.accounts.specs.Ranges.{line_in_range};
ghost use Rattle.ledger.specs.Lines.{line_accounts, repeated_from, large_percentage, is_new, names_closed, new_accounts, first_closed};

use accounts::book::AccountBook;
use accounts::entries::find_entry;
use accounts::record::{Line, Size, State};

// The place of the first line with a value out of range.
pub(crate) fn first_out_of_range(lines: &[Line]) -> Option<usize>
    ensures { result ≡ position_from (λ l. not (line_in_range l)) 0 lines.now }
{
    lines.iter().position(|line| !line.in_range())
}

// The place of the first line whose account stands on an earlier one.
pub(crate) fn first_repeated(lines: &[Line]) -> Option<usize>
    ensures { result ≡ repeated_from 0 [] (line_accounts lines.now) }
{
    lines
        .iter()
        .enumerate()
        .position(|(i, line)| stands_on(&lines[..i], line.account))
}

// The place of the first line of an account.
fn place_on(lines: &[Line], account: u64) -> Option<usize>
    ensures { result ≡ position_from (λ l. l.account == account) 0 lines.now }
{
    lines.iter().position(|line| line.account == account)
}

// Whether an account stands on one of some lines.
#[tactic(auto, using(crate::proofs::Scanning::found_any))]
fn stands_on(lines: &[Line], account: u64) -> bool
    ensures { result ≡ list_any (λ l. l.account == account) lines.now }
{
    // by its place, since a search for a place takes fewer steps a line than `any`
    place_on(lines, account).is_some()
}

// A line's percentage, if its size is large.
fn large_percentage(line: &Line) -> u32
    ensures { result ≡ large_percentage line.now }
{
    match line.size {
        Size::Small => 0,
        Size::Large => line.percentage,
    }
}

// The percentages of some lines together: of all, and of those of large size.
#[derive(Clone, Copy)]
pub(crate) struct Sums {
    pub(crate) all: u64,
    pub(crate) large: u64,
}

pub(crate) fn percentages(lines: &[Line]) -> Sums
    requires { length lines.now ≤ most_lines }
    ensures all { result.all ≡ sum_by (λ l. l.percentage) lines.now }
    ensures large { result.large ≡ sum_by large_percentage lines.now }
{
    Sums {
        all: lines.iter().map(|line| u64::from(line.percentage)).sum(),
        large: lines
            .iter()
            .map(|line| u64::from(large_percentage(line)))
            .sum(),
    }
}

// The place of the first line of a closed account.
pub(crate) fn first_closed<B: AccountBook>(book: &B, lines: &[Line]) -> Option<usize>
    ensures { B.sound book.now → result ≡ first_closed (B.contents book.now).records lines.now }
{
    lines.iter().position(|line| is_closed(book, line))
}

// Whether a line's account is closed.
fn is_closed<B: AccountBook>(book: &B, line: &Line) -> bool
    ensures { B.sound book.now → result ≡ names_closed (B.contents book.now).records line.now }
{
    find_entry(book, line.account).is_some_and(|entry| entry.holder.state == State::Closed)
}

// How many lines are of accounts that the book lacks.
pub(crate) fn new_accounts<B: AccountBook>(book: &B, lines: &[Line]) -> usize
    ensures value { B.sound book.now → result ≡ new_accounts (B.contents book.now).records lines.now }
    ensures bound { result ≤ length lines.now }
{
    lines.iter().filter(|line| is_new(book, line)).count()
}

// Whether the book lacks a line's account.
#[tactic(auto, using(accounts::proofs::Finding::found_present))]
fn is_new<B: AccountBook>(book: &B, line: &Line) -> bool
    ensures { B.sound book.now → result ≡ is_new (B.contents book.now).records line.now }
{
    book.search(line.account).is_none()
}
