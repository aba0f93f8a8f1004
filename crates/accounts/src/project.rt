// What a ledger is opened for.

// A project: the smallest number of lines that a request may have, 10 or, of an exempt project, 1; and the farm mark,
// with which satellites of large size may have more than 40 percent together.
#[derive(Clone, Copy, PartialEq, Eq, Debug)]
pub struct Project {
    pub smallest: u32,
    pub farm: bool,
}
