//! What is printed of a journal.
use crate::progress::Progress;
use accounts::book::AccountBook;
use accounts::project::Project;
use crediting::method::CreditMethod;
use desk::plan::Plan;

/// A way to print what came of a journal.
pub trait Printout {
    /// Posts the calls of a plan in an empty book, by any method, and prints what came of them.
    fn print<M: CreditMethod + Drop, B: AccountBook>(
        &self,
        progress: &mut Progress<HostRuntime>,
        project: Project,
        book: &mut B,
        plan: &Plan<M>,
    ) -> anyhow::Result<()>;
}
