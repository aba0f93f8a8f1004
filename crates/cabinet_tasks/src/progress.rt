//! Tells people how far a long task is.
use std::io::Eprint;
use std::time::{Clock, Instant};

/// How long a task has run, on a runtime's clock, and where it tells how far it is.
#[derive(Drop)]
pub struct Progress<'a, R> {
    pub(crate) rt: &'a R,
    start: Instant,
    /// The second, counted from the start, in which something was told last.
    last: u64,
}

impl<'a, R: Clock + Eprint> Progress<'a, R> {
    /// Starts now.
    pub fn start(rt: &'a R) -> anyhow::Result<Progress<'a, R>> {
        let start = Instant::now(rt)?;
        Ok(Progress { rt, start, last: 0 })
    }

    /// Tells on standard error how many things were done, as `cabinet: 12 lines are read`: at most once in a second, and
    /// not within the first.
    pub fn tell(&mut self, count: usize, what: &str) -> anyhow::Result<()> {
        let seconds = self.start.elapsed(self.rt)?.as_secs();
        if seconds > self.last {
            self.last = seconds;
            eprintln!(self.rt; "cabinet: {count} {what}")?;
        }
        Ok(())
    }
}
