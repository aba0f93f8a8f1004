//! The lines of the host's report, and how amounts are written.

mod amounts;
mod lines;
