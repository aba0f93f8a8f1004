//! What the cabinet does: posts journals, prints the host's monthly report, packs and shows request files.
#![tactic(auto)]

pub mod arguments;
pub mod ending;
pub mod failure;
pub mod files;
pub mod help;
mod journals;
pub mod log;
pub mod monthly;
pub mod posting;
pub mod printout;
pub mod progress;
