//! Request files, by which a host asks for allocations: reading one into a lent table or an owned list, asking an
//! opened one for a line or a remark by its place, and packing lines into one.
#![tactic(auto)]

pub mod fault;
mod field;
pub mod file;
pub mod filed;
pub mod limits;
mod lines;
mod pack;
pub mod packing;
mod pairs;
pub mod reader;
pub mod remark;
mod text;
pub mod writer;
