//! Crediting methods: what a satellite's units are worth in cents, and how much of a bill they pay.
#![tactic(auto)]

pub mod credit;
pub mod limits;
pub mod method;
pub mod rates;
pub mod value_stack;
pub mod volumetric;
