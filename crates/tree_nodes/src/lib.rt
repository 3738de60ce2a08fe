// One node of the cache tree. Every fault is refusal 15, so the answers have no number.

#![tactic(auto)]

pub mod node;
pub mod number;
pub mod passes;
