// The rules that the checker and the filler share: sizes, what a row looks like and counters.
#![tactic(auto)]

pub mod columns;
pub mod counters;
pub mod sizes;
