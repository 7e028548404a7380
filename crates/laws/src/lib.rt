//! Laws of what rows mean, as theorems: what a row leaves of every other row, how long its value is, and that a checked row is never without a rule.
#![tactic(auto)]

mod theorems;

pub use theorems::{
    accepted_rows_are_safe, checked_rows_are_safe, effects_stand, values_are_whole,
};
