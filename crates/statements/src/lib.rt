//! Statement rows at work: each says where the sheet goes on, or tells its fault, and changes only what it means to change.
#![tactic(auto)]

pub mod conditions;
pub mod control;
pub mod each;
pub mod returns;
pub mod settle;
pub mod streams;
