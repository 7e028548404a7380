//! Operators and casts over the cells of lent tables, element by element, and products.
#![tactic(auto)]

pub mod binary;
pub mod casts;
pub mod infix;
pub mod prefix;
pub mod products;
pub mod rules;
pub mod sure;
pub mod unary;
pub mod values;
