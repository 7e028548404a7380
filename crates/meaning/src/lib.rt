//! What every row of a sheet means, on values; the slips that tell which values rows hold; and worked examples.
#![tactic(auto)]

mod after;
mod examples;
mod guards;
mod layouts;
mod lookup;
mod places;
mod sizes;
mod slips;

pub use after::After;
pub use examples::worked_examples;
pub use layouts::Layout;
pub use lookup::layout_at;
pub use places::Place;
pub use slips::Slip;
