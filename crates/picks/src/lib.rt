//! Elements picked and stored by indices, which count from 1.
#![tactic(auto)]

pub mod indices;
pub mod intervals;
pub mod listed;
pub mod picks;
pub mod places;
pub mod stores;

pub use indices::{Index, Outside};
pub use picks::{pick, pick_matrix};
pub use places::{Beside, Integers, Within};
pub use stores::{store, store_matrix};
