// Where goods are, and how many of them a change carries.
#![tactic(auto)]

mod assignment;
mod shelf_loads;

pub use assignment::{Assignment, carried};
pub use shelf_loads::spread;
