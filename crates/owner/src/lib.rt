// The hall: the machine with a memory of its own, told whole commands, one or a list of them.
#![tactic(auto)]

mod halls;
mod runs;

pub use halls::{Failure, Hall, Outcome, carry_out};
