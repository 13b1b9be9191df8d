// The machine over one lent memory: one step, its acts and refusals.
#![tactic(auto)]

pub mod acts;
mod changes;
mod entry;
mod memory;
mod turns;

pub use acts::{Act, Command, Kind, Refusal, Request, Spot, UnknownKind};
pub use entry::{act, step};
pub use memory::WORDS;
