// How other rules place goods on shelves.
#![tactic(auto)]

mod hashing;
mod jump;
mod remainders;
mod rendezvous;
mod ring;
mod rival;
mod rule;

pub use hashing::mix;
pub use jump::{Jump, by_jump};
pub use remainders::{Remainders, by_remainder};
pub use rendezvous::{Rendezvous, by_rendezvous};
pub use ring::Ring;
pub use rival::Rival;
pub use rule::Rule;
