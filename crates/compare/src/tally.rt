// What is counted of one rule.
use std::alloc::{AllocFailed, Global};

#[derive(Drop)]
pub struct Tally {
    // Goods that were carried, in all steps.
    pub carried: u64,
    // Of these, at each shelf that came or went while there were goods.
    pub at_shelves: Vec<u64>,
    // By how much the fullest shelf passed the emptiest, at worst.
    pub worst: u64,
}

impl Tally {
    pub fn new(heap: Global) -> Tally {
        Tally {
            carried: 0,
            at_shelves: Vec::new(heap),
            worst: 0,
        }
    }

    pub fn add(&mut self, carried: u64) {
        self.carried = self.carried.saturating_add(carried);
    }

    pub fn add_at_shelf(&mut self, carried: u64, spread: u64) -> Result<(), AllocFailed<u64>> {
        self.worst = self.worst.max(spread);
        self.at_shelves.push(carried)
    }

    // How many goods were carried for a shelf that came or went, in tenths; none where no shelf did.
    pub fn each_shelf(&self) -> Option<u64> {
        let sum = self
            .at_shelves
            .iter()
            .fold(0u64, |sum, carried| sum.saturating_add(*carried));
        tenths(sum, self.at_shelves.len() as u64)
    }
}

// The quotient in tenths, rounded; none where there is nothing to divide by.
pub fn tenths(number: u64, by: u64) -> Option<u64> {
    number
        .saturating_mul(10)
        .saturating_add(by / 2)
        .checked_div(by)
}
