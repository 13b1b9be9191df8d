// What a trial finds wrong.
use std::alloc::AllocError;
use thiserror::Error;

#[derive(Clone, Copy, Debug, Error)]
pub enum Fault {
    #[error("{0}")]
    Wrong(&'static str),
    #[error("out of memory")]
    NoMemory(#[from(alloc)] AllocError),
}

// Nothing where it holds, else the fault.
pub fn expect(holds: bool, what: &'static str) -> Result<(), Fault> {
    holds.then_some(()).ok_or(Fault::Wrong(what))
}
