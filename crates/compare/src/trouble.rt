// What can go wrong, and how it is said.
use std::alloc::AllocError;
use std::io;
use steps::Flaw;
use thiserror::Error;

#[derive(Debug, Drop, Error)]
pub enum Trouble {
    #[error("wrong call\nusage: compare STEPS\n       compare --svg FILE STEPS")]
    WrongCall,
    #[error("out of memory")]
    NoMemory(#[from(alloc)] AllocError),
    #[error("{0}")]
    Stream(#[from] io::Error),
    #[error("{path}: {error}")]
    File {
        path: String,
        error: io::Error,
    },
    #[error("{path}: step {number}: {flaw}")]
    Step {
        path: String,
        number: usize,
        flaw: Flaw,
    },
}
