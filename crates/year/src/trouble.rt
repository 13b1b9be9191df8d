// What can go wrong, and how it is said.
use std::alloc::AllocError;
use std::io;
use thiserror::Error;

#[derive(Debug, Drop, Error)]
pub enum Trouble {
    #[error("wrong call; see year --help")]
    WrongCall,
    #[error("no memory")]
    NoMemory(#[from(alloc)] AllocError),
    #[error("{0}")]
    Stream(#[from] io::Error),
    #[error("{path}: {error}")]
    File { path: String, error: io::Error },
}
