// Carrying out steps, and what is written of it.
use crate::lines::Line;
use owner::{Failure, Hall};
use placing::Command;
use std::alloc::{AllocError, Global};
use std::io;
use std::io::Write;
use steps::{Flaw, Steps};
use thiserror::Error;

// Why the steps were not, or not all, carried out.
#[derive(Debug, Drop, Error)]
pub enum Trouble {
    #[error("{0}")]
    Unread(io::Error),
    #[error("what was done can't be written: {0}")]
    Unwritten(#[from] io::Error),
    #[error("out of memory")]
    NoMemory(#[from(alloc)] AllocError),
    #[error("step {step}: {flaw}")]
    Flawed { flaw: Flaw, step: usize },
}

// Carries out one command, and writes what is put, or why it is refused. Heap and output are handed down through three
// functions: a struct of both would be made once and taken apart once.
fn carry_out<W: Write>(
    heap: Global,
    hall: &mut Hall,
    command: Command,
    out: &mut W,
) -> Result<(), Trouble> {
    match hall.tell(heap, command) {
        Ok(moves) => {
            for spot in &moves {
                writeln!(out, "{}", Line::Put(*spot))?;
            }
        }
        Err(Failure::Refused(why)) => writeln!(out, "{}", Line::Refused(why))?,
        Err(Failure::NoMemory(want)) => return Err(Trouble::NoMemory(want)),
    }
    Ok(())
}

// Carries out the steps in the bytes up to the first flaw.
fn carry_all<W: Write>(heap: Global, bytes: &[u8], out: &mut W) -> Result<(), Trouble> {
    let mut hall = Hall::new(heap)?;
    for (before, step) in Steps::new(bytes).enumerate() {
        match step {
            Ok(command) => carry_out(heap, &mut hall, command, out)?,
            Err(flaw) => return Err(Trouble::Flawed {
                flaw,
                step: before.saturating_add(1),
            }),
        }
    }
    Ok(())
}

// The same, and all that was written is out at the end.
pub fn run<W: Write>(heap: Global, bytes: &[u8], out: &mut W) -> Result<(), Trouble> {
    let carried = carry_all(heap, bytes, out);
    out.flush()?;
    carried
}
