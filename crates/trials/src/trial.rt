// The machine and the plain list, told the same.
use crate::fault::{Fault, expect};
use crate::model::Model;
use owner::{Failure, Hall};
use placing::{Command, Refusal, Spot};
use std::alloc::{AllocError, Global};

#[derive(Drop)]
pub struct Trial {
    heap: Global,
    hall: Hall,
    pub model: Model,
}

// How a command ended: how many goods were put, or why it was refused.
pub type End = Result<u64, Refusal>;

impl Trial {
    pub fn new(heap: Global, most_goods: usize) -> Result<Trial, AllocError> {
        Ok(Trial {
            heap,
            hall: Hall::new(heap)?,
            model: Model::new(heap, most_goods),
        })
    }

    fn refused(&self, command: Command, why: Refusal) -> Result<End, Fault> {
        expect(
            self.model.refusal(command) == Some(why),
            "a refusal is not the right one",
        )?;
        Ok(Err(why))
    }

    fn carried(&mut self, command: Command, moves: &[Spot]) -> Result<End, Fault> {
        self.model.done(self.heap, command, moves)?;
        Ok(Ok(moves.len() as u64))
    }

    pub fn step(&mut self, command: Command) -> Result<End, Fault> {
        match self.hall.tell(self.heap, command) {
            Ok(moves) => self.carried(command, moves.as_slice()),
            Err(Failure::Refused(why)) => self.refused(command, why),
            Err(Failure::NoMemory(want)) => Err(Fault::NoMemory(want)),
        }
    }

    // The machine says of each good where it stands.
    pub fn ask_all(&mut self) -> Result<(), Fault> {
        self.model.recount(self.heap)?;
        let goods: Vec<u64> = self.model.stands.keys().copied().collect(self.heap)?;
        for good in &goods {
            let _ = self.step(Command::WhereIs(*good))?;
        }
        Ok(())
    }
}
