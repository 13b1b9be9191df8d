// The machine, and where it has the goods.
ghost use Rattle.std.specs.Prelude.{IfOk};
ghost use Rattle.compare.specs.Counted.{Counted};

use assignments::{Assignment, carried};
use owner::{Failure, Hall};
use placing::{Command, Spot};
use std::alloc::{AllocError, Global};

#[derive(Drop)]
pub struct Ours {
    hall: Hall,
    assignment: Assignment,
}

impl Ours {
    pub fn new(heap: Global) -> Result<Ours, AllocError> {
        Ok(Ours {
            hall: Hall::new(heap)?,
            assignment: Assignment::new(heap),
        })
    }

    pub fn assignment(&self) -> &Assignment {
        &self.assignment
    }

    // Tells the machine, and puts the goods where it says: how many are carried, or none where the command is refused.
    pub fn tell(&mut self, heap: Global, command: Command) -> Result<Option<u64>, AllocError>
        ensures { IfOk result (λ t. Counted self.old.assignment self.new.assignment t) }
    {
        let puts = match self.hall.tell(heap, command) {
            Ok(puts) => puts,
            Err(Failure::Refused(_)) => return Ok(None),
            Err(Failure::NoMemory(want)) => return Err(want),
        };
        let before = self.assignment.clone()?;
        self.follow(command, puts.as_slice())?;
        Ok(Some(carried(&before, &self.assignment)))
    }

    fn follow(&mut self, command: Command, puts: &[Spot]) -> Result<(), AllocError> {
        if let Command::GoodGoes(good) = command {
            self.assignment.remove(good);
        }
        for spot in puts {
            self.assignment.put(*spot)?;
        }
        Ok(())
    }
}
