// Small halls: random steps, beside all halls that there could be.
use crate::all_halls::fewest_moved;
use crate::chance::Chance;
use crate::fault::{Fault, expect};
use crate::model::Model;
use crate::trial::Trial;
use placing::Command;
use std::alloc::{AllocError, Global};

// A fault, and the steps that show it.
#[derive(Drop)]
pub struct Found {
    pub fault: Fault,
    pub steps: Vec<Command>,
}

// A command about one of five goods or of four shelves.
fn any_command(chance: &mut Chance) -> Command {
    let good = chance.below(5);
    let shelf = chance.below(4);
    match chance.below(9) {
        0 | 1 | 2 => Command::GoodComes(good),
        3 | 4 => Command::GoodGoes(good),
        5 | 6 => Command::ShelfComes(shelf),
        7 => Command::ShelfGoes(shelf),
        _ => Command::WhereIs(good),
    }
}

// Where each good that is there after the command stands before it.
fn standing(heap: Global, model: &Model, command: Command) -> Result<Vec<Option<u64>>, AllocError> {
    let mut all: Vec<Option<u64>> = model
        .stands
        .iter()
        .filter(|(good, _)| !matches!(command, Command::GoodGoes(gone) if gone == **good))
        .map(|(_, shelf)| Some(*shelf))
        .collect(heap)?;
    if let Command::GoodComes(_) = command {
        all.push(None)?;
    }
    Ok(all)
}

// One command, and whether as few goods were moved as can be.
fn small_step(heap: Global, trial: &mut Trial, command: Command) -> Result<(), Fault> {
    let stood = standing(heap, &trial.model, command)?;
    let Ok(puts) = trial.step(command)? else {
        return Ok(());
    };
    let shelves: Vec<u64> = trial.model.loads.keys().copied().collect(heap)?;
    let moved = match command {
        Command::GoodComes(_) | Command::WhereIs(_) => puts.saturating_sub(1),
        _ => puts,
    };
    expect(
        moved == fewest_moved(stood.as_slice(), shelves.as_slice()),
        "more goods are moved than have to be",
    )
}

// All of the steps but the one at this place.
fn without(heap: Global, steps: &[Command], place: usize) -> Result<Vec<Command>, AllocError> {
    steps
        .iter()
        .enumerate()
        .filter(|(i, _)| *i != place)
        .map(|(_, command)| *command)
        .collect(heap)
}

// Trials of lists of steps, each from an empty hall on, that has room for so many goods.
#[derive(Clone, Copy)]
pub struct Search {
    pub heap: Global,
    pub most_goods: usize,
}

impl Search {
    // How many steps there are before the first fault.
    fn first_fault(self, steps: &[Command]) -> Result<Option<(usize, Fault)>, Fault> {
        let mut trial = Trial::new(self.heap, self.most_goods)?;
        for (before, command) in steps.iter().enumerate() {
            if let Err(fault) = small_step(self.heap, &mut trial, *command) {
                return Ok(Some((before, fault)));
            }
        }
        Ok(None)
    }

    // Leaves out each step in turn, from the last on, while there is still a fault.
    fn shorter(self, steps: Vec<Command>) -> Result<Vec<Command>, Fault> {
        let mut best = steps;
        for place in (0..best.len()).rev() {
            let fewer = without(self.heap, best.as_slice(), place)?;
            if self.first_fault(fewer.as_slice())?.is_some() {
                best = fewer;
            }
        }
        Ok(best)
    }

    // The first fault of so many steps that the seed gives, with a list of steps of which none can be left out.
    pub fn find(self, seed: u64, count: u64) -> Result<Option<Found>, Fault> {
        let mut chance = Chance::new(seed);
        let steps: Vec<Command> = (0..count)
            .map(|_| any_command(&mut chance))
            .collect(self.heap)?;
        let Some((before, fault)) = self.first_fault(steps.as_slice())? else {
            return Ok(None);
        };
        let mut best: Vec<Command> = steps
            .iter()
            .copied()
            .take(before.saturating_add(1))
            .collect(self.heap)?;
        for _ in 0..count {
            let long = best.len();
            best = self.shorter(best)?;
            if best.len() == long {
                break;
            }
        }
        Ok(Some(Found { fault, steps: best }))
    }
}
