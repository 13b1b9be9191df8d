// Long runs up to as many goods and shelves as there can be, beside a plain list.
use crate::chance::{Chance, Numbers};
use crate::fault::Fault;
use crate::trial::{End, Trial};
use placing::{Command, Refusal};
use std::alloc::Global;

// Steps of which so many of a thousand are of each kind; the rest asks where a good is.
#[derive(Clone, Copy)]
struct Stretch {
    steps: u64,
    comes: u64,
    goes: u64,
    shelf_comes: u64,
    shelf_goes: u64,
}

// A few shelves; as many as can be; as many goods as can be; changes there; back; and down to the last shelf.
const STRETCHES: [Stretch; 6] = [
    Stretch {
        steps: 12000,
        comes: 850,
        goes: 50,
        shelf_comes: 10,
        shelf_goes: 5,
    },
    Stretch {
        steps: 12000,
        comes: 500,
        goes: 20,
        shelf_comes: 300,
        shelf_goes: 5,
    },
    Stretch {
        steps: 50000,
        comes: 900,
        goes: 5,
        shelf_comes: 40,
        shelf_goes: 0,
    },
    Stretch {
        steps: 20000,
        comes: 300,
        goes: 300,
        shelf_comes: 100,
        shelf_goes: 100,
    },
    Stretch {
        steps: 30000,
        comes: 50,
        goes: 500,
        shelf_comes: 5,
        shelf_goes: 300,
    },
    Stretch {
        steps: 12000,
        comes: 50,
        goes: 100,
        shelf_comes: 0,
        shelf_goes: 700,
    },
];

// What came up in a run.
#[derive(Clone, Copy, Default)]
pub struct Tally {
    pub steps: u64,
    pub puts: u64,
    pub done: u64,
    pub most_goods: usize,
    pub most_shelves: usize,
    // At the number of each refusal; no map, so that counting takes no memory.
    refusals: [u64; 8],
}

// The step at which a fault came up.
#[derive(Clone, Copy)]
pub struct Stop {
    pub step: u64,
    pub fault: Fault,
}

#[derive(Drop)]
struct Run {
    trial: Trial,
    chance: Chance,
    numbers: Numbers,
    next_good: u64,
    next_shelf: u64,
    tally: Tally,
}

impl Tally {
    fn note(&mut self, end: End) {
        self.steps = self.steps.saturating_add(1);
        match end {
            Ok(puts) => {
                self.done = self.done.saturating_add(1);
                self.puts = self.puts.saturating_add(puts);
            }
            Err(why) => {
                if let Some(count) = self.refusals.get_mut(u64::from(why) as usize) {
                    *count = count.saturating_add(1);
                }
            }
        }
    }

    // How many commands were refused so.
    pub fn refused(&self, why: Refusal) -> u64 {
        self.refusals
            .get(u64::from(why) as usize)
            .copied()
            .unwrap_or(0)
    }
}

impl Run {
    // Seven of eight goods that come are the next in turn, so that all come.
    fn coming_good(&mut self) -> u64 {
        if self.chance.below(8) == 0 {
            return self.any_good();
        }
        self.next_good = self.next_good.wrapping_add(1);
        self.numbers.at(self.next_good % 33000)
    }

    fn any_good(&mut self) -> u64 {
        self.numbers.at(self.chance.below(33000))
    }

    fn coming_shelf(&mut self) -> u64 {
        self.next_shelf = self.next_shelf.wrapping_add(1);
        self.numbers.at(self.next_shelf % 1030)
    }

    fn any_shelf(&mut self) -> u64 {
        self.numbers.at(self.chance.below(1030))
    }

    fn any_command(&mut self, stretch: Stretch) -> Command {
        let drawn = self.chance.below(1000);
        let comes = stretch.comes;
        let goes = comes.saturating_add(stretch.goes);
        let shelf_comes = goes.saturating_add(stretch.shelf_comes);
        let shelf_goes = shelf_comes.saturating_add(stretch.shelf_goes);
        if drawn < comes {
            Command::GoodComes(self.coming_good())
        } else if drawn < goes {
            Command::GoodGoes(self.any_good())
        } else if drawn < shelf_comes {
            Command::ShelfComes(self.coming_shelf())
        } else if drawn < shelf_goes {
            Command::ShelfGoes(self.any_shelf())
        } else {
            Command::WhereIs(self.any_good())
        }
    }

    fn step(&mut self, command: Command) -> Result<(), Fault> {
        let end = self.trial.step(command)?;
        self.tally.note(end);
        self.tally.most_goods = self.tally.most_goods.max(self.trial.model.stands.len());
        self.tally.most_shelves = self.tally.most_shelves.max(self.trial.model.loads.len());
        Ok(())
    }

    fn go(&mut self, stretch: Stretch) -> Result<(), Fault> {
        for _ in 0..stretch.steps {
            let command = self.any_command(stretch);
            self.step(command)?;
        }
        self.trial.ask_all()
    }

    fn all(&mut self) -> Result<(), Stop> {
        for stretch in STRETCHES {
            if let Err(fault) = self.go(stretch) {
                return Err(Stop {
                    step: self.tally.steps.saturating_add(1),
                    fault,
                });
            }
        }
        Ok(())
    }
}

// A run with the numbers and by the seed given.
pub fn long_run(heap: Global, numbers: Numbers, seed: u64) -> Result<Tally, Stop> {
    let trial = match Trial::new(heap, 32768) {
        Ok(trial) => trial,
        Err(error) => return Err(Stop {
            step: 0,
            fault: Fault::NoMemory(error),
        }),
    };
    let mut run = Run {
        trial,
        chance: Chance::new(seed),
        numbers,
        next_good: 0,
        next_shelf: 0,
        tally: Tally::default(),
    };
    run.all()?;
    Ok(run.tally)
}
