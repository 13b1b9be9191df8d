// The commands of a year.
use placing::Command;
use rand_core::{Rng, SeedableRng};
use rand_xoshiro::SplitMix64;
use std::alloc::{AllocError, Global};

// How much there is to be, and the seed of what is left to chance.
#[derive(Clone, Copy)]
pub struct Plan {
    pub goods: u64,
    pub shelves: u64,
    pub weeks: u64,
    pub seed: u64,
}

// The steps so far, and what is there after them.
#[derive(Drop)]
struct Story {
    commands: Vec<Command>,
    goods: Vec<u64>,
    shelves: Vec<u64>,
    // The number that the next shelf gets.
    next: u64,
    chance: SplitMix64,
}

pub fn year(heap: Global, plan: &Plan) -> Result<Vec<Command>, AllocError> {
    let mut story = Story {
        commands: Vec::new(heap),
        goods: Vec::new(heap),
        shelves: Vec::new(heap),
        next: 1,
        chance: SplitMix64::seed_from_u64(plan.seed),
    };
    // The first number of a year is the second after its seed.
    let _ = story.random();
    for _ in 0..plan.shelves {
        story.shelf_comes()?;
    }
    for _ in 0..plan.goods {
        story.good_comes()?;
    }
    for _ in 0..plan.weeks {
        story.week(plan)?;
    }
    Ok(story.commands)
}

impl Story {
    fn random(&mut self) -> u64 {
        self.chance.next_u64()
    }

    fn shelf_comes(&mut self) -> Result<(), AllocError> {
        let shelf = self.next;
        self.next = self.next.wrapping_add(1);
        self.shelves.push(shelf)?;
        self.commands.push(Command::ShelfComes(shelf))?;
        Ok(())
    }

    fn good_comes(&mut self) -> Result<(), AllocError> {
        let good = self.random();
        self.goods.push(good)?;
        self.commands.push(Command::GoodComes(good))?;
        Ok(())
    }

    fn shelf_goes(&mut self) -> Result<(), AllocError> {
        let chance = self.random();
        if let Some(shelf) = take_one(&mut self.shelves, chance) {
            self.commands.push(Command::ShelfGoes(shelf))?;
        }
        Ok(())
    }

    fn good_goes(&mut self) -> Result<(), AllocError> {
        let chance = self.random();
        if let Some(good) = take_one(&mut self.goods, chance) {
            self.commands.push(Command::GoodGoes(good))?;
        }
        Ok(())
    }

    // One good in a thousand goes and as many come; a shelf is the likelier to come the fewer there are, and none goes below half.
    fn week(&mut self, plan: &Plan) -> Result<(), AllocError> {
        for _ in 0..plan.goods / 1000 {
            self.good_goes()?;
            self.good_comes()?;
        }
        let count = self.shelves.len() as u64;
        let chance = self.random() % plan.shelves.saturating_mul(2).max(1);
        if count <= plan.shelves / 2 || count <= chance {
            self.shelf_comes()
        } else {
            self.shelf_goes()
        }
    }
}

// Takes one out of a list, by chance.
fn take_one(numbers: &mut Vec<u64>, chance: u64) -> Option<u64> {
    let place = chance.checked_rem(numbers.len() as u64)?;
    Some(numbers.swap_remove(place as usize))
}
