// A hall as a plain list: where each good stands, and how many are on each shelf. It checks what the machine answers.
use crate::fault::{Fault, expect};
use placing::{Command, Refusal, Spot};
use std::alloc::Global;
use std::collections::{BTreeMap, BTreeSet};

#[derive(Drop)]
pub struct Model {
    pub stands: BTreeMap<u64, u64>,
    pub loads: BTreeMap<u64, u64>,
    most_goods: usize,
    most_shelves: usize,
}

impl Model {
    // The empty hall, in which so many goods have room.
    pub fn new(heap: Global, most_goods: usize) -> Model {
        Model {
            stands: BTreeMap::new(heap),
            loads: BTreeMap::new(heap),
            most_goods,
            most_shelves: 1024,
        }
    }

    fn load(&self, shelf: u64) -> u64 {
        self.loads.get(&shelf).copied().unwrap_or(0)
    }

    fn shelf(&self, good: u64) -> Option<u64> {
        self.stands.get(&good).copied()
    }

    fn good_comes_refusal(&self, good: u64) -> Option<Refusal> {
        if self.shelf(good).is_some() {
            Some(Refusal::AlreadyThere)
        } else if self.loads.is_empty() {
            Some(Refusal::NoShelf)
        } else if self.stands.len() >= self.most_goods {
            Some(Refusal::Full)
        } else {
            None
        }
    }

    fn shelf_comes_refusal(&self, shelf: u64) -> Option<Refusal> {
        if self.loads.contains_key(&shelf) {
            Some(Refusal::AlreadyThere)
        } else if self.loads.len() >= self.most_shelves {
            Some(Refusal::Full)
        } else {
            None
        }
    }

    fn shelf_goes_refusal(&self, shelf: u64) -> Option<Refusal> {
        if !self.loads.contains_key(&shelf) {
            Some(Refusal::NotThere)
        } else if self.loads.len() == 1 && !self.stands.is_empty() {
            Some(Refusal::LastShelf)
        } else {
            None
        }
    }

    // Why the command has to be refused, if it has.
    pub fn refusal(&self, command: Command) -> Option<Refusal> {
        match command {
            Command::GoodComes(good) => self.good_comes_refusal(good),
            Command::ShelfComes(shelf) => self.shelf_comes_refusal(shelf),
            Command::ShelfGoes(shelf) => self.shelf_goes_refusal(shelf),
            Command::GoodGoes(good) | Command::WhereIs(good) => {
                self.shelf(good).is_none().then_some(Refusal::NotThere)
            }
        }
    }

    fn highest_load(&self) -> u64 {
        self.loads.values().copied().max().unwrap_or(0)
    }

    // How many goods have to be put: for a good that goes one, just where another shelf has one more than its own.
    fn puts(&self, command: Command) -> u64 {
        let goods = self.stands.len() as u64;
        let shelves = self.loads.len() as u64;
        match command {
            Command::GoodComes(_) | Command::WhereIs(_) => 1,
            Command::GoodGoes(good) => {
                let load = self.shelf(good).map_or(0, |shelf| self.load(shelf));
                u64::from(self.highest_load() > load)
            }
            Command::ShelfComes(_) => goods.checked_div(shelves.saturating_add(1)).unwrap_or(0),
            Command::ShelfGoes(shelf) => self.load(shelf),
        }
    }

    fn raise(&mut self, shelf: u64) -> Result<(), Fault> {
        let load = self.load(shelf).saturating_add(1);
        self.loads.insert(shelf, load)?;
        Ok(())
    }

    // One good less on the shelf that the good stands on.
    fn lower(&mut self, good: u64) -> Result<(), Fault> {
        if let Some(shelf) = self.shelf(good) {
            let load = self.load(shelf).saturating_sub(1);
            self.loads.insert(shelf, load)?;
        }
        Ok(())
    }

    fn put(&mut self, spot: Spot) -> Result<(), Fault> {
        expect(
            self.loads.contains_key(&spot.shelf),
            "a good is put on a shelf that is not there",
        )?;
        expect(
            self.shelf(spot.good) != Some(spot.shelf),
            "a good is put where it stands",
        )?;
        self.lower(spot.good)?;
        self.stands.insert(spot.good, spot.shelf)?;
        self.raise(spot.shelf)
    }

    fn may_put(&self, command: Command, spot: Spot) -> bool {
        match command {
            Command::GoodComes(good) => spot.good == good,
            Command::ShelfComes(shelf) => self.shelf(spot.good).is_some() && spot.shelf == shelf,
            Command::ShelfGoes(shelf) => self.shelf(spot.good) == Some(shelf)
                && spot.shelf != shelf,
            Command::GoodGoes(_) => self.shelf(spot.good).is_some(),
            Command::WhereIs(_) => false,
        }
    }

    // What a command changes before anything is put.
    fn begin(&mut self, command: Command) -> Result<(), Fault> {
        match command {
            Command::GoodGoes(good) => {
                self.lower(good)?;
                self.stands.remove(&good);
                Ok(())
            }
            Command::ShelfComes(shelf) => {
                self.loads.insert(shelf, 0)?;
                Ok(())
            }
            Command::GoodComes(_) | Command::ShelfGoes(_) | Command::WhereIs(_) => Ok(()),
        }
    }

    fn end(&mut self, command: Command) -> Result<(), Fault> {
        if let Command::ShelfGoes(shelf) = command {
            expect(self.load(shelf) == 0, "a good is left on a shelf that goes")?;
            self.loads.remove(&shelf);
        }
        let lowest = self.loads.values().copied().min().unwrap_or(0);
        let level = self.highest_load().saturating_sub(lowest) < 2;
        expect(level, "a shelf has two more than another")
    }

    fn change(&mut self, heap: Global, command: Command, moves: &[Spot]) -> Result<(), Fault> {
        self.begin(command)?;
        let mut seen = BTreeSet::new(heap);
        for spot in moves {
            expect(seen.insert(spot.good)?, "a good is put twice")?;
            expect(
                self.may_put(command, *spot),
                "a good is put that may not be put so",
            )?;
            self.put(*spot)?;
        }
        self.end(command)
    }

    fn told(&self, good: u64, moves: &[Spot]) -> Result<(), Fault> {
        for spot in moves {
            expect(spot.good == good, "another good is told")?;
            expect(
                self.shelf(good) == Some(spot.shelf),
                "a good does not stand where it is told",
            )?;
        }
        Ok(())
    }

    // The machine put this: it was right, and it is done here too.
    pub fn done(&mut self, heap: Global, command: Command, moves: &[Spot]) -> Result<(), Fault> {
        expect(
            self.refusal(command).is_none(),
            "a command is carried out that has to be refused",
        )?;
        expect(
            moves.len() as u64 == self.puts(command),
            "the number of goods put is not the table's",
        )?;
        match command {
            Command::WhereIs(good) => self.told(good, moves),
            Command::GoodComes(_) | Command::GoodGoes(_) => self.change(heap, command, moves),
            Command::ShelfComes(_) | Command::ShelfGoes(_) => self.change(heap, command, moves),
        }
    }

    // Loads counted anew are the loads that were kept.
    pub fn recount(&self, heap: Global) -> Result<(), Fault> {
        let mut counted: BTreeMap<u64, u64> = BTreeMap::new(heap);
        for shelf in self.loads.keys() {
            counted.insert(*shelf, 0)?;
        }
        for shelf in self.stands.values() {
            let load = counted.get(shelf).copied().unwrap_or(0).saturating_add(1);
            counted.insert(*shelf, load)?;
        }
        expect(
            counted == self.loads,
            "the loads counted anew are not those that were kept",
        )
    }
}
