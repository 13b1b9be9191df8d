// The machine's turns: what it does at each request, one act at a time.
ghost use Rattle.std.specs.Prelude.{◌≡◌};
ghost use Rattle.hall.specs.Promise.{done};
ghost use Rattle.machine.specs.Machine.{turn, at_phase, put, take, ends, evens, drop_shelf, empties, comes_in, goes_out, opens, closes, looks_up, command_turn, goes_on, turn_of};
ghost use Rattle.placing_model.specs.Parts.{parts};
ghost use Rattle.placing.specs.Acts.{number_of_phase, command_of, event_of_request};
ghost use Rattle.placing.specs.Turns.{state_of, Changed, Takes};

use crate::acts::{Act, Command, Phase, Refusal, Request, Spot};
use crate::changes::{add, add_one, enter, insert, leave, remove, take_one, take_out};
use crate::memory::{GOODS_BITS, Machine, SHELVES_BITS};

impl Machine<'_> {
    // Sets the phase, and the slot of the shelf that the step is about.
    fn set_phase(&mut self, phase: Phase, subject: u64)
        ensures { Changed self.old self.new (at_phase parts (state_of self.old) (number_of_phase phase) subject) }
    {
        *self.phase = u64::from(phase);
        *self.subject = subject;
    }

    // Puts a good that is on no shelf on one, by their slots.
    fn put(&mut self, good: u64, shelf: u64)
        ensures { Changed self.old self.new (put parts (state_of self.old) good shelf) }
    {
        add_one(self.loads, shelf);
        add(self.contents, shelf, good);
    }

    // Takes a good from its shelf, by their slots.
    fn take(&mut self, good: u64, shelf: u64)
        ensures { Changed self.old self.new (take parts (state_of self.old) good shelf) }
    {
        take_one(self.loads, shelf);
        take_out(self.contents, good);
    }

    // The command is carried out.
    fn finish(&mut self) -> Act
        ensures { Takes self.old result self.new (ends parts (state_of self.old)) }
    {
        self.set_phase(Phase::Idle, 0);
        Act::Done
    }

    // The put of the good at a slot on the shelf at a slot, by their numbers.
    fn spot_of(&self, good: u64, shelf: u64) -> Spot
        ensures { (result.good ≡ parts.goods.num (state_of self.now).goods good) × (result.shelf ≡ parts.shelves.num (state_of self.now).shelves shelf) }
    {
        Spot {
            good: self.goods().number_of(good),
            shelf: self.shelves().number_of(shelf),
        }
    }

    // Evens out towards a shelf: if a fullest one has two more, a good of it is put there; else the command is carried out.
    #[tactic(auto, unfolding(machine::specs::Machine::evens))]
    fn even_out(&mut self, phase: Phase, shelf: u64) -> Act
        ensures { Takes self.old result self.new (evens parts (state_of self.old) (number_of_phase phase) shelf) }
    {
        let Some(fullest) = self.loads().fullest() else {
            return self.finish();
        };
        let ahead = self
            .loads()
            .load_of(fullest)
            .saturating_sub(self.loads().load_of(shelf));
        if ahead < 2 {
            return self.finish();
        }
        let Some(good) = self.contents().first(fullest) else {
            return self.finish();
        };
        let spot = self.spot_of(good, shelf);
        self.take(good, fullest);
        self.put(good, shelf);
        self.set_phase(phase, shelf);
        Act::Puts(spot)
    }

    // The shelf's row goes, and the command is carried out.
    fn close(&mut self, shelf: u64) -> Act
        ensures { Takes self.old result self.new (turn parts (drop_shelf parts (state_of self.old) shelf) done) }
    {
        let number = self.shelves().number_of(shelf);
        remove::<SHELVES_BITS>(self.shelves, number);
        self.finish()
    }

    // Empties a shelf that goes: a good of it is put on an emptiest one; when there is none left the shelf is gone.
    #[tactic(auto, unfolding(machine::specs::Machine::empties))]
    fn empty_out(&mut self, shelf: u64) -> Act
        ensures { Takes self.old result self.new (empties parts (state_of self.old) shelf) }
    {
        let Some(good) = self.contents().first(shelf) else {
            return self.close(shelf);
        };
        let Some(emptiest) = self.loads().emptiest() else {
            return self.finish();
        };
        let spot = self.spot_of(good, emptiest);
        take_out(self.contents, good);
        self.put(good, emptiest);
        self.set_phase(Phase::Emptying, shelf);
        Act::Puts(spot)
    }

    // A good comes: it is put on an emptiest shelf.
    fn good_comes(&mut self, good: u64) -> Act
        ensures { Takes self.old result self.new (comes_in parts (state_of self.old) good) }
    {
        let None = self.goods().find(good) else {
            return Act::Refused(Refusal::AlreadyThere);
        };
        let Some(shelf) = self.loads().emptiest() else {
            return Act::Refused(Refusal::NoShelf);
        };
        let Some(slot) = insert::<GOODS_BITS>(self.goods, good) else {
            return Act::Refused(Refusal::Full);
        };
        self.put(slot, shelf);
        self.set_phase(Phase::Ending, 0);
        Act::Puts(Spot {
            good,
            shelf: self.shelves().number_of(shelf),
        })
    }

    // A good goes: its shelf gets another if a shelf has two more then.
    fn good_goes(&mut self, good: u64) -> Act
        ensures { Takes self.old result self.new (goes_out parts (state_of self.old) good) }
    {
        let Some(slot) = self.goods().find(good) else {
            return Act::Refused(Refusal::NotThere);
        };
        let Some(shelf) = self.contents().shelf_of(slot) else {
            return Act::Refused(Refusal::NotThere);
        };
        self.take(slot, shelf);
        remove::<GOODS_BITS>(self.goods, good);
        self.even_out(Phase::Ending, shelf)
    }

    // A shelf comes: it gets its share, one good after the other.
    fn shelf_comes(&mut self, shelf: u64) -> Act
        ensures { Takes self.old result self.new (opens parts (state_of self.old) shelf) }
    {
        let None = self.shelves().find(shelf) else {
            return Act::Refused(Refusal::AlreadyThere);
        };
        let Some(slot) = insert::<SHELVES_BITS>(self.shelves, shelf) else {
            return Act::Refused(Refusal::Full);
        };
        enter(self.loads, slot);
        self.even_out(Phase::Filling, slot)
    }

    // A shelf goes: it gets nothing any more, and its goods are put elsewhere, one after the other.
    fn shelf_goes(&mut self, shelf: u64) -> Act
        ensures { Takes self.old result self.new (closes parts (state_of self.old) shelf) }
    {
        let Some(slot) = self.shelves().find(shelf) else {
            return Act::Refused(Refusal::NotThere);
        };
        if self.shelves().count() == 1 && self.goods().count() != 0 {
            return Act::Refused(Refusal::LastShelf);
        }
        leave(self.loads, slot);
        self.empty_out(slot)
    }

    // Where a good is: its shelf is told as if it were put there.
    fn where_is(&mut self, good: u64) -> Act
        ensures { Takes self.old result self.new (looks_up parts (state_of self.old) good) }
    {
        let Some(slot) = self.goods().find(good) else {
            return Act::Refused(Refusal::NotThere);
        };
        let Some(stands) = self.contents().shelf_of(slot) else {
            return Act::Refused(Refusal::NotThere);
        };
        self.set_phase(Phase::Ending, 0);
        Act::Puts(Spot {
            good,
            shelf: self.shelves().number_of(stands),
        })
    }

    // Goes on with the command that is under way. Its phase is a word of the memory, so it chooses the turn by a `match`.
    fn go_on(&mut self) -> Act
        ensures { Takes self.old result self.new (goes_on parts (state_of self.old)) }
    {
        let shelf = *self.subject;
        match Phase::from(*self.phase) {
            Phase::Idle => Act::Done,
            Phase::Ending => self.finish(),
            Phase::Filling => self.even_out(Phase::Filling, shelf),
            Phase::Emptying => self.empty_out(shelf),
        }
    }

    // Begins to carry out a command.
    #[tactic(auto, unfolding(machine::specs::Machine::command_turn))]
    fn begin(&mut self, command: Command) -> Act
        ensures { Takes self.old result self.new (command_turn parts (state_of self.old) (command_of command)) }
    {
        match command {
            Command::GoodComes(good) => self.good_comes(good),
            Command::GoodGoes(good) => self.good_goes(good),
            Command::ShelfComes(shelf) => self.shelf_comes(shelf),
            Command::ShelfGoes(shelf) => self.shelf_goes(shelf),
            Command::WhereIs(good) => self.where_is(good),
        }
    }

    // One turn of the machine: a command is taken only when none is under way.
    #[tactic(auto, unfolding(machine::specs::Machine::turn_of))]
    pub(crate) fn react(&mut self, request: Request) -> Act
        ensures { Takes self.old result self.new (turn_of parts (state_of self.old) (event_of_request request)) }
    {
        let Request::Carry(command) = request else {
            return self.go_on();
        };
        let Phase::Idle = Phase::from(*self.phase) else {
            return Act::Refused(Refusal::Busy);
        };
        self.begin(command)
    }
}
