// Telling a hall: whole commands, and lists of them.
ghost use Rattle.std.specs.Prelude.{◌≡◌, true, false, is_ok, IfOk};
ghost use Rattle.hall.specs.House.{Store};
ghost use Rattle.machine.specs.Acts.{nothing};
ghost use Rattle.placing_model.specs.Reached.{Reached, Answered, hall_then, acts_of};
ghost use Rattle.placing.specs.Acts.{command_of};
ghost use Rattle.owner.specs.declared.halls.telling.Failure.TheVariants.{NoMemory};
ghost use Rattle.owner.specs.Halls.{words_of, answer_of, outcome_from, commands_of, AllTold, GoesOn};

use crate::halls::Hall;
use crate::runs::run;
use placing::{Command, Refusal, Spot, WORDS};
use std::alloc::{AllocError, Global};

// Acts enough for a command that puts a good at most.
const ACTS_FOR_ONE: usize = 2;

// Acts enough for a shelf that comes or goes: one for each good that there can be, and two.
const ACTS_FOR_ALL: usize = 32770;

// Why a command was not carried out: it is refused, or there is not memory enough to say what is put.
#[derive(Clone, Copy)]
pub enum Failure {
    Refused(Refusal),
    NoMemory(AllocError),
}

impl From<AllocError> for Failure {
    ghost from_gives = { λ want result. result ≡ NoMemory want };

    fn from(want: AllocError) -> Failure {
        Failure::NoMemory(want)
    }
}

// What a command of a list was answered: all that it put, in this order, or why it is refused.
pub type Outcome = Result<Vec<Spot>, Refusal>;

// Acts enough for a command.
fn acts_for(command: Command) -> usize
    ensures { result ≡ acts_of (command_of command) }
{
    match command {
        Command::GoodComes(_) | Command::GoodGoes(_) | Command::WhereIs(_) => ACTS_FOR_ONE,
        Command::ShelfComes(_) | Command::ShelfGoes(_) => ACTS_FOR_ALL,
    }
}

impl Hall {
    // The empty hall.
    pub fn new(heap: Global) -> Result<Hall, AllocError>
        ensures { IfOk result (λ h. Reached (words_of h) nothing) }
    {
        let memory = vec![in heap; 0; WORDS]?;
        Ok(Hall { memory })
    }

    // Carries out a command, and gives what was put where, in this order.
    pub fn tell(&mut self, heap: Global, command: Command) -> Result<Vec<Spot>, Failure>
        ensures right { (s : Store) → Reached (words_of self.old) s → Answered s (command_of command) (answer_of result) × Reached (words_of self.new) (hall_then s (command_of command) (answer_of result)) }
        ensures same { is_ok result ≡ false → words_of self.new ≡ words_of self.old }
    {
        let acts = acts_for(command);
        let mut moves = Vec::with_capacity(heap, acts)?;
        match run(self.memory.as_mut_slice(), command, acts, &mut moves) {
            Some(Ok(())) => Ok(moves),
            Some(Err(why)) => Err(Failure::Refused(why)),
            None => unreachable!(),
        }
    }
}

// What an answer is as an outcome; an error for want of memory.
fn outcome_of(told: Result<Vec<Spot>, Failure>) -> Result<Outcome, AllocError>
    ensures { result ≡ outcome_from told }
{
    match told {
        Ok(moves) => Ok(Ok(moves)),
        Err(Failure::Refused(why)) => Ok(Err(why)),
        Err(Failure::NoMemory(want)) => Err(want),
    }
}

// Tells the hall one command more of a list, and notes what it was answered.
fn tell_next(
    hall: &mut Hall,
    heap: Global,
    command: Command,
    outcomes: &mut Vec<Outcome>,
) -> Result<(), AllocError>
    ensures { is_ok result ≡ true → GoesOn (words_of hall.old) outcomes.old.items (command_of command) (words_of hall.new) outcomes.new.items }
{
    let outcome = outcome_of(hall.tell(heap, command))?;
    outcomes.push(outcome)?;
    Ok(())
}

// Carries out a list of commands, from the empty hall on, and gives the hall and what each was answered.
pub fn carry_out(heap: Global, commands: &[Command]) -> Result<(Hall, Vec<Outcome>), AllocError>
    ensures { IfOk result (λ p. AllTold (commands_of commands.now) (words_of p.0) p.1.items) }
{
    let mut hall = Hall::new(heap)?;
    let mut outcomes = Vec::new(heap);
    for command in commands {
        tell_next(&mut hall, heap, *command, &mut outcomes)?;
    }
    Ok((hall, outcomes))
}
