// What the machine is told, and what it does.
ghost use Rattle.std.specs.Prelude.{◌≡◌};
ghost use Rattle.hall.specs.Promise.{number_of};
ghost use Rattle.machine.specs.Lifting.{event_number};
ghost use Rattle.placing.specs.Acts.{refusal_number, kind_number, kind_named, kind_in, command_with, number_of_phase, phase_named, command_of, event_of_request};

// A good and the shelf that it is put on.
#[derive(Clone, Copy, PartialEq, Eq, Debug)]
pub struct Spot {
    pub good: u64,
    pub shelf: u64,
}

// Why something is refused.
#[derive(Clone, Copy, PartialEq, Eq, PartialOrd, Ord, Debug)]
pub enum Refusal {
    // A command is told while another is under way.
    Busy,
    // The good or the shelf is not there.
    NotThere,
    // The good or the shelf is there already.
    AlreadyThere,
    // A good comes, and there is no shelf.
    NoShelf,
    // The last shelf goes, and there are goods.
    LastShelf,
    // There are as many goods, or shelves, as there can be.
    Full,
}

// The number by which it is told.
impl From<Refusal> for u64 {
    ghost from_gives = { λ why result. result ≡ refusal_number why };

    fn from(why: Refusal) -> u64 {
        match why {
            Refusal::Busy => 2,
            Refusal::NotThere => 3,
            Refusal::AlreadyThere => 4,
            Refusal::NoShelf => 5,
            Refusal::LastShelf => 6,
            Refusal::Full => 7,
        }
    }
}

// What the machine does in one step.
#[derive(Clone, Copy)]
pub enum Act {
    Puts(Spot),
    Done,
    Refused(Refusal),
}

// What a command asks for, whatever its good or shelf.
#[derive(Clone, Copy, PartialEq, Eq, Debug)]
pub enum Kind {
    GoodComes,
    GoodGoes,
    ShelfComes,
    ShelfGoes,
    WhereIs,
}

// A number that is no kind's.
#[derive(Clone, Copy, PartialEq, Eq, Debug)]
pub struct UnknownKind(pub u8);

impl From<Kind> for u8 {
    ghost from_gives = { λ kind result. result ≡ kind_number kind };

    fn from(kind: Kind) -> u8 {
        match kind {
            Kind::GoodComes => 0,
            Kind::GoodGoes => 1,
            Kind::ShelfComes => 2,
            Kind::ShelfGoes => 3,
            Kind::WhereIs => 4,
        }
    }
}

impl TryFrom<u8> for Kind {
    type Error = UnknownKind;

    ghost try_from_gives = { λ number result. result ≡ kind_named number };

    fn try_from(number: u8) -> Result<Kind, UnknownKind> {
        match number {
            0 => Ok(Kind::GoodComes),
            1 => Ok(Kind::GoodGoes),
            2 => Ok(Kind::ShelfComes),
            3 => Ok(Kind::ShelfGoes),
            4 => Ok(Kind::WhereIs),
            _ => Err(UnknownKind(number)),
        }
    }
}

// What can be told: a good or a shelf comes or goes, or where a good is.
#[derive(Clone, Copy)]
pub enum Command {
    GoodComes(u64),
    GoodGoes(u64),
    ShelfComes(u64),
    ShelfGoes(u64),
    WhereIs(u64),
}

impl Command {
    // The command of a kind about the good or the shelf of a number.
    pub fn new(kind: Kind, number: u64) -> Command
        ensures { result ≡ command_with kind number }
    {
        match kind {
            Kind::GoodComes => Command::GoodComes(number),
            Kind::GoodGoes => Command::GoodGoes(number),
            Kind::ShelfComes => Command::ShelfComes(number),
            Kind::ShelfGoes => Command::ShelfGoes(number),
            Kind::WhereIs => Command::WhereIs(number),
        }
    }

    // Its kind.
    pub fn kind(self) -> Kind
        ensures { result ≡ kind_in self }
    {
        match self {
            Command::GoodComes(_) => Kind::GoodComes,
            Command::GoodGoes(_) => Kind::GoodGoes,
            Command::ShelfComes(_) => Kind::ShelfComes,
            Command::ShelfGoes(_) => Kind::ShelfGoes,
            Command::WhereIs(_) => Kind::WhereIs,
        }
    }

    // The number of the good or the shelf that it is about.
    #[tactic(auto, unfolding(hall::specs::Promise::number_of))]
    pub fn number(self) -> u64
        ensures { result ≡ number_of (command_of self) }
    {
        match self {
            Command::GoodComes(number)
            | Command::GoodGoes(number)
            | Command::ShelfComes(number)
            | Command::ShelfGoes(number)
            | Command::WhereIs(number) => number,
        }
    }
}

// What a step is asked for: a command, or to go on with the one that is under way. No `Option`: a bare `None` would not
// say that the step goes on.
#[derive(Clone, Copy)]
pub enum Request {
    Carry(Command),
    GoOn,
}

impl Request {
    // The number of the good or the shelf that it is about; 0 for none.
    pub fn number(self) -> u64
        ensures { result ≡ event_number (event_of_request self) }
    {
        match self {
            Request::Carry(command) => command.number(),
            Request::GoOn => 0,
        }
    }
}

// How far the command that is under way has come.
#[derive(Clone, Copy)]
pub enum Phase {
    // None is under way.
    Idle,
    // The last put was told; what is left is to say that it is done.
    Ending,
    // A shelf that came gets its share.
    Filling,
    // A shelf that goes is emptied.
    Emptying,
}

// The number that its register holds.
impl From<Phase> for u64 {
    ghost from_gives = { λ phase result. result ≡ number_of_phase phase };

    fn from(phase: Phase) -> u64 {
        match phase {
            Phase::Idle => 0,
            Phase::Ending => 1,
            Phase::Filling => 2,
            Phase::Emptying => 3,
        }
    }
}

// What is no phase's number is read as ending.
impl From<u64> for Phase {
    ghost from_gives = { λ number result. result ≡ phase_named number };

    fn from(number: u64) -> Phase {
        match number {
            0 => Phase::Idle,
            2 => Phase::Filling,
            3 => Phase::Emptying,
            _ => Phase::Ending,
        }
    }
}
