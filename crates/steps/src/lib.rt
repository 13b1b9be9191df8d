// The file format of steps: a byte for the kind and the number in eight bytes, low byte first.
#![tactic(auto)]

ghost use Rattle.std.specs.Prelude.{◌≡◌, length, Some};
ghost use Rattle.steps.specs.declared.Flaw.TheVariants.{BadKind};
ghost use Rattle.steps.specs.Format.{text_of, written, step_in, left_after, Reads, RoundTrip};
ghost use Rattle.std.specs.Iterator.{at_most};

use placing::{Command, Kind, UnknownKind};
use std::fmt;

// The bytes of a step.
pub const STEP: usize = 9;

// What is wrong with a step: the bytes end within it, or its kind is above 4.
#[derive(Clone, Copy, PartialEq, Eq, Debug)]
pub enum Flaw {
    Torn,
    BadKind(u8),
}

impl From<UnknownKind> for Flaw {
    ghost from_gives = { λ unknown result. result ≡ BadKind unknown.0 };

    fn from(unknown: UnknownKind) -> Flaw {
        Flaw::BadKind(unknown.0)
    }
}

impl fmt::Display for Flaw {
    ghost output = { λ flaw. Some (text_of flaw) };

    fn fmt<W: fmt::Write>(&self, f: &mut fmt::Formatter<W>) -> fmt::Result {
        match self {
            Flaw::Torn => f.write_str("the file ends within it"),
            Flaw::BadKind(kind) => write!(f, "its kind is {kind}, and the highest is 4"),
        }
    }
}

// The bytes that are written for a command.
pub fn encode(command: Command) -> [u8; STEP]
    ensures { result ≡ written command }
{
    let [a, b, c, d, e, f, g, h] = command.number().to_le_bytes();
    [u8::from(command.kind()), a, b, c, d, e, f, g, h]
}

// The step that the bytes begin with.
pub fn decode(bytes: &[u8]) -> Result<Command, Flaw>
    ensures { result ≡ step_in bytes.now }
{
    let [kind, a, b, c, d, e, f, g, h, ..] = *bytes else {
        return Err(Flaw::Torn);
    };
    let kind = Kind::try_from(kind)?;
    let number = u64::from_le_bytes([a, b, c, d, e, f, g, h]);
    Ok(Command::new(kind, number))
}

// What is left of the bytes after the step that they begin with.
fn after<'a>(bytes: &'a [u8], step: Result<Command, Flaw>) -> &'a [u8]
    requires { step ≡ step_in bytes.now }
    ensures { result.now ≡ left_after bytes.now (Some step) }
{
    match step {
        Ok(_) => &bytes[STEP..],
        Err(_) => &[],
    }
}

// Goes over the steps in the bytes, up to the first flaw.
#[derive(Clone, Copy)]
pub struct Steps<'a> {
    rest: &'a [u8],
}

impl<'a> Steps<'a> {
    pub fn new(bytes: &'a [u8]) -> Steps<'a>
        ensures { result.rest.now ≡ bytes.now }
    {
        Steps { rest: bytes }
    }
}

impl<'a> Iterator for Steps<'a> {
    type Item = Result<Command, Flaw>;

    ghost next_gives = { λ s r t. Reads s.rest.now r t.rest.now };

    ghost remaining = { λ s. at_most (length s.rest.now) };

    fn next(&mut self) -> Option<Result<Command, Flaw>> {
        if self.rest.is_empty() {
            return None;
        }
        let step = decode(self.rest);
        self.rest = after(self.rest, step);
        Some(step)
    }
}

// What is written for a list of commands is read back as that list.
pub fn round_trip_stands()
    ensures { RoundTrip }
{}
