// One step of the machine in a lent memory; also on plain numbers, with a lent row for the answer.
ghost use Rattle.std.specs.Prelude.{◌≡◌, ◌≤◌, length};
ghost use Rattle.machine.specs.Machine.{turn, turn_of};
ghost use Rattle.placing_model.specs.Parts.{parts};
ghost use Rattle.placing.specs.Acts.{act_of, event_of_request};
ghost use Rattle.placing.specs.Turns.{state_in};
ghost use Rattle.placing.specs.Entry.{Asks, row_after, StepSays, step_fits, ActsIn};

use crate::acts::{Act, Command, Kind, Request};
use crate::memory::{GOODS_WORDS, LOADS_WORDS, Machine, SHELVES_WORDS, WORDS};

// The kind that asks to go on.
const GO_ON: u64 = 5;

// What the kind and the number ask for.
#[tactic(auto, unfolding(crate::specs::Entry::event_of))]
fn request_of(kind: u64, number: u64) -> Option<Request>
    ensures { Asks kind number result }
{
    if kind == GO_ON {
        return Some(Request::GoOn);
    }
    let kind = Kind::try_from(u8::try_from(kind).ok()?).ok()?;
    Some(Request::Carry(Command::new(kind, number)))
}

// Writes what was put into the row.
fn tell(act: Act, out: &mut [u64])
    requires { 2 ≤ length out.old }
    ensures { out.new ≡ row_after (act_of act) out.old }
{
    if let Act::Puts(spot) = act {
        out[0] = spot.good;
        out[1] = spot.shelf;
    }
}

// One step: kind 0 a good comes, 1 a good goes, 2 a shelf comes, 3 a shelf goes, 4 where is a good, 5 go on.
// None, and nothing changed, where the memory has another length, the kind is above 5 or the row is too short.
// The kind is a number and the answer stands in a lent row for hosts that have no more than words; `act` takes and gives enums.
pub fn step(memory: &mut [u64], kind: u64, number: u64, out: &mut [u64]) -> Option<Act>
    ensures { StepSays memory.old kind number out.old (step_fits memory.old kind out.old) result memory.new out.new }
{
    let request = request_of(kind, number)?;
    if out.len() < 2 {
        return None;
    }
    let act = act(memory, request)?;
    tell(act, out);
    Some(act)
}

// One turn of the machine on the words of its registers and parts.
// Apart from `act`, since of parts of one slice that stand in one struct the proof does not know what the slice ends as.
fn react(
    phase: &mut u64,
    subject: &mut u64,
    goods: &mut [u64],
    shelves: &mut [u64],
    loads: &mut [u64],
    contents: &mut [u64],
    request: Request,
) -> Act
    ensures { turn parts (state_in phase.new subject.new goods.new shelves.new loads.new contents.new) (act_of result) ≡ turn_of parts (state_in phase.old subject.old goods.old shelves.old loads.old contents.old) (event_of_request request) }
{
    let mut machine = Machine {
        phase,
        subject,
        goods,
        shelves,
        loads,
        contents,
    };
    machine.react(request)
}

// One act of the machine for a request; none, and nothing changed, where the memory has another length.
pub fn act(memory: &mut [u64], request: Request) -> Option<Act>
    ensures { ActsIn memory.old (event_of_request request) result memory.new }
{
    if memory.len() != WORDS {
        return None;
    }
    // The proof reads off this call that the number has 64 bits: of a number within an enum it knows no range.
    let _number = request.number();
    let (phase, rest) = memory.split_first_mut()?;
    let (subject, rest) = rest.split_first_mut()?;
    let (goods, rest) = rest.split_at_mut(GOODS_WORDS);
    let (shelves, rest) = rest.split_at_mut(SHELVES_WORDS);
    let (loads, contents) = rest.split_at_mut(LOADS_WORDS);
    Some(react(phase, subject, goods, shelves, loads, contents, request))
}
