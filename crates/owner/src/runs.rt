// A whole command: act after act, until it is done or refused.
ghost use Rattle.std.specs.Prelude.{◌≡◌, ◌<◌, ◌≤◌, [], vec_capacity};
ghost use Rattle.hall.specs.Promise.{said, ran, runs, number_of};
ghost use Rattle.placing_model.specs.Memory.{WholeMemory};
ghost use Rattle.placing_model.specs.Own.{own};
ghost use Rattle.placing.specs.Acts.{command_of};
ghost use Rattle.owner.specs.Runs.{moves_of, ending_number};

use placing::{Act, Command, Refusal, Request, Spot, act};

// Carries out a command in so many acts at most, and adds what it puts to the list: done, refused, or none if it has not ended.
pub(crate) fn run(
    memory: &mut [u64],
    command: Command,
    acts: usize,
    moves: &mut Vec<Spot>,
) -> Option<Result<(), Refusal>>
    requires whole { WholeMemory memory.old }
    requires fresh { moves.old.items ≡ [] }
    requires room { acts ≤ vec_capacity moves.old }
    ensures small { number_of (command_of command) < 18446744073709551616 }
    ensures ran { runs acts own memory.old (said (command_of command)) [] ≡ ran memory.new (moves_of moves.new.items) (ending_number result) }
{
    let mut request = Request::Carry(command);
    // The proof reads off this call that the number has 64 bits: of a number within an enum it knows no range.
    let _number = request.number();
    for turn in 0..acts {
        match act(memory, request)? {
            Act::Puts(spot) => moves.push_reserved(spot),
            Act::Done => return Some(Ok(())),
            Act::Refused(why) => return Some(Err(why)),
        }
        request = Request::GoOn;
    }
    None
}
