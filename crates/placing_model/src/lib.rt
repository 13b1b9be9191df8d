// The machine over its memory, as a model: each theorem is the contract of a small function.
#![tactic(auto)]

ghost use Rattle.hall.specs.Promise.{Whole};
ghost use Rattle.machine.specs.Acts.{Exactly};
ghost use Rattle.placing_model.specs.Claims.{OwnBusy};
ghost use Rattle.placing_model.specs.Own.{own};

// THE MAIN THEOREM: memory never grows; and for every list of commands, from the empty hall on, each is refused as it should be, or carried out
// with no shelf having two more than another afterwards and as few goods moved as can be.
pub fn whole_stands()
    ensures { Whole own }
{}

// After every list of commands a command takes exactly as many acts as it puts goods, and one more; and it puts as many as it has to.
pub fn exactly_stands()
    ensures { Exactly own }
{}

// In every memory: while a step is under way no command is taken, and after each put one is.
pub fn busy_stands()
    ensures { OwnBusy }
{}
