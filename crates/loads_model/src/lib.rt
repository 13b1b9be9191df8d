// Shelves by load: the model's laws, each on the contract of a small function. No code runs here.
#![tactic(auto)]

ghost use Rattle.loads_model.specs.Laws.{EmptiestLaw, FullestLaw, EnterLaw, LeaveLaw, AddOneLaw, TakeOneLaw, SoundLaw, ElsewhereLaw, KeptLaw, EachChange, SmallLaw, ThereLaw, ZerosLaw, EmptyLaw, OrderLaw, RootLaw, ReplayLaw};

// What the answers mean.
pub fn answer_laws_stand()
    ensures emptiest { EmptiestLaw }
    ensures fullest { FullestLaw }
    ensures there { ThereLaw }
{}

// What each change does at a slot, and what it leaves.
pub fn change_laws_stand()
    ensures enter { EnterLaw }
    ensures leave { LeaveLaw }
    ensures more { AddOneLaw }
    ensures less { TakeOneLaw }
{}

// Zeros are sound, and every change keeps a region sound, for any slot.
pub fn sound_laws_stand()
    ensures zeros { ZerosLaw }
    ensures empty { EmptyLaw }
    ensures sound { EachChange SoundLaw }
    ensures elsewhere { EachChange ElsewhereLaw }
{}

// What holds for any memory.
pub fn memory_laws_stand()
    ensures kept { EachChange KeptLaw }
    ensures small { SmallLaw }
{}

// The trees over any order, and that both comparisons are orders.
pub fn tree_laws_stand()
    ensures order { OrderLaw }
    ensures root { RootLaw }
    ensures replay { ReplayLaw }
{}
