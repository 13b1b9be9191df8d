// The hall: the machine with a memory of its own, which can only be made empty.
ghost use Rattle.std.specs.Prelude.{◌≡◌, vec_len};
ghost use Rattle.hall.specs.House.{Store};
ghost use Rattle.placing_model.specs.Reached.{Reached};

mod telling;

pub use telling::{Failure, Outcome, carry_out};

// Its memory is that of a hall that is reached by what was told from the empty hall on.
#[derive(Drop)]
pub struct Hall {
    memory: Vec<u64>,
    ghost whole: { vec_len memory ≡ 239635 },
    ghost reached: { ∥ ((s : Store) × Reached memory.items s) ∥₁ },
}
