// Memories that no commands lead to: a step on them only has to return.
use crate::chance::Chance;
use placing::{Act, WORDS, step};
use std::alloc::{AllocError, Global};
use std::fmt;

// How often each act came; what is not taken counts as refused.
#[derive(Clone, Copy, Default)]
pub struct Answers {
    pub puts: u64,
    pub done: u64,
    pub refused: u64,
}

impl Answers {
    fn note(&mut self, act: Option<Act>) {
        let count = match act {
            Some(Act::Puts(_)) => &mut self.puts,
            Some(Act::Done) => &mut self.done,
            Some(Act::Refused(_)) | None => &mut self.refused,
        };
        *count = count.saturating_add(1);
    }
}

// A memory of which all is left to chance.
#[derive(Drop)]
struct ByChance {
    memory: Vec<u64>,
    chance: Chance,
    // Numbers and words are below this.
    limit: u64,
}

impl ByChance {
    fn new(heap: Global, seed: u64, limit: u64) -> Result<ByChance, AllocError> {
        Ok(ByChance {
            memory: vec![in heap; 0u64; WORDS]?,
            chance: Chance::new(seed),
            limit,
        })
    }

    fn fill(&mut self) {
        for word in self.memory.iter_mut() {
            *word = self.chance.below(self.limit);
        }
    }

    // Most often to go on, since that is what leads on; and kind 6, which there is not, so that it is a number and no `Kind`.
    fn any_kind(&mut self) -> u64 {
        match self.chance.below(12) {
            kind @ 0..=4 => kind,
            11 => 6,
            _ => 5,
        }
    }

    fn any_step(&mut self) -> Option<Act> {
        let mut out = [0u64; 2];
        let kind = self.any_kind();
        let number = self.chance.below(self.limit);
        step(self.memory.as_mut_slice(), kind, number, &mut out)
    }

    // Now and then a word is overwritten.
    fn spoil(&mut self) {
        let place = self.chance.below(WORDS as u64) as usize;
        let word = self.chance.below(40000);
        if self.chance.below(5) == 0
            && let Some(spoiled) = self.memory.get_mut(place)
        {
            *spoiled = word;
        }
    }
}

// So many steps on a memory of words below the limit.
pub fn garbage(heap: Global, seed: u64, limit: u64, steps: u64) -> Result<Answers, AllocError> {
    let mut run = ByChance::new(heap, seed, limit)?;
    run.fill();
    let mut answers = Answers::default();
    for _ in 0..steps {
        answers.note(run.any_step());
    }
    Ok(answers)
}

// So many steps from the empty hall on, in a memory that is spoiled meanwhile.
pub fn spoiled(heap: Global, seed: u64, steps: u64) -> Result<Answers, AllocError> {
    let mut run = ByChance::new(heap, seed, 2000)?;
    let mut answers = Answers::default();
    for _ in 0..steps {
        answers.note(run.any_step());
        run.spoil();
    }
    Ok(answers)
}

impl fmt::Display for Answers {
    fn fmt<W: fmt::Write>(&self, f: &mut fmt::Formatter<W>) -> fmt::Result {
        write!(
            f,
            "{} puts, {} done, {} refused",
            self.puts, self.done, self.refused
        )
    }
}
