// A progress line on standard error, where that is a terminal, once a pass takes longer than a second.
use std::io::IsTerminal;
use std::time::Instant;

// How many steps pass between two looks at the clock.
const STRIDE: usize = 256;

#[derive(Drop)]
pub struct Progress {
    // When the pass began; none where nobody would see the line.
    start: Option<Instant>,
    // Whether a line stands there that `end` has to take away: with a start there may be one or none.
    shown: bool,
}

impl Progress {
    pub fn new(rt: &HostRuntime) -> Progress {
        let start = if rt.stderr().is_terminal() {
            Instant::now(rt).ok()
        } else {
            None
        };
        Progress {
            start,
            shown: false,
        }
    }

    // So many steps are carried out.
    pub fn tell(&mut self, rt: &HostRuntime, rule: &str, steps: usize) {
        let Some(start) = self.start else {
            return;
        };
        if steps % STRIDE != 0 {
            return;
        }
        let Ok(passed) = start.elapsed(rt) else {
            return;
        };
        if passed.as_secs() >= 1 {
            let _ = eprint!(rt; "\rcompare: {rule}: {steps} steps");
            self.shown = true;
        }
    }

    // Takes the line away.
    pub fn end(&self, rt: &HostRuntime) {
        if self.shown {
            let _ = eprint!(rt; "\r                                                  \r");
        }
    }
}
