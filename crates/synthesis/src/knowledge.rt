// What the intruder was found to know, kept from question to question.
ghost use Rattle.std.specs.Prelude.{◌≡◌, ◌<◌, length};
ghost use Rattle.marks.specs.Within.{Below};
ghost use Rattle.terms.specs.Choice.{Decides};
ghost use Rattle.terms.specs.Valid.{Valid};
ghost use Rattle.synthesis.specs.Knowledge.{nothing, note_of, RestartedIs};

use analysis::saturate::saturate;
use deduction::Principals;
use marks::{load, mark};

// The wire that it was found for; terms that can be derived, with all that opening and splitting gives; and terms that cannot.
#[derive(Clone, Copy)]
pub struct Knowledge {
    pub wire: [u64; 8],
    pub found: [u64; 8],
    pub missed: [u64; 8],
}

impl Knowledge {
    // Of an empty wire nothing is known.
    pub fn new() -> Knowledge
        ensures { result ≡ nothing }
    {
        Knowledge {
            wire: [0; 8],
            found: [0; 8],
            missed: [0; 8],
        }
    }

    // Notes the answer on term t, and gives it.
    pub fn note(&mut self, t: usize, ok: bool) -> bool
        requires { t < 512 }
        ensures { (result ≡ ok) × (self.new ≡ note_of self.old t ok) }
    {
        if ok {
            mark(&mut self.found, t);
        } else {
            mark(&mut self.missed, t);
        }
        ok
    }

    // Whether it was found for this wire.
    pub fn is_of(&self, wire: &[u64]) -> bool
        ensures { Decides result (self.now.wire ≡ wire.now) }
    {
        &self.wire[..] == wire
    }

    // Starts again from this wire: what opening and splitting gives can be derived, and of nothing is it known that it cannot.
    pub fn restart(&mut self, terms: &[u64], count: usize, who: Principals, wire: &[u64])
        requires { Valid who.n terms.now count × (length wire.now ≡ 8) × Below count wire.now }
        ensures { RestartedIs who.n who.flags terms.now count wire.now self.new }
    {
        self.wire = load(wire);
        self.found = saturate(terms, count, who, wire);
        self.missed = [0; 8];
    }
}
