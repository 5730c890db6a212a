// An effect, written. All is decided: its messages are planned, and their terms fit.
ghost use Rattle.std.specs.Prelude.{◌≡◌};
ghost use Rattle.realm.specs.Tables.{tables, Together};
ghost use Rattle.deciding.specs.Decided.{Writable};
ghost use Rattle.effects.specs.Apply.{outcome, applied};

use crate::cache::cache_after;
use crate::row::write_row;
use decisions::Effect;
use exchange::call::{Accepted, Answer};
use realm::header::Realm;
use replay::entry::Entry;
use sending::{Prepared, write_messages};

// A realm and its cache after a call, and the answer.
#[derive(Clone, Copy)]
pub struct After {
    pub realm: Realm,
    pub cache: [Entry; 16],
    pub answer: Answer,
}

// Writes what an effect says.
pub fn apply(
    h: Realm,
    terms: &mut [u64],
    runs: &mut [u32],
    wire: &mut [u64],
    cache: [Entry; 16],
    effect: Effect,
    words: &[u64],
    prepared: Prepared,
) -> After
    requires { Together (tables h terms.old runs.old wire.old cache) × Writable (tables h terms.old runs.old wire.old cache) effect words.now prepared }
    ensures { outcome result terms.new runs.new wire.new ≡ applied (tables h terms.old runs.old wire.old cache) effect }
{
    let added = prepared.count;
    let count = h.terms + added;
    write_messages(terms, wire, h.terms, words, prepared);
    let opened = write_row(runs, h.runs, effect.change);
    let kept = cache_after(h, cache, effect.keeping);
    let places = kept.places;
    After {
        realm: Realm {
            clock: effect.clock,
            terms: count,
            runs: opened,
            entries: kept.count,
            ..h
        },
        cache: places,
        answer: Ok(Accepted::Taken {
            names: effect.names,
            added: added as u16,
        }),
    }
}
