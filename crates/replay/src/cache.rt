// The replay cache by value: its sixteen places with the count of entries. `remember` is a whole call; `check` and `append` are its
// parts, which step 5 has in common with it, and `survives` is the test of step 8.
ghost use Rattle.std.specs.Prelude.{◌≡◌, ◌<◌, ◌≤◌};
ghost use Rattle.refusals.specs.Numbers.{number_of};
ghost use Rattle.replay.specs.Cache.{stays, cache_refusal, present, entries, appending, cache_outcome, remembered};

use crate::entry::{Entry, PLACES, Purge};
use refusals::Refusal;
use std::marker::Model;

// The places, of which the first `count` hold the entries.
#[derive(Clone, Copy)]
pub struct Cache {
    pub places: [Entry; PLACES],
    pub count: usize,
}

impl Model for Cache {
    ghost use Rattle.std.specs.Prelude.{◌≤◌};
    ghost use Rattle.replay.specs.Cache.{Swept, swept};

    ghost Value = { Swept };

    ghost view = { λ c. swept c.places c.count };

    ghost invariant = { λ c. c.count ≤ 16 };

    ghost inverse = { λ s. record { places = s.places; count = s.count } };
}

impl Cache {
    // Whether an entry of the cache is `e`.
    fn has(self, e: Entry) -> bool
        ensures { result ≡ present (entries self.places self.count) e }
    {
        self.places[..self.count].iter().any(|x| *x == e)
    }

    // Whether `e` can be put behind the entries. Refused: 18 and 19.
    pub fn check(self, e: Entry) -> Result<(), Refusal>
        ensures { number_of result ≡ cache_refusal self.places self.count e }
    {
        if self.has(e) {
            return Err(Refusal::Replay);
        }
        if self.count == PLACES {
            return Err(Refusal::CacheFull);
        }
        Ok(())
    }

    // `e` behind the entries.
    pub fn append(self, e: Entry) -> Cache
        requires { self.count < 16 }
        ensures { result ≡ appending self.places self.count e }
    {
        let mut places = self.places;
        places[self.count] = e;
        Cache {
            places,
            count: self.count + 1,
        }
    }
}

// Whether `x` is left when `p` is done: it is another principal's, or its life is not over.
#[tactic(auto, unfolding(crate::specs::Cache::stays))]
pub fn survives(x: Entry, p: Purge) -> bool
    ensures { result ≡ stays p x }
{
    x.b != p.b || (p.clock as u64) < (x.ta as u64) + (p.la as u64)
}

// Puts `e` behind the entries. Refused: 10, 18 and 19.
pub fn remember(places: [Entry; PLACES], count: usize, e: Entry) -> Result<Cache, Refusal>
    ensures { cache_outcome result places ≡ remembered places count e }
{
    if PLACES < count {
        return Err(Refusal::Tables);
    }
    let cache = Cache { places, count };
    cache.check(e)?;
    Ok(cache.append(e))
}
