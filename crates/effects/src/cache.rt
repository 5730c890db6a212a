// What an effect does to the replay cache.
ghost use Rattle.std.specs.Prelude.{◌≡◌, ◌≤◌};
ghost use Rattle.effects.specs.Cache.{cache_of, EntryRoom};

use decisions::Keeping;
use lent_cache::pass::sweep;
use realm::header::Realm;
use replay::cache::Cache;
use replay::entry::{Entry, Purge};

// The cache after it.
pub fn cache_after(h: Realm, places: [Entry; 16], keeping: Keeping) -> Cache
    requires { (h.entries ≤ 16) × EntryRoom h.entries keeping }
    ensures { result ≡ cache_of h places keeping }
{
    let cache = Cache {
        places,
        count: h.entries,
    };
    match keeping {
        Keeping::Same => cache,
        Keeping::Remember(entry) => cache.append(entry),
        Keeping::Forget(b) => sweep(
            cache,
            Purge {
                b,
                clock: h.clock,
                la: h.la,
            },
        ),
    }
}
