// The public call on the caller's own tables, the replay cache lent as a list of records: one thin function over the call by value.
#![tactic(auto)]

pub mod knowledge;

ghost use Rattle.std.specs.Prelude.{◌≡◌};
ghost use Rattle.realm.specs.Tables.{tables};
ghost use Rattle.calls.specs.Lent.{lent_outcome, lent_call};

use effects::apply::After;
pub use engine::call::Called;
use engine::lent::checked_call;
use exchange::call::Call;
use lent_cache::{load, store};
use realm::header::Realm;
use refusals::Refusal;
use replay::entry::{Entry, PLACES};

// Adds a term or takes a step, if the tables hold together. Nothing is required of what is lent.
pub fn call(
    h: Realm,
    terms: &mut [u64],
    runs: &mut [u32],
    wire: &mut [u64],
    list: &mut [Entry],
    c: Call,
) -> Called
    ensures { lent_outcome result terms.new runs.new wire.new list.new ≡ lent_call (tables h terms.old runs.old wire.old list.old) c }
{
    if list.len() != PLACES {
        return Called {
            realm: h,
            answer: Err(Refusal::Tables),
        };
    }
    let after = checked_call(h, terms, runs, wire, load(list), c);
    store(list, after.cache);
    Called {
        realm: after.realm,
        answer: after.answer,
    }
}
