// The public call: any realm, any slices, any numbers, nothing required. Tables that do not hold together get 10, and a
// refused call leaves every place as it was.
ghost use Rattle.std.specs.Prelude.{◌≡◌};
ghost use Rattle.effects.specs.Apply.{outcome};
ghost use Rattle.realm.specs.Tables.{tables};
ghost use Rattle.effects.specs.Call.{checked};

use super::call::call;
use effects::apply::After;
use exchange::call::Call;
use realm::header::Realm;
use realm::tables::tables_hold;
use refusals::Refusal;
use replay::entry::Entry;
use synthesis::knowledge::Knowledge;

// Adds a term or takes a step, if the tables hold together.
pub fn checked_call(
    h: Realm,
    terms: &mut [u64],
    runs: &mut [u32],
    wire: &mut [u64],
    cache: [Entry; 16],
    c: Call,
) -> After
    ensures { outcome result terms.new runs.new wire.new ≡ checked (tables h terms.old runs.old wire.old cache) c }
{
    if !tables_hold(h, terms, runs, wire, cache) {
        return After {
            realm: h,
            cache,
            answer: Err(Refusal::Tables),
        };
    }
    let mut known = Knowledge::new();
    call(h, terms, runs, wire, &mut known, cache, c)
}
