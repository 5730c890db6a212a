// A step, decided: what it does, with the plan of what is added, or why it is refused.
ghost use Rattle.std.specs.Prelude.{◌≡◌, length};
ghost use Rattle.realm.specs.Tables.{tables, Together};
ghost use Rattle.conditions.specs.Conditions.{KeptBy};
ghost use Rattle.decisions.specs.Decision.{decision};
ghost use Rattle.deciding.specs.Decided.{verdict_of, WritableBy};

use super::plan::plan_sends;
use super::settle::settle;
use decisions::Effect;
use realm::header::Realm;
use realm::input::Step;
use refusals::Refusal;
use replay::entry::Entry;
use sending::Prepared;
use synthesis::knowledge::Knowledge;
use terms::table::MAX_TERMS;

#[derive(Clone, Copy)]
pub struct Decision {
    pub effect: Effect,
    pub prepared: Prepared,
}

// Decides a step over tables that hold together, and plans its messages in `words`.
pub fn decide(
    h: Realm,
    terms: &[u64],
    runs: &[u32],
    wire: &[u64],
    known: &mut Knowledge,
    cache: [Entry; 16],
    s: Step,
    words: &mut [u64],
) -> Result<Decision, Refusal>
    requires { Together (tables h terms.now runs.now wire.now cache) × KeptBy h terms.now known.old × (length words.old ≡ 32) }
    ensures verdict_value { (verdict_of result ≡ decision (tables h terms.now runs.now wire.now cache) s) × WritableBy (tables h terms.now runs.now wire.now cache) result words.new }
    ensures kept_by { KeptBy h terms.now known.new }
{
    let effect = settle(h, terms, runs, wire, known, cache, s)?;
    let prepared = plan_sends(terms, h.terms, effect.sends, words);
    let all = h.terms + prepared.count;
    if MAX_TERMS < all {
        return Err(Refusal::TermsFull);
    }
    Ok(Decision { effect, prepared })
}
