// A step by its row of the step table, and by whether the intruder can deliver its message.
ghost use Rattle.std.specs.Prelude.{◌≡◌};
ghost use Rattle.refusals.specs.Numbers.{numbered};
ghost use Rattle.realm.specs.Tables.{tables, Together};
ghost use Rattle.conditions.specs.Conditions.{KeptBy};
ghost use Rattle.decisions.specs.Decision.{decided};

use conditions::can_deliver;
use decisions::Effect;
use realm::header::Realm;
use realm::input::Step;
use receiving::Pending;
use refusals::Refusal;
use replay::entry::Entry;
use steps::by_row;
use synthesis::knowledge::Knowledge;

// What a step does, 20 apart. The intruder is asked only where nothing else turns the step away before.
pub fn settle(
    h: Realm,
    terms: &[u64],
    runs: &[u32],
    wire: &[u64],
    known: &mut Knowledge,
    cache: [Entry; 16],
    s: Step,
) -> Result<Effect, Refusal>
    requires { Together (tables h terms.now runs.now wire.now cache) × KeptBy h terms.now known.old }
    ensures { (numbered result ≡ decided (tables h terms.now runs.now wire.now cache) s) × KeptBy h terms.now known.new }
{
    match by_row(h, terms, runs, cache, s)? {
        Pending::Settled(effect) => Ok(effect),
        Pending::Asked(verdict) => {
            if !can_deliver(h, terms, wire, known, s.m) {
                return Err(Refusal::Underivable);
            }
            verdict
        }
    }
}
