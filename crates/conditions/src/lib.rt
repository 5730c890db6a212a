// The conditions that steps share: whether the intruder can deliver a message, times, and the replay cache.
#![tactic(auto)]

ghost use Rattle.std.specs.Prelude.{◌≡◌, ◌≤◌};
ghost use Rattle.refusals.specs.Numbers.{number_of};
ghost use Rattle.conditions.specs.Conditions.{Askable, KeptBy, derivable_at, ticket_lives, authenticator_lives, not_ahead, admission};

use deduction::Principals;
use realm::header::Realm;
use refusals::Refusal;
use replay::cache::Cache;
use replay::entry::Entry;
use synthesis::compose::derivable;
use synthesis::knowledge::Knowledge;

// Whether the intruder can derive term m. What he is found to know is kept in `known` for the next question.
pub fn can_deliver(h: Realm, terms: &[u64], wire: &[u64], known: &mut Knowledge, m: u16) -> bool
    requires { Askable h terms.now wire.now m × KeptBy h terms.now known.old }
    ensures { (result ≡ derivable_at h terms.now wire.now m) × KeptBy h terms.now known.new }
{
    let who = Principals {
        n: h.n as u16,
        flags: h.flags,
    };
    derivable(terms, h.terms, who, wire, known, m as usize)
}

// Whether a ticket of this time lives. Sums of times are exact.
pub fn ticket_lives(h: Realm, ts: u32) -> bool
    ensures { result ≡ ticket_lives h ts }
{
    (h.clock as u64) < (ts as u64) + (h.ls as u64)
}

// Whether an authenticator of this time lives.
pub fn authenticator_lives(h: Realm, ta: u32) -> bool
    ensures { result ≡ authenticator_lives h ta }
{
    (h.clock as u64) < (ta as u64) + (h.la as u64)
}

// Whether an authenticator's time is at most La ahead of the clock.
pub fn not_ahead(h: Realm, ta: u32) -> bool
    ensures { result ≡ not_ahead h ta }
{
    (ta as u64) <= (h.clock as u64) + (h.la as u64)
}

// Whether the times and the replay cache let a delivery pass. Refused: 16 to 19 and 22.
#[tactic(auto, unfolding(crate::specs::Conditions::admission))]
pub fn admit(h: Realm, cache: [Entry; 16], ts: u32, e: Entry) -> Result<(), Refusal>
    requires { h.entries ≤ 16 }
    ensures { number_of result ≡ admission h cache ts e }
{
    if !ticket_lives(h, ts) {
        return Err(Refusal::Ticket);
    }
    if !authenticator_lives(h, e.ta) {
        return Err(Refusal::Authenticator);
    }
    if !not_ahead(h, e.ta) {
        return Err(Refusal::Ahead);
    }
    let cache = Cache {
        places: cache,
        count: h.entries,
    };
    cache.check(e)
}
