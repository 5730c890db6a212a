// Receiving: the steps that take a message, 3 to 6. A message is taken apart from the outside in; one that has not the
// step's form gets 14. Whether the intruder can deliver it, 15, is left open here.
#![tactic(auto)]

ghost use Rattle.std.specs.Prelude.{List, ◌≡◌, ℕ, ◌<◌, ◌≤◌, eqb, not, ◌&&◌};
ghost use Rattle.terms.specs.Valid.{Valid};
ghost use Rattle.conditions.specs.Conditions.{derivable_at};
ghost use Rattle.decisions.specs.Decision.{issues, authenticates, takes, finishes};
ghost use Rattle.receiving.specs.Pending.{settled};

use conditions::{admit, ticket_lives};
use decisions::Effect;
use exchange::form::form_of;
use exchange::run::Row;
use forms::{
    Confirmation, Delivery, Grant, Request, open_confirmation, open_delivery, open_grant,
    open_request,
};
use realm::header::Realm;
use refusals::Refusal;
use replay::entry::Entry;
use rows::MAX_RUNS;
use verdicts::{accepted, authenticated, finished, issued};

// What a step comes to that nothing turns away before 15, where whether the intruder can deliver its message is still open.
#[derive(Clone, Copy)]
pub enum Pending {
    // This, whatever he can build.
    Settled(Effect),
    // This where he can build the message, else 15.
    Asked(Result<Effect, Refusal>),
}

// Whether a request may name these: neither is the server, and they are unequal.
fn can_ask(a: u16, b: u16) -> bool
    ensures { result ≡ (not (eqb a 0) && not (eqb b 0) && not (eqb a b)) }
{
    a != 0 && b != 0 && a != b
}

// Whether a reply of these values is to the request of the run: of its own principals and nonce.
fn replies_to(own: Row, run: u8, a: u16, b: u16, n: u16) -> bool
    ensures { result ≡ (eqb b own.b && eqb n run && eqb a own.a) }
{
    b == own.b as u16 && n == run as u16 && a == own.a as u16
}

// Whether the principals are the run's own.
fn is_between(own: Row, a: u16, b: u16) -> bool
    ensures { result ≡ (eqb a own.a && eqb b own.b) }
{
    a == own.a as u16 && b == own.b as u16
}

// Whether the time and the key are the run's own.
fn confirms(own: Row, ta: u32, k: u16) -> bool
    ensures { result ≡ (eqb ta own.ta && eqb k own.k) }
{
    ta == own.ta && k == own.k as u16
}

// Step 3: the server answers a request.
pub fn issue(h: Realm, terms: &[u64], m: u16) -> Result<Pending, Refusal>
    requires { Valid h.n terms.now h.terms × (m < h.terms) }
    ensures { (ws : List ℕ) → settled result (derivable_at h terms.now ws m) ≡ issues h terms.now ws m }
{
    if MAX_RUNS <= h.runs {
        return Err(Refusal::RunsFull);
    }
    let Some(Request { a, b, n }) = open_request(terms, m) else {
        return Err(Refusal::Form);
    };
    if !can_ask(a, b) {
        return Err(Refusal::Form);
    }
    let r = h.runs as u8;
    let initiator = a as u8;
    let responder = b as u8;
    let form = form_of(h.rules);
    let effect = issued(h.clock, form, r, initiator, responder, n);
    Ok(Pending::Asked(Ok(effect)))
}

// Step 4: the initiator takes the server's reply to its own request and, by the form, a term that it does not open.
pub fn authenticate(h: Realm, terms: &[u64], run: u8, own: Row, m: u16) -> Result<Pending, Refusal>
    requires { Valid h.n terms.now h.terms × (m < h.terms) }
    ensures { (ws : List ℕ) → settled result (derivable_at h terms.now ws m) ≡ authenticates h terms.now ws run own m }
{
    let form = form_of(h.rules);
    let Some(Grant { k, b, ts, n, a, x }) = open_grant(form, terms, m) else {
        return Err(Refusal::Form);
    };
    if !replies_to(own, run, a, b, n) {
        return Err(Refusal::Form);
    }
    if !ticket_lives(h, ts) {
        return Ok(Pending::Asked(Err(Refusal::Ticket)));
    }
    let effect = authenticated(h.clock, form, run, own, k as u8, ts, x);
    Ok(Pending::Asked(Ok(effect)))
}

// Step 5: the responder takes a ticket and an authenticator.
pub fn accept(
    h: Realm,
    terms: &[u64],
    cache: [Entry; 16],
    run: u8,
    own: Row,
    m: u16,
) -> Result<Pending, Refusal>
    requires { Valid h.n terms.now h.terms × (m < h.terms) × (h.entries ≤ 16) }
    ensures { (ws : List ℕ) → settled result (derivable_at h terms.now ws m) ≡ takes h terms.now ws cache run own m }
{
    let Some(Delivery { k, a, ts, b, ta }) = open_delivery(terms, m) else {
        return Err(Refusal::Form);
    };
    if !is_between(own, a, b) {
        return Err(Refusal::Form);
    }
    if let Err(refusal) = admit(h, cache, ts, Entry { b, k, ta }) {
        return Ok(Pending::Asked(Err(refusal)));
    }
    let effect = accepted(h.clock, run, own, k as u8, ts, ta);
    Ok(Pending::Asked(Ok(effect)))
}

// Step 6: the initiator takes the responder's confirmation of its own values.
pub fn finish(h: Realm, terms: &[u64], run: u8, own: Row, m: u16) -> Result<Pending, Refusal>
    requires { Valid h.n terms.now h.terms × (m < h.terms) }
    ensures { (ws : List ℕ) → settled result (derivable_at h terms.now ws m) ≡ finishes h terms.now ws run own m }
{
    let Some(Confirmation { ta, k }) = open_confirmation(terms, m) else {
        return Err(Refusal::Form);
    };
    if !confirms(own, ta, k) {
        return Err(Refusal::Form);
    }
    if !ticket_lives(h, own.ts) {
        return Ok(Pending::Asked(Err(Refusal::Ticket)));
    }
    Ok(Pending::Asked(Ok(finished(h.clock, run, own))))
}
