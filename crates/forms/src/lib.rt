// The messages that steps 3 to 6 take, taken apart from the outside in. A message of another form is `None`, which the step
// that asked turns into refusal 14. Tests of a value against the run's own are the steps'.
#![tactic(auto)]

ghost use Rattle.std.specs.Prelude.{◌≡◌};
ghost use Rattle.terms.specs.Meaning.{message_at};
ghost use Rattle.layers.specs.Layers.{NONCE, first};
ghost use Rattle.layers.specs.Present.{Present};
ghost use Rattle.forms.specs.Delivery.{ticket_in, authenticator_in, delivery_in};
ghost use Rattle.forms.specs.Forms.{request_in, confirmation_in};
ghost use Rattle.forms.specs.Grant.{reply_form, alone, grant_of, pair_in, grant_in, Replies, Grants};

use exchange::form::Form;
use layers::{LongTermKey, Nonce, Principal, SessionKey, Time, atom, first, term_at, under};
use words::Term;

#[derive(Clone, Copy, Debug, PartialEq, Eq)]
pub struct Request {
    pub a: u16,
    pub b: u16,
    pub n: u16,
}

// [a, b, N].
pub fn open_request(terms: &[u64], m: u16) -> Option<Request>
    requires { Present terms.now m }
    ensures { result ≡ request_in (message_at terms.now m) }
{
    let (Principal(a), after_a) = first(terms, m)?;
    let (Principal(b), after_b) = first(terms, after_a)?;
    let Nonce(n) = atom(terms, after_b)?;
    Some(Request { a, b, n })
}

// What is read of {K, b, Ts, ..} under a's key, and the number of the term that is left.
#[derive(Clone, Copy)]
pub struct Reply {
    pub k: u16,
    pub b: u16,
    pub ts: u32,
    pub a: u16,
    pub rest: u16,
}

fn open_reply(terms: &[u64], m: u16) -> Option<Reply>
    requires { Present terms.now m }
    ensures { Replies terms.now m result (reply_form (message_at terms.now m)) }
{
    let (LongTermKey(a), body) = under(terms, m)?;
    let (SessionKey(k), after_k) = first(terms, body)?;
    let (Principal(b), after_b) = first(terms, after_k)?;
    let (Time(ts), rest) = first(terms, after_b)?;
    Some(Reply { k, b, ts, a, rest })
}

// What the initiator takes: the server's reply, and the number of the term X, which is not opened.
#[derive(Clone, Copy, Debug, PartialEq, Eq)]
pub struct Grant {
    pub k: u16,
    pub b: u16,
    pub ts: u32,
    pub n: u16,
    pub a: u16,
    pub x: u16,
}

// {K, b, Ts, N} under a's key, with an X that stands beside it.
fn open_beside(terms: &[u64], m: u16, x: u16) -> Option<Grant>
    requires { Present terms.now m }
    ensures { Grants terms.now x result (grant_of (reply_form (message_at terms.now m)) (alone (message_at terms.now x))) }
{
    let Reply { k, b, ts, a, rest } = open_reply(terms, m)?;
    let Nonce(n) = atom(terms, rest)?;
    Some(Grant { k, b, ts, n, a, x })
}

// {K, b, Ts, N, X} under a's key.
fn open_inside(terms: &[u64], m: u16) -> Option<Grant>
    requires { Present terms.now m }
    ensures { Grants terms.now m result (grant_of (reply_form (message_at terms.now m)) (first NONCE)) }
{
    let Reply { k, b, ts, a, rest } = open_reply(terms, m)?;
    let (Nonce(n), x) = first(terms, rest)?;
    Some(Grant { k, b, ts, n, a, x })
}

// The pair of {K, b, Ts, N} under a's key and X.
fn open_pair(terms: &[u64], m: u16) -> Option<Grant>
    requires { Present terms.now m }
    ensures { Grants terms.now m result (pair_in (message_at terms.now m)) }
{
    let Term::Pair(l, x) = term_at(terms, m) else {
        return None;
    };
    open_beside(terms, l, x)
}

// By the form. Where there is no X the message itself stands for it.
pub fn open_grant(form: Form, terms: &[u64], m: u16) -> Option<Grant>
    requires { Present terms.now m }
    ensures { Grants terms.now m result (grant_in form (message_at terms.now m)) }
{
    match form {
        Form::Parallel => open_beside(terms, m, m),
        Form::Kerberos5 => open_pair(terms, m),
        Form::Kerberos4 => open_inside(terms, m),
    }
}

#[derive(Clone, Copy, Debug, PartialEq, Eq)]
pub struct Ticket {
    pub k: u16,
    pub a: u16,
    pub ts: u32,
    pub b: u16,
}

// {K, a, Ts} under b's key.
pub fn open_ticket(terms: &[u64], m: u16) -> Option<Ticket>
    requires { Present terms.now m }
    ensures { result ≡ ticket_in (message_at terms.now m) }
{
    let (LongTermKey(b), body) = under(terms, m)?;
    let (SessionKey(k), after_k) = first(terms, body)?;
    let (Principal(a), after_a) = first(terms, after_k)?;
    let Time(ts) = atom(terms, after_a)?;
    Some(Ticket { k, a, ts, b })
}

#[derive(Clone, Copy, Debug, PartialEq, Eq)]
pub struct Authenticator {
    pub a: u16,
    pub ta: u32,
    pub k: u16,
}

// {a, Ta}K.
pub fn open_authenticator(terms: &[u64], m: u16) -> Option<Authenticator>
    requires { Present terms.now m }
    ensures { result ≡ authenticator_in (message_at terms.now m) }
{
    let (SessionKey(k), body) = under(terms, m)?;
    let (Principal(a), after_a) = first(terms, body)?;
    let Time(ta) = atom(terms, after_a)?;
    Some(Authenticator { a, ta, k })
}

#[derive(Clone, Copy, Debug, PartialEq, Eq)]
pub struct Delivery {
    pub k: u16,
    pub a: u16,
    pub ts: u32,
    pub b: u16,
    pub ta: u32,
}

// The pair of {K, a, Ts} under b's key and {a, Ta}K, with the same K and a in both.
pub fn open_delivery(terms: &[u64], m: u16) -> Option<Delivery>
    requires { Present terms.now m }
    ensures { result ≡ delivery_in (message_at terms.now m) }
{
    let Term::Pair(l, r) = term_at(terms, m) else {
        return None;
    };
    let Ticket { k, a, ts, b } = open_ticket(terms, l)?;
    let Authenticator {
        a: sender,
        ta,
        k: key,
    } = open_authenticator(terms, r)?;
    if sender != a || key != k {
        return None;
    }
    Some(Delivery { k, a, ts, b, ta })
}

#[derive(Clone, Copy, Debug, PartialEq, Eq)]
pub struct Confirmation {
    pub ta: u32,
    pub k: u16,
}

// {Ta}K.
pub fn open_confirmation(terms: &[u64], m: u16) -> Option<Confirmation>
    requires { Present terms.now m }
    ensures { result ≡ confirmation_in (message_at terms.now m) }
{
    let (SessionKey(k), body) = under(terms, m)?;
    let Time(ta) = atom(terms, body)?;
    Some(Confirmation { ta, k })
}
