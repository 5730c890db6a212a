// One layer of a message: a value of a kind is read, and the number of the term that is left. A layer that does not fit is
// `None`.
#![tactic(auto)]

ghost use Rattle.std.specs.Prelude.{◌≡◌, ℕ, ◌<◌, option_map};
ghost use Rattle.std.proofs.Common.{rules};
ghost use Rattle.terms.specs.Meaning.{message_at};
ghost use Rattle.terms.specs.Rules.{term_at};
ghost use Rattle.layers.specs.Layers.{PRINCIPAL, TIME, NONCE, LONG_TERM_KEY, SESSION_KEY, atom, first, under};
ghost use Rattle.layers.specs.Present.{Present, Opens, held};

use words::Term;

// The values of a kind of terms without operands. The type says which kind a layer asks for.
pub trait Kind {
    ghost kind: { ℕ };

    ghost number: { Self → ℕ };

    // The value of a term of this kind.
    fn of(term: Term) -> Option<Self>
        ensures { option_map number result ≡ held kind term };

    ghost without_operands: { kind < 5 };
}

#[derive(Clone, Copy, Debug, PartialEq, Eq)]
pub struct Principal(pub u16);

#[derive(Clone, Copy, Debug, PartialEq, Eq)]
pub struct Time(pub u32);

#[derive(Clone, Copy, Debug, PartialEq, Eq)]
pub struct Nonce(pub u16);

// The key of this principal.
#[derive(Clone, Copy, Debug, PartialEq, Eq)]
pub struct LongTermKey(pub u16);

#[derive(Clone, Copy, Debug, PartialEq, Eq)]
pub struct SessionKey(pub u16);

impl Kind for Principal {
    ghost kind = { PRINCIPAL };

    ghost number = { λ p. p.0 };

    ghost without_operands = { Prim.search rules };

    fn of(term: Term) -> Option<Principal> {
        match term {
            Term::Principal(p) => Some(Principal(p)),
            _ => None,
        }
    }
}

impl Kind for Time {
    ghost kind = { TIME };

    ghost number = { λ t. t.0 };

    ghost without_operands = { Prim.search rules };

    fn of(term: Term) -> Option<Time> {
        match term {
            Term::Time(t) => Some(Time(t)),
            _ => None,
        }
    }
}

impl Kind for Nonce {
    ghost kind = { NONCE };

    ghost number = { λ n. n.0 };

    ghost without_operands = { Prim.search rules };

    fn of(term: Term) -> Option<Nonce> {
        match term {
            Term::Nonce(n) => Some(Nonce(n)),
            _ => None,
        }
    }
}

impl Kind for LongTermKey {
    ghost kind = { LONG_TERM_KEY };

    ghost number = { λ p. p.0 };

    ghost without_operands = { Prim.search rules };

    fn of(term: Term) -> Option<LongTermKey> {
        match term {
            Term::LongTermKey(p) => Some(LongTermKey(p)),
            _ => None,
        }
    }
}

impl Kind for SessionKey {
    ghost kind = { SESSION_KEY };

    ghost number = { λ k. k.0 };

    ghost without_operands = { Prim.search rules };

    fn of(term: Term) -> Option<SessionKey> {
        match term {
            Term::SessionKey(k) => Some(SessionKey(k)),
            _ => None,
        }
    }
}

// Term number i.
pub fn term_at(terms: &[u64], i: u16) -> Term
    requires { Present terms.now i }
    ensures { result ≡ term_at terms.now i }
{
    Term::from(terms[i as usize])
}

// A value alone.
pub fn atom<K: Kind>(terms: &[u64], i: u16) -> Option<K>
    requires { Present terms.now i }
    ensures { option_map K.number result ≡ atom K.kind (message_at terms.now i) }
{
    K::of(term_at(terms, i))
}

// [v, ..] with a value v.
pub fn first<K: Kind>(terms: &[u64], i: u16) -> Option<(K, u16)>
    requires { Present terms.now i }
    ensures { Opens K.number terms.now i result (first K.kind (message_at terms.now i)) }
{
    let Term::Pair(l, rest) = term_at(terms, i) else {
        return None;
    };
    let value = atom(terms, l)?;
    Some((value, rest))
}

// {..} under the key v.
pub fn under<K: Kind>(terms: &[u64], i: u16) -> Option<(K, u16)>
    requires { Present terms.now i }
    ensures { Opens K.number terms.now i result (under K.kind (message_at terms.now i)) }
{
    let Term::Encrypted(body, key) = term_at(terms, i) else {
        return None;
    };
    let value = atom(terms, key)?;
    Some((value, body))
}
