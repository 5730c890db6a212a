// Whether a term can be put together from what is known, and the whole test.
ghost use Rattle.std.specs.Prelude.{◌≡◌, ◌<◌, length};
ghost use Rattle.terms.specs.Valid.{Valid};
ghost use Rattle.marks.specs.Within.{Below};
ghost use Rattle.synthesis.specs.Compose.{operands_of};
ghost use Rattle.synthesis.specs.Knowledge.{Kept, ComposedIs};
ghost use Rattle.synthesis.specs.Test.{derivable_of};

use super::knowledge::Knowledge;
use deduction::{Principals, is_public};
use marks::is_marked;
use words::Term;

// A term's operands, if it has any.
fn operands_of(t: Term) -> Option<(u16, u16)>
    ensures { result ≡ operands_of t }
{
    match t {
        Term::Pair(l, r) | Term::Encrypted(l, r) => Some((l, r)),
        _ => None,
    }
}

// Whether term t can be derived. It is known, or it is put together from its operands, which are earlier terms. Each answer is noted, so
// no term is taken apart twice.
pub fn compose(
    terms: &[u64],
    count: usize,
    who: Principals,
    known: &mut Knowledge,
    t: usize,
) -> bool
    requires { Valid who.n terms.now count × Kept who.n who.flags terms.now count known.old × (t < count) }
    ensures { ComposedIs who.n who.flags terms.now count known.old.wire t result known.old known.new }
{
    if is_marked(&known.found, t) {
        return true;
    }
    if is_marked(&known.missed, t) {
        return false;
    }
    let term = Term::from(terms[t]);
    let Some((l, r)) = operands_of(term) else {
        let public = is_public(who.flags, term);
        return known.note(t, public);
    };
    if !compose(terms, count, who, known, l as usize) {
        return known.note(t, false);
    }
    let ok = compose(terms, count, who, known, r as usize);
    known.note(t, ok)
}

// Whether the intruder can derive term t, with the set `wire` on the wire.
pub fn derivable(
    terms: &[u64],
    count: usize,
    who: Principals,
    wire: &[u64],
    known: &mut Knowledge,
    t: usize,
) -> bool
    requires { Valid who.n terms.now count × (length wire.now ≡ 8) × Below count wire.now × Kept who.n who.flags terms.now count known.old × (t < count) }
    ensures { (result ≡ derivable_of who.flags terms.now count wire.now t) × Kept who.n who.flags terms.now count known.new }
{
    if !known.is_of(wire) {
        known.restart(terms, count, who, wire);
    }
    compose(terms, count, who, known, t)
}
