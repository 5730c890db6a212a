// The public calls on lent tables: any slices, any numbers, nothing required.
ghost use Rattle.std.specs.Prelude.{◌≡◌};
ghost use Rattle.refusals.specs.Numbers.{numbered, number_of};
ghost use Rattle.synthesis.specs.Lent.{tables_hold, can_derive, derived_of};

use super::all::derive_all;
use super::compose::derivable;
use super::knowledge::Knowledge;
use deduction::Principals;
use lent_terms::holds_together;
use marks::{is_within, load, store};
use refusals::Refusal;

// Words in the packed set of terms on the wire.
pub const WIRE_WORDS: usize = 8;

// Whether the term table holds together, and the wire has its words and no mark past the last term.
fn tables_hold(terms: &[u64], count: usize, n: u16, wire: &[u64]) -> bool
    ensures { result ≡ tables_hold n terms.now count wire.now }
{
    holds_together(terms, count, n) && wire.len() == WIRE_WORDS && is_within(load(wire), count)
}

// Whether the intruder can derive term t.
pub fn can_derive(
    terms: &[u64],
    count: usize,
    who: Principals,
    wire: &[u64],
    t: usize,
) -> Result<bool, Refusal>
    ensures { numbered result ≡ can_derive who.n who.flags terms.now count wire.now t }
{
    if !tables_hold(terms, count, who.n, wire) {
        return Err(Refusal::Tables);
    }
    if count <= t {
        return Err(Refusal::Range);
    }
    let mut known = Knowledge::new();
    Ok(derivable(terms, count, who, wire, &mut known, t))
}

// The set of all terms that the intruder can derive goes into `out`. After a refusal `out` stays as it was.
pub fn derive_terms(
    terms: &[u64],
    count: usize,
    who: Principals,
    wire: &[u64],
    out: &mut [u64],
) -> Result<(), Refusal>
    ensures { (number_of result, out.new) ≡ derived_of who.n who.flags terms.now count wire.now out.old }
{
    if !tables_hold(terms, count, who.n, wire) || out.len() != WIRE_WORDS {
        return Err(Refusal::Tables);
    }
    let set = derive_all(terms, count, who, wire);
    store(out, 0, set);
    Ok(())
}
