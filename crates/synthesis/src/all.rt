// All terms that the intruder can derive, in one pass over the table.
ghost use Rattle.std.specs.Prelude.{◌≡◌, length};
ghost use Rattle.terms.specs.Valid.{Valid};
ghost use Rattle.marks.specs.Sets.{set_of};
ghost use Rattle.marks.specs.Within.{Below};
ghost use Rattle.synthesis.specs.All.{FoundTo};
ghost use Rattle.synthesis.specs.Knowledge.{Kept};
ghost use Rattle.synthesis.specs.Test.{derivable_of};

use super::compose::compose;
use super::knowledge::Knowledge;
use deduction::Principals;
use marks::load;

// Finds every term that can be derived. A term's operands are earlier terms, so each is answered by a look at the answers on these.
fn compose_all(terms: &[u64], count: usize, who: Principals, known: &mut Knowledge)
    requires { Valid who.n terms.now count × Kept who.n who.flags terms.now count known.old }
    ensures { FoundTo who.n who.flags terms.now count known.old.wire count known.new }
{
    for t in 0..count {
        compose(terms, count, who, known, t);
    }
}

// The set of all terms that the intruder can derive, with the set `wire` on the wire.
pub fn derive_all(terms: &[u64], count: usize, who: Principals, wire: &[u64]) -> [u64; 8]
    requires { Valid who.n terms.now count × (length wire.now ≡ 8) × Below count wire.now }
    ensures { result ≡ set_of 8 (derivable_of who.flags terms.now count wire.now) count }
{
    let mut known = Knowledge::new();
    known.restart(terms, count, who, wire);
    compose_all(terms, count, who, &mut known);
    load(&known.found)
}
