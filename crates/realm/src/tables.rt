// Whether tables that are handed in hold together: what refusal 10 looks at. Any slices, any numbers, nothing required.
ghost use Rattle.std.specs.Prelude.{true, ◌≡◌};
ghost use Rattle.realm.specs.Check.{WordsFit, wire_holds, entry_fits, entries_hold, together};
ghost use Rattle.realm.specs.Tables.{tables, Together};

use super::header::{Realm, realm_fits};
use lent_terms::holds_together;
use marks::{is_within, load};
use replay::entry::{Entry, PLACES};
use runs::lent::rows_hold;
use terms::rules::LAST_NUMBER;

// Words in the packed set of terms on the wire.
pub const WIRE_WORDS: usize = 8;

// Whether the wire has its words and no mark past the last term.
#[tactic(auto, unfolding(crate::specs::Check::wire_holds))]
fn wire_holds(wire: &[u64], count: usize) -> bool
    ensures { (result ≡ wire_holds wire.now count) × WordsFit wire.now }
{
    wire.len() == WIRE_WORDS && is_within(load(wire), count)
}

// Whether an entry names a principal and a session key.
fn entry_fits(e: Entry, n: u8) -> bool
    ensures { result ≡ entry_fits n e }
{
    e.b < n as u16 && e.k <= LAST_NUMBER
}

// Whether the first `count` places are entries of a realm of n principals.
fn entries_hold(cache: [Entry; 16], count: usize, n: u8) -> bool
    ensures { result ≡ entries_hold n cache count }
{
    count <= PLACES && cache[..count].iter().all(|&e| entry_fits(e, n))
}

// Whether all tables hold together.
pub fn tables_hold(h: Realm, terms: &[u64], runs: &[u32], wire: &[u64], cache: [Entry; 16]) -> bool
    ensures { (result ≡ together (tables h terms.now runs.now wire.now cache)) × (result ≡ true → Together (tables h terms.now runs.now wire.now cache)) }
{
    let n = h.n;
    realm_fits(h)
        && holds_together(terms, h.terms, n as u16)
        && rows_hold(runs, h.runs, n, terms, h.terms)
        && wire_holds(wire, h.terms)
        && entries_hold(cache, h.entries, n)
}
