// The public calls on a lent term table: any slice, any numbers, nothing required. A table that does not hold together
// gets 10, and a refused call leaves every place as it was.
#![tactic(auto)]

ghost use Rattle.std.specs.Prelude.{◌≡◌, ◌<◌, length};
ghost use Rattle.refusals.specs.Numbers.{numbered};
ghost use Rattle.terms.specs.Add.{add_outcome};
ghost use Rattle.lent_terms.specs.Lent.{lookup_of, add_term_of};
ghost use Rattle.terms.specs.Valid.{stands, holds};

use refusals::Refusal;
use term_rules::check_word;
use term_table::{add, find};
use terms::table::{Added, MAX_TERMS};

// Whether term i keeps the rules and is none of the terms before it.
fn term_stands(terms: &[u64], n: u16, i: usize) -> bool
    requires { i < length terms.now }
    ensures { result ≡ stands n terms.now i }
{
    let word = terms[i];
    check_word(terms, n, i, word).is_ok() && find(terms, i, word).is_none()
}

// Whether the first `count` words are a term table of a realm of n principals.
pub fn holds_together(terms: &[u64], count: usize, n: u16) -> bool
    ensures { result ≡ holds n terms.now count }
{
    terms.len() == MAX_TERMS && count <= MAX_TERMS && (0..count).all(|i| term_stands(terms, n, i))
}

// The number of a term.
pub fn find_term(terms: &[u64], count: usize, n: u16, word: u64) -> Result<Option<usize>, Refusal>
    ensures { numbered result ≡ lookup_of n terms.now count word }
{
    if holds_together(terms, count, n) {
        Ok(find(terms, count, word))
    } else {
        Err(Refusal::Tables)
    }
}

// Adds a term, as a TM record does.
pub fn add_term(terms: &mut [u64], count: usize, n: u16, word: u64) -> Result<Added, Refusal>
    ensures { add_outcome result count terms.new ≡ add_term_of n terms.old count word }
{
    if !holds_together(terms, count, n) {
        return Err(Refusal::Tables);
    }
    add(terms, count, n, word)
}
