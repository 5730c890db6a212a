// The term table, searched and added to: the first `count` of 512 lent words, each a term. These calls are for callers that know
// that the table holds together.
#![tactic(auto)]

ghost use Rattle.std.specs.Prelude.{◌≡◌, ◌≤◌, length};
ghost use Rattle.terms.specs.Add.{add_outcome, add_of};
ghost use Rattle.terms.specs.Table.{find_of};
ghost use Rattle.terms.specs.Valid.{Valid};

use refusals::Refusal;
use term_rules::check_word;
use terms::table::{Added, MAX_TERMS};

// The place of a word among the first `count`.
pub fn find(terms: &[u64], count: usize, word: u64) -> Option<usize>
    requires { count ≤ length terms.now }
    ensures { result ≡ find_of terms.now count word }
{
    for i in (0..count).rev() {
        if terms[i] == word {
            return Some(i);
        }
    }
    None
}

// Adds a term under the rules.
pub fn add(terms: &mut [u64], count: usize, n: u16, word: u64) -> Result<Added, Refusal>
    requires { Valid n terms.old count }
    ensures { add_outcome result count terms.new ≡ add_of n terms.old count word }
{
    check_word(terms, n, count, word)?;
    if let Some(i) = find(terms, count, word) {
        return Ok(Added::Old(i));
    }
    if count == MAX_TERMS {
        return Err(Refusal::TermsFull);
    }
    terms[count] = word;
    Ok(Added::New(count))
}
