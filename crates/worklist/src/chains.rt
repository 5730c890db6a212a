// The encryptions under each key, as chains in one array: a key's place holds the last encryption under it, an encryption's
// place the one before it under the same key. 0 ends a chain, since term 0 has no operands.
ghost use Rattle.std.specs.Prelude.{◌≡◌, ◌<◌};
ghost use Rattle.terms.specs.Meaning.{Under};
ghost use Rattle.worklist.specs.Chains.{Table, link_of, chains_of};

use words::Term;

// Puts term i at the head of its key's chain, if it is an encryption.
fn link(chains: &mut [u16; 512], t: Term, i: usize)
    requires { Under 512 t × (i < 512) }
    ensures { chains.new ≡ link_of t i chains.old }
{
    if let Term::Encrypted(_, k) = t {
        chains[i] = chains[k as usize];
        chains[k as usize] = i as u16;
    }
}

// The chains of a table, in an array that held zeros.
pub fn chain(terms: &[u64], count: usize, chains: &mut [u16; 512])
    requires { Table terms.now count }
    ensures { chains.new ≡ chains_of terms.now count chains.old }
{
    for i in 0..count {
        link(chains, Term::from(terms[i]), i);
    }
}
