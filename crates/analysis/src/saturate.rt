// All that opening and splitting gives of the terms on the wire.
ghost use Rattle.std.specs.Prelude.{◌≡◌, true, ◌<◌, length};
ghost use Rattle.terms.specs.Meaning.{Under};
ghost use Rattle.terms.specs.Rules.{term_at, is_key};
ghost use Rattle.terms.specs.Valid.{Valid};
ghost use Rattle.marks.specs.Within.{Below};
ghost use Rattle.deduction.specs.Known.{Filled};
ghost use Rattle.deduction.specs.Opens.{opens_of};
ghost use Rattle.worklist.specs.Chains.{Chained, Linked};
ghost use Rattle.worklist.specs.Found.{Listed};
ghost use Rattle.analysis.specs.Gives.{decrypt_of, under_of, parts_of, given_of};

use deduction::{Principals, is_public};
use term_rules::is_key;
use words::Term;
use worklist::chains::chain;
use worklist::found::Found;

// Whether encryptions under key k can be opened: it is known or public.
fn opens(terms: &[u64], flags: u32, found: &Found, k: usize) -> bool
    requires { (length terms.now ≡ 512) × (k < 512) }
    ensures { result ≡ opens_of flags terms.now found.now.known k }
{
    found.has(k) || is_public(flags, Term::from(terms[k]))
}

// Decrypts term e, if it is an encryption that has been found.
fn decrypt(found: &mut Found, e: usize, t: Term)
    requires { (e < 512) × Under 512 t }
    ensures { found.new ≡ decrypt_of found.old e t }
{
    if let Term::Encrypted(b, _) = t {
        if found.has(e) {
            found.learn(b as usize);
        }
    }
}

// Decrypts the encryptions under key k that have been found, along its chain.
fn decrypt_under(terms: &[u64], count: usize, chains: &[u16; 512], found: &mut Found, k: usize)
    requires { Linked terms.now count chains.now × (k < count) × (is_key (term_at terms.now k) ≡ true) }
    ensures { found.new ≡ under_of terms.now k count found.old }
{
    // A chain is followed from each of its terms to the one before, so no range or list says how long.
    let mut e = chains[k] as usize;
    while e != 0 {
        decrypt(found, e, Term::from(terms[e]));
        e = chains[e] as usize;
    }
}

// Finds what a pair or an encryption gives.
fn parts(terms: &[u64], flags: u32, found: &mut Found, t: Term)
    requires { (length terms.now ≡ 512) × Under 512 t }
    ensures { found.new ≡ parts_of flags terms.now found.old t }
{
    match t {
        Term::Pair(l, r) => {
            found.learn(l as usize);
            found.learn(r as usize);
        }
        Term::Encrypted(b, k) => {
            if opens(terms, flags, found, k as usize) {
                found.learn(b as usize);
            }
        }
        _ => {}
    }
}

// Finds what term i gives.
fn visit(terms: &[u64], count: usize, flags: u32, chains: &[u16; 512], found: &mut Found, i: usize)
    requires { Linked terms.now count chains.now × (i < count) }
    ensures { found.new ≡ given_of flags terms.now count found.old i }
{
    let t = Term::from(terms[i]);
    if is_key(t) {
        decrypt_under(terms, count, chains, found, i);
    } else {
        parts(terms, flags, found, t);
    }
}

// Looks at each term that has been found, once and in the order of the list. What it gives goes behind the others.
fn explore(terms: &[u64], count: usize, who: Principals, chains: &[u16; 512], found: &mut Found)
    requires { Valid who.n terms.now count × Chained terms.now count count chains.now × Listed count found.old }
    ensures { Filled who.n who.flags terms.now count found.old.known found.new.known × Below count found.new.known }
{
    // The list grows while it is gone through, so no range says how far.
    let mut done: usize = 0;
    while done < found.count() {
        let i = found.at(done);
        visit(terms, count, who.flags, chains, found, i);
        done += 1;
    }
}

// All that opening and splitting gives of the terms on the wire.
pub fn saturate(terms: &[u64], count: usize, who: Principals, wire: &[u64]) -> [u64; 8]
    requires { Valid who.n terms.now count × (length wire.now ≡ 8) }
    ensures { Filled who.n who.flags terms.now count wire.now result × Below count result }
{
    let mut chains = [0u16; 512];
    chain(terms, count, &mut chains);
    let mut found = Found::on_wire(wire, count);
    explore(terms, count, who, &chains, &mut found);
    found.known()
}
