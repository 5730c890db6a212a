// Derivations as long and as deep as can be: a chain of every key that a realm can keep from the intruder, and a pair of a
// term with itself nested up to the last place. One line for each question, with the answer.
#![tactic(auto)]

ghost use Rattle.std.specs.Prelude.{◌≤◌};

use cases::{print_derivable, print_number};
use deduction::Principals;
use lent_terms::add_term;
use marks::{mark, with};
use synthesis::lent::can_derive;
use terms::table::{Added, MAX_TERMS};
use words::Term;

// Principals of the largest realm, all of which are good.
const PRINCIPALS: u16 = 32;

fn ask(question: &[u8], terms: &[u64], count: usize, wire: [u64; 8], t: usize) {
    let realm = Principals {
        n: PRINCIPALS,
        flags: 0,
    };
    io::write_all(1, question);
    print_derivable(can_derive(terms, count, realm, &wire, t));
}

fn report_count(subject: &[u8], count: usize) {
    io::write_all(1, subject);
    print_number(b": ", count as u64);
    io::write_all(1, b" terms\n");
}

// The count after one more term was added.
fn add(terms: &mut [u64], count: usize, term: Term) -> usize {
    match add_term(terms, count, PRINCIPALS, u64::from(term)) {
        Ok(Added::Old(_)) => count,
        Ok(Added::New(i)) => i.min(MAX_TERMS - 1) + 1,
        Err(_) => {
            io::write_all(1, b"a term was refused\n");
            count
        }
    }
}

// The intruder's own session key 64 is term 0, session key i is term i + 1, and the key of principal p is term p + 65. Term 96
// under term 0 is term 97, and term j under term j + 1 is term 193 - j. Each link that is opened gives the key to the one right
// behind it, so that a sweep from the last term to the first opens only one.
fn add_chain(terms: &mut [u64]) -> usize {
    let mut count = add(terms, 0, Term::SessionKey(64));
    for i in 0..64 {
        count = add(terms, count, Term::SessionKey(i));
    }
    for p in 0..PRINCIPALS {
        count = add(terms, count, Term::LongTermKey(p));
    }
    count = add(terms, count, Term::Encrypted(96, 0));
    for j in (1..96).rev() {
        count = add(terms, count, Term::Encrypted(j, j + 1));
    }
    count
}

// The set with all numbers from `first` up to and without `end`.
fn with_range(mut set: [u64; 8], first: usize, end: usize) -> [u64; 8]
    requires { end ≤ 512 }
{
    for i in first..end {
        mark(&mut set, i);
    }
    set
}

// The whole chain is on the wire.
fn whole_chain(terms: &[u64], count: usize) {
    let wire = with_range([0u64; 8], 97, 193);
    ask(b"chain: key of principal 31", terms, count, wire, 96);
    ask(b"chain: key 63", terms, count, wire, 64);
    ask(b"chain: key 0", terms, count, wire, 1);
}

// All links but the first, one within, or the last.
fn broken_chain(terms: &[u64], count: usize) {
    let no_first = with_range([0u64; 8], 98, 193);
    ask(
        b"first link not sent: key of principal 31",
        terms,
        count,
        no_first,
        96,
    );
    ask(b"first link not sent: key 0", terms, count, no_first, 1);
    let gap = with_range(with_range([0u64; 8], 97, 153), 154, 193);
    ask(b"{key 39}key 40 not sent: key 40", terms, count, gap, 41);
    ask(b"{key 39}key 40 not sent: key 39", terms, count, gap, 40);
    ask(b"{key 39}key 40 not sent: key 0", terms, count, gap, 1);
    let no_last = with_range([0u64; 8], 97, 192);
    ask(b"{key 0}key 1 not sent: key 1", terms, count, no_last, 2);
    ask(b"{key 0}key 1 not sent: key 0", terms, count, no_last, 1);
}

fn chain(terms: &mut [u64]) {
    let count = add_chain(terms);
    report_count(b"chain", count);
    whole_chain(terms, count);
    broken_chain(terms, count);
}

// Term 0, and the pair of each term with itself, up to the last place.
fn add_nest(terms: &mut [u64], innermost: Term) -> usize {
    let mut count = add(terms, 0, innermost);
    for i in 0..511 {
        count = add(terms, count, Term::Pair(i, i));
    }
    count
}

fn nest_of_principals(terms: &mut [u64]) {
    let count = add_nest(terms, Term::Principal(1));
    report_count(b"nest of a principal", count);
    ask(
        b"nest of a principal: the last term",
        terms,
        count,
        [0u64; 8],
        511,
    );
}

fn nest_of_keys(terms: &mut [u64]) {
    let count = add_nest(terms, Term::LongTermKey(1));
    report_count(b"nest of a good principal's key", count);
    let nothing = [0u64; 8];
    ask(b"nest of a key: the last term", terms, count, nothing, 511);
    ask(
        b"nest of a key: the key, the last term sent",
        terms,
        count,
        with(nothing, 511),
        0,
    );
    ask(
        b"nest of a key: the last term, the key sent",
        terms,
        count,
        with(nothing, 0),
        511,
    );
    ask(b"nest of a key: term 512", terms, count, nothing, 512);
}

fn main() {
    let mut terms = [0u64; 512];
    chain(&mut terms);
    nest_of_principals(&mut terms);
    nest_of_keys(&mut terms);
}
