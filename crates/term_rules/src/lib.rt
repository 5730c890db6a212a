// The term rules: which word may stand as term number `at` in a realm of n principals.
#![tactic(auto)]

ghost use Rattle.std.specs.Prelude.{◌≡◌, ◌≤◌, length};
ghost use Rattle.refusals.specs.Numbers.{number_of};
ghost use Rattle.terms.specs.Rules.{is_key, spare, fields_ok, refusal_of};

use refusals::Refusal;
use terms::rules::LAST_NUMBER;
use words::{Kind, Term};

// Whether a term can be the key of an encryption.
pub fn is_key(t: Term) -> bool
    ensures { result ≡ is_key t }
{
    matches!(t, Term::LongTermKey(_) | Term::SessionKey(_))
}

// What a term leaves unused of R.
fn spare_of(t: Term, right: u64) -> u64
    ensures { result ≡ spare t right }
{
    match t {
        Term::Time(_) | Term::Pair(_, _) | Term::Encrypted(_, _) => 0,
        _ => right,
    }
}

// Whether the fields are in range: principals, numbers, operands that stand earlier, a key for an encryption.
fn fields_ok(terms: &[u64], n: u16, at: usize, t: Term) -> bool
    requires { at ≤ length terms.now }
    ensures { result ≡ fields_ok n terms.now at t }
{
    match t {
        Term::Principal(p) | Term::LongTermKey(p) => p < n,
        Term::Nonce(i) | Term::SessionKey(i) => i <= LAST_NUMBER,
        Term::Time(_) => true,
        Term::Pair(l, r) => (l as usize) < at && (r as usize) < at,
        Term::Encrypted(b, k) => {
            let key = k as usize;
            (b as usize) < at && key < at && is_key(Term::from(terms[key]))
        }
        Term::Unknown => false,
    }
}

// Whether a word may stand as term `at`, or its refusal.
pub fn check_word(terms: &[u64], n: u16, at: usize, word: u64) -> Result<(), Refusal>
    requires { at ≤ length terms.now }
    ensures { number_of result ≡ refusal_of n terms.now at word }
{
    let kind = word / 4294967296;
    if Kind::try_from(kind).is_err() {
        return Err(Refusal::Kind);
    }
    let t = Term::from(word);
    let spare = spare_of(t, word % 65536);
    if spare != 0 {
        return Err(Refusal::Unused);
    }
    if fields_ok(terms, n, at, t) {
        return Ok(());
    }
    Err(Refusal::Range)
}
