// What the intruder has without the wire. The specs of this crate say what he can derive.
#![tactic(auto)]

ghost use Rattle.std.specs.Prelude.{◌≡◌};
ghost use Rattle.deduction.specs.Public.{public_of};

use marks::flagged;
use words::Term;

// What deduction has to know of a realm: the number of principals, and which of them are bad.
#[derive(Clone, Copy)]
pub struct Principals {
    pub n: u16,
    pub flags: u32,
}

// The intruder's own nonces and session keys start here.
pub const FIRST_OWN: u16 = 64;

// Whether the intruder has a term without the wire.
pub fn is_public(flags: u32, t: Term) -> bool
    ensures { result ≡ public_of flags t }
{
    match t {
        Term::Principal(_) | Term::Time(_) => true,
        Term::Nonce(i) | Term::SessionKey(i) => FIRST_OWN <= i,
        Term::LongTermKey(p) => flagged(flags, p),
        _ => false,
    }
}
