// A realm: its header, its clock, and how many places of each lent table are in use.
ghost use Rattle.std.specs.Prelude.{◌≡◌, ◌≤◌, OnOk, IfOk};
ghost use Rattle.refusals.specs.Numbers.{number_of, numbered};
ghost use Rattle.realm.specs.Opening.{header_fits, realm_fits, header_refusal, rules_by, opening_of};
ghost use Rattle.exchange.specs.Formats.{format_of};

use exchange::form::RULE_SETS;
use exchange::header::{Format, Header, format_of};
use marks::flagged;
use refusals::Refusal;

#[repr(C)]
#[derive(Clone, Copy)]
pub struct Realm {
    pub n: u8,
    // the number of its rule set
    pub rules: u8,
    pub flags: u32,
    // ticket life
    pub ls: u32,
    // authenticator life
    pub la: u32,
    pub clock: u32,
    pub terms: usize,
    pub runs: usize,
    pub entries: usize,
}

// Principals of a realm, the server among them: at least, and at most under any mark.
const LEAST_PRINCIPALS: u8 = 3;

pub const MOST_PRINCIPALS: u8 = 32;

// The number of the server.
const SERVER: u16 = 0;

// Whether a realm of at most so many principals can have these values: no flag on the server or at n and above, no life of 0.
#[tactic(auto, unfolding(crate::specs::Opening::header_fits))]
pub fn header_fits(most: u8, n: u8, flags: u32, ls: u32, la: u32) -> bool
    requires { most ≤ 32 }
    ensures { result ≡ header_fits most n flags ls la }
{
    // n can be 32, the width of the flags
    LEAST_PRINCIPALS <= n
        && n <= most
        && !flagged(flags, SERVER)
        && (flags as u64) >> n == 0
        && 0 < ls
        && 0 < la
}

// Whether a realm that is lent can be one: values that a header can have under any mark, and a rule set.
#[tactic(auto, unfolding(crate::specs::Opening::realm_fits))]
pub fn realm_fits(h: Realm) -> bool
    ensures { result ≡ realm_fits h }
{
    header_fits(MOST_PRINCIPALS, h.n, h.flags, h.ls, h.la) && h.rules < RULE_SETS
}

// The row of a header's mark, if its values are within the mark's limit.
#[tactic(auto, using(exchange::proofs::Laws::Formats::most_known), unfolding(crate::specs::Opening::header_refusal))]
fn read_format(header: Header) -> Result<Format, Refusal>
    ensures number { number_of result ≡ header_refusal header }
    ensures rules { IfOk result (λ f. f.rules ≡ rules_by (format_of header.mark)) }
{
    let format = format_of(header.mark).ok_or(Refusal::File)?;
    if !header_fits(format.most, header.n, header.flags, header.ls, header.la) {
        return Err(Refusal::Header);
    }
    Ok(format)
}

// Whether a header opens a realm. Refused: 1 and 2.
pub fn check_header(header: Header) -> Result<(), Refusal>
    ensures { number_of result ≡ header_refusal header }
{
    read_format(header)?;
    Ok(())
}

// A new realm: clock 0 and empty tables. Of its mark it keeps the rule set.
#[tactic(auto, unfolding(crate::specs::Opening::opening_of))]
pub fn open_realm(header: Header) -> Result<Realm, Refusal>
    ensures { numbered result ≡ opening_of header }
{
    let format = read_format(header)?;
    Ok(Realm {
        n: header.n,
        rules: format.rules,
        flags: header.flags,
        ls: header.ls,
        la: header.la,
        clock: 0,
        terms: 0,
        runs: 0,
        entries: 0,
    })
}
