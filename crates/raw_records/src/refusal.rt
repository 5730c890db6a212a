// What turns a record away by its own fields: refusals 3 to 6.
ghost use Rattle.std.specs.Prelude.{◌≡◌};
ghost use Rattle.refusals.specs.Numbers.{number_of};
ghost use Rattle.raw_records.specs.Raw.{records_of};
ghost use Rattle.raw_records.specs.Refusals.{limit_of, term_refusal, step_refusal, own_refusal, records_refusal};
ghost use Rattle.raw_records.specs.Capped.{capped, wide_refusal};

use super::raw::{RECORD_WORDS, RawRecord, raw_at};
use realm::header::Realm;
use realm::input::{Step, check_input};
use refusals::Refusal;
use terms::rules::LAST_NUMBER;
use words::{ENCRYPTED, LONG_TERM_KEY, NONCE, PAIR, PRINCIPAL, SESSION_KEY, TIME};

// One more than the last nonce and session key.
const NUMBERS: u32 = LAST_NUMBER as u32 + 1;

// One more than the largest number of one and of two bytes.
const BYTES_1: u32 = 256;

const BYTES_2: u32 = 65536;

// The first L that is out of range.
fn limit_of(n: u8, kind: u64) -> u32
    ensures { result ≡ limit_of n kind }
{
    match kind {
        PRINCIPAL | LONG_TERM_KEY => n as u32,
        NONCE | SESSION_KEY => NUMBERS,
        _ => BYTES_2,
    }
}

#[tactic(auto, unfolding(crate::specs::Refusals::term_refusal))]
fn check_term(n: u8, kind: u64, l: u32, r: u32) -> Result<(), Refusal>
    ensures { number_of result ≡ term_refusal n kind l r }
{
    if ENCRYPTED < kind {
        return Err(Refusal::Kind);
    }
    if !(kind == TIME || kind == PAIR || kind == ENCRYPTED || r == 0) {
        return Err(Refusal::Unused);
    }
    if l < limit_of(n, kind) && r < BYTES_2 {
        return Ok(());
    }
    Err(Refusal::Range)
}

// A word, or the largest byte.
fn cap8(x: u32) -> u8
    ensures { result ≡ capped 255 x }
{
    u8::try_from(x).unwrap_or(u8::MAX)
}

// A word, or the largest number of two bytes.
fn cap16(x: u32) -> u16
    ensures { result ≡ capped 65535 x }
{
    u16::try_from(x).unwrap_or(u16::MAX)
}

// A run or a term that no field can name.
fn check_width(run: u32, m: u32) -> Result<(), Refusal>
    ensures { number_of result ≡ wide_refusal run m }
{
    if run < BYTES_1 && m < BYTES_2 {
        return Ok(());
    }
    Err(Refusal::Range)
}

// The step's own rules, in a realm with every run and term that a record can name.
fn check_step(n: u8, step: u32, run: u32, a: u32, b: u32, m: u32, t: u32) -> Result<(), Refusal>
    ensures { number_of result ≡ step_refusal n step run a b m t }
{
    let s = Step {
        step: cap8(step),
        run: cap8(run),
        a: cap8(a),
        b: cap8(b),
        m: cap16(m),
        t,
    };
    let h = Realm {
        n,
        rules: 0,
        flags: 0,
        ls: 0,
        la: 0,
        clock: 0,
        terms: 65536,
        runs: 256,
        entries: 0,
    };
    check_input(h, s)?;
    check_width(run, m)
}

#[tactic(auto, unfolding(crate::specs::Refusals::own_refusal))]
fn check_record(n: u8, raw: Option<RawRecord>) -> Result<(), Refusal>
    ensures { number_of result ≡ own_refusal n raw }
{
    match raw {
        Some(RawRecord::Term { kind, l, r }) => check_term(n, kind as u64, l, r),
        Some(
            RawRecord::Step {
                step,
                run,
                a,
                b,
                m,
                t,
            },
        ) => check_step(n, step, run, a, b, m, t),
        None => Err(Refusal::Record),
    }
}

// Whether all records pass, or the refusal of the first that does not; one cut short comes last.
pub fn check_records(words: &[u32], n: u8) -> Result<(), Refusal>
    ensures { number_of result ≡ records_refusal n (records_of words.now) }
{
    let count = words.len() / RECORD_WORDS;
    for i in 0..count {
        check_record(n, raw_at(words, i * RECORD_WORDS))?;
    }
    if words.len() % RECORD_WORDS != 0 {
        return Err(Refusal::Record);
    }
    Ok(())
}
