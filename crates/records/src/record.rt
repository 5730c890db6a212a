// A record after the header: TM, kind (1 byte), L (2), R (2); or ST, step (1), run (1), a (1), b (1), m (2), t (4).
ghost use Rattle.std.specs.Prelude.{◌≡◌, ◌≤◌, length};
ghost use Rattle.refusals.specs.Numbers.{numbered};
ghost use Rattle.records.specs.Records.{term_call, step_call, record_at};

use super::field::{begins_with, u16_at, u32_at};
use exchange::call::Call;
use refusals::Refusal;

// The letters TM and ST.
pub const TERM_MARK: u16 = 0x544D;

pub const STEP_MARK: u16 = 0x5354;

pub const TERM_BYTES: usize = 7;

pub const STEP_BYTES: usize = 12;

// A whole record's call; the record after it begins at `next`.
#[derive(Clone, Copy)]
pub struct Record {
    pub call: Call,
    pub next: usize,
}

// The call of a TM record.
fn term_of(bytes: &[u8]) -> Call
    requires { 7 ≤ length bytes.now }
    ensures { result ≡ term_call bytes.now }
{
    let l = u16_at(bytes, 3);
    let r = u16_at(bytes, 5);
    Call::Term {
        kind: bytes[2],
        l,
        r,
    }
}

// The call of an ST record.
fn step_of(bytes: &[u8]) -> Call
    requires { 12 ≤ length bytes.now }
    ensures { result ≡ step_call bytes.now }
{
    let m = u16_at(bytes, 6);
    let t = u32_at(bytes, 8);
    Call::Step {
        step: bytes[2],
        run: bytes[3],
        a: bytes[4],
        b: bytes[5],
        m,
        t,
    }
}

// The record that begins at `at`, or none where the file ends there; or refusal 3.
pub fn read_record(file: &[u8], at: usize) -> Result<Option<Record>, Refusal>
    ensures { numbered result ≡ record_at file.now at }
{
    if file.len() <= at {
        return Ok(None);
    }
    let rest = &file[at..];
    if begins_with(rest, TERM_MARK, TERM_BYTES) {
        let call = term_of(rest);
        return Ok(Some(Record {
            call,
            next: at + TERM_BYTES,
        }));
    }
    if begins_with(rest, STEP_MARK, STEP_BYTES) {
        let call = step_of(rest);
        return Ok(Some(Record {
            call,
            next: at + STEP_BYTES,
        }));
    }
    Err(Refusal::Record)
}
