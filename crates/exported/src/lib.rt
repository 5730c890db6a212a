// A new realm, the public call, the terms that the intruder can derive, the listing of a walk file, and a walk written as a file, for
// programs in other languages. An exported function takes numbers, slices and structs of numbers, so calls and answers are structs of
// numbers here.
#![tactic(auto)]

ghost use Rattle.std.specs.Prelude.{◌≡◌};
ghost use Rattle.refusals.specs.Numbers.{numbered, number_of};
ghost use Rattle.realm.specs.Opening.{opening_of};
ghost use Rattle.realm.specs.Tables.{tables};
ghost use Rattle.calls.specs.Known.{known_of};
ghost use Rattle.calls.specs.Lent.{lent_call};
ghost use Rattle.walkfile.specs.Listing.{listed};
ghost use Rattle.writer.specs.Write.{write_of};
ghost use Rattle.exported.specs.Numbers.{opened_as, call_of, answer_kind, answer_number, reply_of, replied, shown, filed};

use calls::knowledge::known;
use calls::{Called, call};
use exchange::call::{Accepted, Answer, Call, added};
use exchange::header::Header;
use realm::header::{Realm, open_realm};
use refusals::Refusal;
use replay::entry::Entry;
use walkfile::list;
use writer::walk::write_walk;

// A new realm and 0; or a realm of zeros, on which every call gives 10, and the number of the refusal.
#[repr(C)]
#[derive(Clone, Copy)]
pub struct Opened {
    pub realm: Realm,
    pub refusal: u8,
}

// A realm of zeros: it has no principals, so no tables hold together with it.
const NO_REALM: Realm = Realm {
    n: 0,
    rules: 0,
    flags: 0,
    ls: 0,
    la: 0,
    clock: 0,
    terms: 0,
    runs: 0,
    entries: 0,
};

// A new realm, if the header opens one.
#[unsafe(no_mangle)]
pub extern "C" fn pogandir_open(header: Header) -> Opened
    ensures { result ≡ opened_as (opening_of header) }
{
    match open_realm(header) {
        Ok(realm) => Opened { realm, refusal: 0 },
        Err(refusal) => Opened {
            realm: NO_REALM,
            refusal: refusal.into(),
        },
    }
}

// A call: a term where `adds`, with the next three fields, or else a step, with the others.
// Fields that are not used may hold anything.
#[repr(C)]
#[derive(Clone, Copy)]
pub struct Record {
    pub adds: bool,
    pub kind: u8,
    pub l: u16,
    pub r: u16,
    pub step: u8,
    pub run: u8,
    pub a: u8,
    pub b: u8,
    pub m: u16,
    pub t: u32,
}

// The kinds of answers.
const NUMBER: u8 = 0;

const OK_RUN: u8 = 1;

const OK: u8 = 2;

const REFUSED: u8 = 3;

// A realm after a call, the kind of the answer, its number, or else 0, and how many terms were added: 1 for a new term, 0 for one that
// was present.
#[repr(C)]
#[derive(Clone, Copy)]
pub struct Reply {
    pub realm: Realm,
    pub kind: u8,
    pub number: u16,
    pub added: u16,
}

impl From<Record> for Call {
    ghost from_gives = { λ q c. c ≡ call_of q };

    fn from(q: Record) -> Call {
        if q.adds {
            return Call::Term {
                kind: q.kind,
                l: q.l,
                r: q.r,
            };
        }
        Call::Step {
            step: q.step,
            run: q.run,
            a: q.a,
            b: q.b,
            m: q.m,
            t: q.t,
        }
    }
}

fn kind_of(answer: Answer) -> u8
    ensures { result ≡ answer_kind (numbered answer) }
{
    match answer {
        Ok(Accepted::Old(_)) => NUMBER,
        Ok(Accepted::New(_)) => NUMBER,
        Ok(Accepted::Taken { names: Some(_), .. }) => OK_RUN,
        Ok(Accepted::Taken { names: None, .. }) => OK,
        Err(_) => REFUSED,
    }
}

fn number_of(answer: Answer) -> u16
    ensures { result ≡ answer_number (numbered answer) }
{
    match answer {
        Ok(Accepted::Old(i)) => i,
        Ok(Accepted::New(i)) => i,
        Ok(
            Accepted::Taken {
                names: Some(run),
                ..
            },
        ) => run as u16,
        Ok(Accepted::Taken { names: None, .. }) => 0,
        Err(refusal) => u8::from(refusal) as u16,
    }
}

impl From<Called> for Reply {
    ghost from_gives = { λ x reply. reply ≡ reply_of x.realm (numbered x.answer) };

    fn from(x: Called) -> Reply {
        Reply {
            realm: x.realm,
            kind: kind_of(x.answer),
            number: number_of(x.answer),
            added: added(x.answer),
        }
    }
}

// Adds a term or takes a step, if the tables hold together. Nothing is required of what is lent.
#[unsafe(no_mangle)]
pub extern "C" fn pogandir_call(
    h: Realm,
    terms: &mut [u64],
    runs: &mut [u32],
    wire: &mut [u64],
    list: &mut [Entry],
    q: Record,
) -> Reply
    ensures { (result, tables result.realm terms.new runs.new wire.new list.new) ≡ replied (lent_call (tables h terms.old runs.old wire.old list.old) (call_of q)) }
{
    Reply::from(call(h, terms, runs, wire, list, Call::from(q)))
}

// 0, or the number of the refusal.
fn status_of(outcome: Result<(), Refusal>) -> u8
    ensures { result ≡ number_of outcome }
{
    match outcome {
        Ok(()) => 0,
        Err(refusal) => u8::from(refusal),
    }
}

// The set of all terms that the intruder can derive, packed: term i is bit i % 64 of word i / 64. 0, and the set in the eight words of
// `out`; or 10, and `out` as it was, if what is read does not hold together. Nothing is required of what is lent.
#[unsafe(no_mangle)]
pub extern "C" fn pogandir_known(h: Realm, terms: &[u64], wire: &[u64], out: &mut [u64]) -> u8
    ensures { (result, out.new) ≡ known_of h terms.now wire.now out.old }
{
    status_of(known(h, terms, wire, out))
}

// Whether the buffer has room for any listing, and how many of its bytes are the listing's, or else 0.
#[repr(C)]
#[derive(Clone, Copy)]
pub struct Listed {
    pub fits: bool,
    pub count: usize,
}

// The listing of a walk file, whatever its bytes. Nothing is required of the buffer.
#[unsafe(no_mangle)]
pub extern "C" fn pogandir_list(file: &[u8], out: &mut [u8]) -> Listed
    ensures { (result, out.new) ≡ shown (listed file.now out.old) }
{
    match list(file, out) {
        Some(count) => Listed { fits: true, count },
        None => Listed {
            fits: false,
            count: 0,
        },
    }
}

// The number of the refusal, or 0, and how many bytes were written, or else 0.
#[repr(C)]
#[derive(Clone, Copy)]
pub struct Filed {
    pub refusal: u8,
    pub count: usize,
}

// A header and a list of records as a walk file, into the buffer from an offset on: seven words a record, its mark and then its
// fields in the order of the file. Nothing is required of what is lent.
#[unsafe(no_mangle)]
pub extern "C" fn pogandir_write(header: Header, words: &[u32], out: &mut [u8], at: usize) -> Filed
    ensures { (result, out.new) ≡ filed (write_of header words.now out.old at) }
{
    match write_walk(header, words, out, at) {
        Ok(count) => Filed { refusal: 0, count },
        Err(refusal) => Filed {
            refusal: u8::from(refusal),
            count: 0,
        },
    }
}
