// The fields of the listing's lines, written into a lent buffer from an offset on. Each function answers the offset after what it wrote.
#![tactic(auto)]

ghost use Rattle.std.specs.Prelude.{◌++◌, ◌≡◌, ◌+◌, ◌≤◌, length};
ghost use Rattle.refusals.specs.Numbers.{numbered};
ghost use Rattle.fields.specs.Fields.{decimal, mark_text, names_text, answer_text};
ghost use Rattle.fields.specs.Placed.{Wrote};

use exchange::call::{Accepted, Answer, Call};

// A text as it is.
pub fn write_text(out: &mut [u8], at: usize, text: &[u8]) -> usize
    requires { at + length text.now ≤ length out.old }
    ensures { Wrote out.old at text.now out.new result }
{
    let end = at + text.len();
    out[at..end].copy_from_slice(text);
    end
}

// How many digits a number has.
fn digits(number: u32) -> usize
    ensures { (result ≡ length (decimal number)) × (result ≤ 10) }
{
    let mut count: usize = 1;
    let mut rest = number;
    while 10 <= rest {
        count += 1;
        rest /= 10;
    }
    count
}

// A number in decimal, without leading zeros: the last digit first, each before those that are written.
pub fn write_number(out: &mut [u8], at: usize, number: u32) -> usize
    requires { at + 10 ≤ length out.old }
    ensures { Wrote out.old at (decimal number) out.new result × (result ≤ at + 10) }
{
    let end = at + digits(number);
    let mut first = end;
    let mut rest = number;
    while 10 <= rest {
        first -= 1;
        out[first] = b'0' + (rest % 10) as u8;
        rest /= 10;
    }
    out[at] = b'0' + rest as u8;
    end
}

// A text, then a number.
pub fn write_field(out: &mut [u8], at: usize, text: &[u8], number: u32) -> usize
    requires { at + length text.now + 10 ≤ length out.old }
    ensures { Wrote out.old at (text.now ++ decimal number) out.new result × (result ≤ at + length text.now + 10) }
{
    let next = write_text(out, at, text);
    write_number(out, next, number)
}

// The mark of a record, between spaces.
pub fn write_mark(out: &mut [u8], at: usize, call: Call) -> usize
    requires { at + 4 ≤ length out.old }
    ensures { Wrote out.old at (mark_text call) out.new result × (result ≡ at + 4) }
{
    match call {
        Call::Term { .. } => write_text(out, at, b" TM "),
        Call::Step { .. } => write_text(out, at, b" ST "),
    }
}

// A term's number, then whether it is new.
fn write_term(out: &mut [u8], at: usize, term: u16, text: &[u8]) -> usize
    requires { at + 10 + length text.now ≤ length out.old }
    ensures { Wrote out.old at (decimal term ++ text.now) out.new result }
{
    let next = write_number(out, at, term as u32);
    write_text(out, next, text)
}

// `ok`, and the run or none.
fn write_names(out: &mut [u8], at: usize, names: Option<u8>) -> usize
    requires { at + 13 ≤ length out.old }
    ensures { Wrote out.old at (names_text names) out.new result × (result ≤ at + 6) }
{
    match names {
        Some(run) => write_field(out, at, b"ok ", run as u32),
        None => write_text(out, at, b"ok -"),
    }
}

// What a record was answered.
pub fn write_answer(out: &mut [u8], at: usize, answer: Answer) -> usize
    requires { at + 18 ≤ length out.old }
    ensures { Wrote out.old at (answer_text (numbered answer)) out.new result × (result ≤ at + 13) }
{
    match answer {
        Ok(Accepted::Old(term)) => write_term(out, at, term, b" old"),
        Ok(Accepted::New(term)) => write_term(out, at, term, b" new"),
        Ok(Accepted::Taken { names, added }) => {
            let next = write_names(out, at, names);
            write_field(out, next, b" +", added as u32)
        }
        Err(refusal) => write_field(out, at, b"refused ", u8::from(refusal) as u32),
    }
}
