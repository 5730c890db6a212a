// The lines of the listing, written into a lent buffer from an offset on. Each function answers the offset after what it wrote.
#![tactic(auto)]

ghost use Rattle.std.specs.Prelude.{◌+◌, ◌<◌, ◌≤◌, length};
ghost use Rattle.refusals.specs.Numbers.{numbered};
ghost use Rattle.fields.specs.Placed.{Wrote};
ghost use Rattle.lines.specs.Lines.{LONGEST, header_line, call_line, file_line, end_line};

use exchange::call::{Answer, Call};
use fields::{write_answer, write_field, write_mark, write_number, write_text};

// Room for any line, the contracts' `LONGEST`: the last line with four numbers of ten digits.
pub const MAX_LINE: usize = 70;

// The line of the first record, where it was accepted: its mark is two letters.
pub fn write_header_line(out: &mut [u8], at: usize, mark: u16) -> usize
    requires { at + LONGEST ≤ length out.old }
    ensures { Wrote out.old at (header_line mark) out.new result }
{
    let letters = [(mark / 256) as u8, (mark % 256) as u8];
    let number_end = write_text(out, at, b"0 ");
    let mark_end = write_text(out, number_end, &letters);
    write_text(out, mark_end, b" ok\n")
}

// The line of a TM or ST record.
pub fn write_call_line(out: &mut [u8], at: usize, number: u32, call: Call, answer: Answer) -> usize
    requires { at + LONGEST ≤ length out.old }
    ensures wrote { Wrote out.old at (call_line number call (numbered answer)) out.new result }
    ensures upper_bound { number < 100000 → result ≤ at + 24 }
{
    let number_end = write_number(out, at, number);
    let mark_end = write_mark(out, number_end, call);
    let answer_end = write_answer(out, mark_end, answer);
    write_text(out, answer_end, b"\n")
}

// The line of a record that ends the reading: refusals 1, 2 and 3.
pub fn write_file_line(out: &mut [u8], at: usize, number: u32, refusal: u8) -> usize
    requires { at + LONGEST ≤ length out.old }
    ensures wrote { Wrote out.old at (file_line number refusal) out.new result }
    ensures upper_bound { number < 100000 → result ≤ at + 24 }
{
    let number_end = write_number(out, at, number);
    let refusal_end = write_field(out, number_end, b" file refused ", refusal as u32);
    write_text(out, refusal_end, b"\n")
}

// The last line, where the first record was accepted.
pub fn write_end_line(
    out: &mut [u8],
    at: usize,
    runs: u32,
    wire: u32,
    cache: u32,
    clock: u32,
) -> usize
    requires { at + LONGEST ≤ length out.old }
    ensures { Wrote out.old at (end_line runs wire cache clock) out.new result }
{
    let runs_end = write_field(out, at, b"end runs ", runs);
    let wire_end = write_field(out, runs_end, b" wire ", wire);
    let cache_end = write_field(out, wire_end, b" cache ", cache);
    let clock_end = write_field(out, cache_end, b" clock ", clock);
    write_text(out, clock_end, b"\n")
}
