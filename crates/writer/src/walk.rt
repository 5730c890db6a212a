// A whole walk: everything is looked at before the first byte is written, so that a refused call keeps the buffer.
ghost use Rattle.std.specs.Prelude.{◌≡◌, ◌+◌, ◌≤◌, length};
ghost use Rattle.refusals.specs.Numbers.{number_of, numbered};
ghost use Rattle.fields.specs.Placed.{Wrote};
ghost use Rattle.records.specs.Headers.{header_width};
ghost use Rattle.raw_records.specs.Raw.{records_of};
ghost use Rattle.writer.specs.File.{records_in_bytes, file_of};
ghost use Rattle.writer.specs.Write.{length_refusal, room_refusal, measured_refusal, write_outcome, write_of};
ghost use Rattle.writer.specs.Progress.{Measures};

use super::record::{record_width, write_header, write_record};
use exchange::header::Header;
use raw_records::raw::{RECORD_WORDS, raw_at};
use raw_records::refusal::check_records;
use realm::header::check_header;
use records::header::{MAX_FILE, header_width};
use refusals::Refusal;

// How many bytes the file takes, or any number above its limit if it takes more.
fn measure(mark: u16, words: &[u32]) -> usize
    ensures { Measures result (header_width mark + length (records_in_bytes (records_of words.now))) }
{
    let count = words.len() / RECORD_WORDS;
    let mut bytes = header_width(mark);
    for i in 0..count {
        bytes += record_width(raw_at(words, i * RECORD_WORDS));
        if MAX_FILE < bytes {
            return bytes;
        }
    }
    bytes
}

fn check_length(bytes: usize) -> Result<(), Refusal>
    ensures { number_of result ≡ length_refusal bytes }
{
    if MAX_FILE < bytes {
        return Err(Refusal::File);
    }
    Ok(())
}

fn check_room(places: usize, at: usize, bytes: usize) -> Result<(), Refusal>
    ensures { number_of result ≡ room_refusal places at bytes }
{
    if places < at || places - at < bytes {
        return Err(Refusal::Room);
    }
    Ok(())
}

// All that is looked at, one after another: the first that refuses decides.
#[tactic(auto, using(crate::proofs::Write::first_later, raw_records::proofs::Refusals::first_some, raw_records::proofs::Refusals::first_none, refusals::proofs::Numbers::not_0))]
fn check_walk(
    header: Header,
    words: &[u32],
    places: usize,
    at: usize,
    bytes: usize,
) -> Result<(), Refusal>
    ensures { number_of result ≡ measured_refusal bytes header (records_of words.now) places at }
{
    check_length(bytes)?;
    check_header(header)?;
    check_records(words, header.n)?;
    check_room(places, at, bytes)
}

// The records, one after another; each is lent the buffer's part from where the one before it ended.
fn write_records(out: &mut [u8], at: usize, words: &[u32]) -> usize
    requires { at + length (records_in_bytes (records_of words.now)) ≤ length out.old }
    ensures { Wrote out.old at (records_in_bytes (records_of words.now)) out.new result }
{
    let count = words.len() / RECORD_WORDS;
    let mut end = at;
    for i in 0..count {
        let raw = raw_at(words, i * RECORD_WORDS);
        end += write_record(&mut out[end..], raw);
    }
    end
}

// The header and the records.
fn write_file(out: &mut [u8], at: usize, header: Header, words: &[u32]) -> usize
    requires { at + length (file_of header (records_of words.now)) ≤ length out.old }
    ensures { Wrote out.old at (file_of header (records_of words.now)) out.new result }
{
    let written = write_header(&mut out[at..], header);
    write_records(out, at + written, words)
}

// A header and a list of records into the buffer, from an offset on, and how many bytes they take; or a refusal, and the buffer is as
// it was.
pub fn write_walk(
    header: Header,
    words: &[u32],
    out: &mut [u8],
    at: usize,
) -> Result<usize, Refusal>
    ensures { write_outcome (numbered result) out.new ≡ write_of header words.now out.old at }
{
    let bytes = measure(header.mark, words);
    check_walk(header, words, out.len(), at, bytes)?;
    let end = write_file(out, at, header, words);
    Ok(end - at)
}
