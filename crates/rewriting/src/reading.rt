// The records of a file as words, as the writer takes them: seven a record, at the front of a lent slice.
ghost use Rattle.std.specs.Prelude.{◌≡◌, ◌≤◌, length};
ghost use Rattle.fields.specs.Placed.{Wrote};
ghost use Rattle.raw_records.specs.Calls.{call_words};
ghost use Rattle.refusals.specs.Numbers.{numbered};
ghost use Rattle.rewriting.specs.Reading.{file_words, read_outcome, read_of};

use exchange::call::Call;
use records::record::{STEP_MARK, TERM_MARK, read_record};
use refusals::Refusal;

// Seven words at the front.
fn put(words: &mut [u32], seven: [u32; 7]) -> usize
    requires { 7 ≤ length words.old }
    ensures { Wrote words.old 0 seven words.new result }
{
    words[..7].copy_from_slice(&seven);
    7
}

// The words of a call; a term has three fields.
fn put_call(words: &mut [u32], call: Call) -> usize
    requires { 7 ≤ length words.old }
    ensures { Wrote words.old 0 (call_words call) words.new result }
{
    let seven = match call {
        Call::Term { kind, l, r } => [TERM_MARK as u32, kind as u32, l as u32, r as u32, 0, 0, 0],
        Call::Step {
            step,
            run,
            a,
            b,
            m,
            t,
        } => [
            STEP_MARK as u32,
            step as u32,
            run as u32,
            a as u32,
            b as u32,
            m as u32,
            t,
        ],
    };
    put(words, seven)
}

// The words of all records from a place on, up to the end of the file, and how many they are; or refusal 3, which a record gave.
pub fn read_words(file: &[u8], from: usize, words: &mut [u32]) -> Result<usize, Refusal>
    requires { length (file_words from file.now) ≤ length words.old }
    ensures { read_outcome (numbered result) words.new ≡ read_of from file.now words.old }
{
    let mut at = from;
    let mut end: usize = 0;
    while let Some(record) = read_record(file, at)? {
        let written = put_call(&mut words[end..], record.call);
        end += written;
        at = record.next;
    }
    Ok(end)
}
