// The list of records that is handed in: seven words a record, its mark and then its fields in the order of the file. A term has
// three fields; the words after them are not read.
ghost use Rattle.std.specs.Prelude.{◌≡◌, ◌+◌, ◌≤◌, length};
ghost use Rattle.raw_records.specs.Raw.{raw_at};

use records::record::{STEP_MARK, TERM_MARK};

// Words in a record.
pub const RECORD_WORDS: usize = 7;

// A record as it was handed in: any numbers.
#[derive(Clone, Copy)]
pub enum RawRecord {
    Term {
        kind: u32,
        l: u32,
        r: u32,
    },
    Step {
        step: u32,
        run: u32,
        a: u32,
        b: u32,
        m: u32,
        t: u32,
    },
}

// The record whose words begin at `at`; none where its mark is another.
pub fn raw_at(words: &[u32], at: usize) -> Option<RawRecord>
    requires { at + 7 ≤ length words.now }
    ensures { result ≡ raw_at words.now at }
{
    let mark = words[at];
    if mark == TERM_MARK as u32 {
        return Some(RawRecord::Term {
            kind: words[at + 1],
            l: words[at + 2],
            r: words[at + 3],
        });
    }
    if mark == STEP_MARK as u32 {
        return Some(RawRecord::Step {
            step: words[at + 1],
            run: words[at + 2],
            a: words[at + 3],
            b: words[at + 4],
            m: words[at + 5],
            t: words[at + 6],
        });
    }
    None
}
