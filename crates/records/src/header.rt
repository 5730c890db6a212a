// The header of a file: its mark, n (1 byte), flags (2 or 4, by the mark), Ls (4), La (4).
ghost use Rattle.std.specs.Prelude.{◌≡◌, ◌≤◌, length};
ghost use Rattle.records.specs.Headers.{lives_at, header_width, flags_in, header_by, header_of};
ghost use Rattle.refusals.specs.Numbers.{numbered};

use super::field::{u16_at, u32_at};
use exchange::header::{Flags, Format, Header, format_of};
use refusals::Refusal;

// Bytes in a file at most.
pub const MAX_FILE: usize = 65536;

const MARK_BYTES: usize = 2;

// Where the flags begin, behind the mark and n.
const FLAGS_AT: usize = 3;

const LIVES_BYTES: usize = 8;

// Where the lives begin, behind the flags.
fn lives_at(flags: Flags) -> usize
    ensures { result ≡ lives_at flags }
{
    match flags {
        Flags::Bits16 => FLAGS_AT + 2,
        Flags::Bits32 => FLAGS_AT + 4,
    }
}

// Where the first record after the header begins; a mark that is not known has no header.
pub fn header_width(mark: u16) -> usize
    ensures { result ≡ header_width mark }
{
    match format_of(mark) {
        Some(format) => {
            let flags = format.flags;
            lives_at(flags) + LIVES_BYTES
        }
        None => 0,
    }
}

fn flags_in(file: &[u8], flags: Flags) -> u32
    requires { lives_at flags ≤ length file.now }
    ensures { result ≡ flags_in flags file.now }
{
    match flags {
        Flags::Bits16 => u16_at(file, FLAGS_AT) as u32,
        Flags::Bits32 => u32_at(file, FLAGS_AT),
    }
}

// The header that a file of this format begins with, if it is whole: the values as they stand in the file. Whether a realm can have
// them is refusal 2, which is not decided here.
fn header_by(format: Format, file: &[u8]) -> Result<Header, Refusal>
    ensures { numbered result ≡ header_by format file.now }
{
    let mark = format.mark;
    let width = format.flags;
    let lives = lives_at(width);
    if file.len() < lives + LIVES_BYTES {
        return Err(Refusal::File);
    }
    let flags = flags_in(file, width);
    let ls = u32_at(file, lives);
    let la = u32_at(file, lives + 4);
    Ok(Header {
        mark,
        n: file[2],
        flags,
        ls,
        la,
    })
}

// The header of a file, or refusal 1.
pub fn read_header(file: &[u8]) -> Result<Header, Refusal>
    ensures { numbered result ≡ header_of file.now }
{
    if MAX_FILE < file.len() {
        return Err(Refusal::File);
    }
    if file.len() < MARK_BYTES {
        return Err(Refusal::File);
    }
    match format_of(u16_at(file, 0)) {
        Some(format) => header_by(format, file),
        None => Err(Refusal::File),
    }
}
