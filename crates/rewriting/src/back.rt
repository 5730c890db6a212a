// A walk file written back, and held to its own bytes.
ghost use Rattle.std.specs.Prelude.{◌≡◌};
ghost use Rattle.rewriting.specs.declared.back.Unwritten.TheVariants.{Refused};
ghost use Rattle.rewriting.specs.Rewriting.{outcome, written_back, rewritten_of};

use super::reading::read_words;
use comparison::first_difference;
use exchange::header::Header;
use records::header::{MAX_FILE, header_width, read_header};
use refusals::Refusal;
use writer::walk::write_walk;

// Room for the words of any file's records. A record takes at least 7 bytes of the file, so a file of 65,536 bytes has at most
// 9,360 of them after its header.
const MAX_WORDS: usize = 65520;

// Where the file is written to in the buffer, and room for it there.
const OFFSET: usize = 5;

const PLACES: usize = OFFSET + MAX_FILE;

// Why a file was not written back.
#[derive(Clone, Copy, Debug, PartialEq, Eq)]
pub enum Unwritten {
    // The header gave 1 or a record gave 3: there is nothing to write.
    Unread,
    // The writer turned it away.
    Refused(Refusal),
}

impl From<Refusal> for Unwritten {
    ghost from_gives = { λ refusal e. e ≡ Refused refusal };

    fn from(refusal: Refusal) -> Unwritten {
        Unwritten::Refused(refusal)
    }
}

// A header and records that were read from a file, written into a buffer and compared with the file.
fn write_back(header: Header, words: &[u32], file: &[u8]) -> Result<Option<usize>, Unwritten>
    ensures { outcome result ≡ written_back header words.now file.now }
{
    let mut out = [0u8; PLACES];
    let count = write_walk(header, words, &mut out, OFFSET)?;
    let end = OFFSET + count;
    Ok(first_difference(&out[OFFSET..end], file))
}

// A file read, and written back if it reads whole: the line where what was written differs from the file first, or none.
pub fn rewrite(file: &[u8]) -> Result<Option<usize>, Unwritten>
    ensures { outcome result ≡ rewritten_of file.now }
{
    let Ok(header) = read_header(file) else {
        return Err(Unwritten::Unread);
    };
    let from = header_width(header.mark);
    let mut words = [0u32; MAX_WORDS];
    let Ok(end) = read_words(file, from, &mut words) else {
        return Err(Unwritten::Unread);
    };
    write_back(header, &words[..end], file)
}
