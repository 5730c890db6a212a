// A walk file's bytes to its listing: the header, then the calls of its records on tables of its own, a line for each.
#![tactic(auto)]

ghost use Rattle.std.specs.Prelude.{◌≡◌, ◌≤◌, length};
ghost use Rattle.fields.specs.Placed.{Wrote};
ghost use Rattle.walkfile.specs.Walking.{Walkable};
ghost use Rattle.walkfile.specs.Listing.{listing_bytes, walk_lines, list_outcome, listed};

use engine::call::call;
use exchange::call::Call;
use lines::{write_call_line, write_end_line, write_file_line, write_header_line};
use marks::members;
use realm::header::{Realm, open_realm};
use records::header::{header_width, read_header};
use records::record::read_record;
use refusals::Refusal;
use replay::entry::EMPTY;
use synthesis::knowledge::Knowledge;

// Room for any listing. A call takes at least 7 bytes of the file, so a file of 65,536 bytes has at most 9,360 of them.
// With the header's line and that of refusal 3 these are 9,362 lines of at most 24 bytes, and a last one of at most 70.
pub const LISTING_BYTES: usize = 224758;

// The listing of a file whose header, of this mark, opened a realm.
fn walk_records(h: Realm, mark: u16, file: &[u8], out: &mut [u8]) -> usize
    requires { Walkable h mark file.now × (listing_bytes ≤ length out.old) }
    ensures { Wrote out.old 0 (walk_lines h mark file.now) out.new result }
{
    let mut terms = [0u64; 512];
    let mut runs = [0u32; 448];
    let mut wire = [0u64; 8];
    let mut known = Knowledge::new();
    let mut cache = [EMPTY; 16];
    let mut realm = h;
    let mut at = header_width(mark);
    let mut number: u32 = 1;
    let mut end = write_header_line(out, 0, mark);
    while let Ok(Some(record)) = read_record(file, at) {
        let after = call(
            realm,
            &mut terms,
            &mut runs,
            &mut wire,
            &mut known,
            cache,
            record.call,
        );
        end = write_call_line(out, end, number, record.call, after.answer);
        realm = after.realm;
        cache = after.cache;
        at = record.next;
        number += 1;
    }
    if at < file.len() {
        end = write_file_line(out, end, number, u8::from(Refusal::Record));
    }
    write_end_line(
        out,
        end,
        realm.runs as u32,
        members(wire),
        realm.entries as u32,
        realm.clock,
    )
}

// The listing of a file, whatever its bytes: how many bytes of the buffer it takes; none where the buffer is shorter than
// LISTING_BYTES.
pub fn list(file: &[u8], out: &mut [u8]) -> Option<usize>
    ensures { list_outcome result out.new ≡ listed file.now out.old }
{
    if out.len() < LISTING_BYTES {
        return None;
    }
    match read_header(file) {
        Err(refusal) => Some(write_file_line(out, 0, 0, u8::from(refusal))),
        Ok(header) => match open_realm(header) {
            Err(refusal) => Some(write_file_line(out, 0, 0, u8::from(refusal))),
            Ok(h) => Some(walk_records(h, header.mark, file, out)),
        },
    }
}
