// Runs stored walk files and compares each listing with the one stored for it, which the reference made. Each file that reads
// whole is also written back and compared with its own bytes. A line for each disagreement, then the totals.
//
// The list of them is the file `files`: on its first line the number of walks, then for each the name of its walk file and,
// on the next line, that of its listing.
#![tactic(auto)]

ghost use Rattle.std.specs.Prelude.{◌≡◌, ◌<◌, ◌≤◌, is_none, length};
ghost use Rattle.io.specs.Counts.{IsPrefixLen};

use check::same;
use comparison::{NEWLINE, Totals};
use input::{Input, Stop, read_behind};
use io::{print_decimal, write_all};
use judging::judge;
use rewriting::back::rewrite;
use std::fs::File;
use std::rt::Files;
use std::str::from_utf8;
use walkfile::LISTING_BYTES;

// Each buffer has room for a byte more than its longest file, so that the file's end shows.
const WALK_BYTES: usize = 65538;

const STORED_BYTES: usize = LISTING_BYTES + 1;

const LIST_BYTES: usize = 65536;

const STDOUT_FILENO: i32 = 1;

// Of a file that cannot be opened.
const UNREAD: Input = Input {
    count: 0,
    stop: Stop::Failed,
};

// What was read of a file. One that cannot be opened counts as one that cannot be read.
fn read_named<R: Files>(rt: &R, path: &[u8], buffer: &mut [u8]) -> Input
    ensures { IsPrefixLen result.count buffer.new }
{
    let Ok(name) = from_utf8(path) else {
        return UNREAD;
    };
    match File::open(rt, name) {
        Ok(mut file) => read_behind(&mut file, buffer, 0),
        Err(_) => UNREAD,
    }
}

// How many bytes of a file were read; a line if they are not all of it, or if it fills the buffer, so that its end does not
// show.
fn read_file<R: Files>(rt: &R, path: &[u8], buffer: &mut [u8]) -> usize
    ensures { IsPrefixLen result buffer.new }
{
    let input = read_named(rt, path, buffer);
    if input.stop != Stop::End {
        write_all(STDOUT_FILENO, path);
        write_all(STDOUT_FILENO, b": cannot be read whole\n");
    }
    input.count
}

// Whether two texts are the same, by the line where they differ first; a line of it if they are not.
fn told(walk: &[u8], text: &[u8], difference: Option<usize>) -> bool
    ensures { result ≡ is_none difference }
{
    if let Some(line) = difference {
        write_all(STDOUT_FILENO, walk);
        write_all(STDOUT_FILENO, text);
        print_decimal(STDOUT_FILENO, line as u64);
        write_all(STDOUT_FILENO, b" differs\n");
    }
    difference.is_none()
}

// Whether the listing of a walk file is the stored one.
fn agrees<R: Files>(rt: &R, walk: &[u8], file: &[u8], listing: &[u8]) -> bool {
    let mut stored = [0u8; STORED_BYTES];
    let end = read_file(rt, listing, &mut stored);
    told(walk, b": line ", judge(file, &stored[..end]))
}

// What came of a walk: whether its listing agrees, and whether its file was written back as it is, if it was written back.
#[derive(Clone, Copy)]
struct Seen {
    agrees: bool,
    same: Option<bool>,
}

fn look<R: Files>(rt: &R, walk: &[u8], listing: &[u8]) -> Seen {
    let mut file = [0u8; WALK_BYTES];
    let end = read_file(rt, walk, &mut file);
    let agrees = agrees(rt, walk, &file[..end], listing);
    let same = match rewrite(&file[..end]) {
        Ok(difference) => Some(told(walk, b": written back, line ", difference)),
        Err(_) => None,
    };
    Seen { agrees, same }
}

// Where the line after the one at `at` begins.
fn line_after(list: &[u8], at: usize) -> usize
    requires { at < length list.now }
    ensures { (at < result) × (result ≤ length list.now) }
{
    match list[at..].iter().position(|byte| *byte == NEWLINE) {
        Some(more) => at + more + 1,
        None => list.len(),
    }
}

#[derive(Clone, Copy)]
struct Results {
    listings: Totals,
    writings: Totals,
}

// The walks from `first` on. A list that is cut short names fewer than its first line says.
fn run<R: Files>(rt: &R, list: &[u8], first: usize) -> Results {
    let mut listings = Totals {
        compared: 0,
        differ: 0,
    };
    let mut writings = Totals {
        compared: 0,
        differ: 0,
    };
    let mut at = first;
    while at < list.len() {
        let middle = line_after(list, at);
        if middle == list.len() {
            break;
        }
        let next = line_after(list, middle);
        let seen = look(rt, &list[at..middle - 1], &list[middle..next - 1]);
        listings = listings.counted(seen.agrees);
        if let Some(same) = seen.same {
            writings = writings.counted(same);
        }
        at = next;
    }
    Results { listings, writings }
}

fn print_totals(totals: Totals, text: &[u8]) {
    print_decimal(STDOUT_FILENO, totals.compared);
    write_all(STDOUT_FILENO, text);
    print_decimal(STDOUT_FILENO, totals.differ);
    write_all(STDOUT_FILENO, b" differ\n");
}

fn run_list<R: Files>(rt: &R, list: &[u8]) {
    if list.len() == 0 {
        write_all(STDOUT_FILENO, b"files: empty\n");
        return;
    }
    let first = line_after(list, 0);
    let results = run(rt, list, first);
    let listings = results.listings;
    let writings = results.writings;
    let mut digits = [0u8; 20];
    let count = io::decimal(listings.compared, &mut digits);
    if !same(&list[0..first - 1], &digits[..count]) {
        write_all(
            STDOUT_FILENO,
            b"files: not the number of walks that the first line says\n",
        );
    }
    print_totals(listings, b" walks, ");
    print_totals(writings, b" written back, ");
}

fn main(rt: HostRuntime) {
    let mut list = [0u8; LIST_BYTES];
    let count = read_file(&rt, b"files", &mut list);
    run_list(&rt, &list[..count]);
}
