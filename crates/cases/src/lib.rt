// Stored cases, as a program has them on its standard input: lines of 68 bytes. Each begins with a letter, which says what
// the line is for. Behind it stand six numbers, each after a blank and set to the right in ten places, or else a text,
// filled up with dots.
#![tactic(auto)]

use refusals::Refusal;

const STDIN: i32 = 0;

const STDOUT: i32 = 1;

// Lines that a program reads at most.
pub const LINES: usize = 65536;

// The bytes of a line, with its end.
pub const LINE: usize = 68;

// Numbers in a line, and the bytes from one to the next.
pub const NUMBERS: usize = 6;

const STRIDE: usize = 11;

// Where a text begins and where it ends at the latest.
const FIRST: usize = 2;

const LAST: usize = 67;

// A line's letter, its numbers in their order, and all its bytes.
#[derive(Clone, Copy)]
pub struct Line {
    pub letter: u8,
    pub numbers: [u32; NUMBERS],
    pub bytes: [u8; LINE],
}

// The number in ten places. A blank counts as 0.
fn number(places: &[u8]) -> u32 {
    let mut sum: u32 = 0;
    for byte in places {
        sum = sum.wrapping_mul(10).wrapping_add(u32::from(*byte % 16));
    }
    sum
}

impl From<[u8; LINE]> for Line {
    fn from(bytes: [u8; LINE]) -> Line {
        let mut numbers = [0; NUMBERS];
        for i in 0..NUMBERS {
            let first = FIRST + STRIDE * i;
            numbers[i] = number(&bytes[first..first + STRIDE - 1]);
        }
        Line {
            letter: bytes[0],
            numbers,
            bytes,
        }
    }
}

// The next line of the standard input, if there is one; one with the letter 0 is none.
pub fn next() -> Option<Line> {
    let mut bytes = [0u8; LINE];
    if io::read_full(STDIN, &mut bytes) < LINE || bytes[0] == 0 {
        return None;
    }
    Some(Line::from(bytes))
}

impl Line {
    // Writes the text of a line: the dots behind it are none of it.
    pub fn print_text(self) {
        let text = &self.bytes[FIRST..LAST];
        let end = text
            .iter()
            .rposition(|byte| *byte != b'.')
            .map_or(0, |last| last + 1);
        io::write_all(STDOUT, &text[..end]);
    }
}

// The word of a term; its kind is any of 16 bits.
pub fn word(kind: u32, l: u32, r: u32) -> u64 {
    u64::from(kind) % 65536 * 4294967296 + u64::from(l) % 65536 * 65536 + u64::from(r) % 65536
}

// Writes a number behind its name.
pub fn print_number(name: &[u8], n: u64) {
    io::write_all(STDOUT, name);
    io::print_decimal(STDOUT, n);
}

// Writes the number of a refusal.
pub fn print_refused(number: u8) {
    print_number(b": refused ", u64::from(number));
}

// Writes whether the intruder can derive a term, and ends the line.
pub fn print_derivable(answer: Result<bool, Refusal>) {
    match answer {
        Ok(true) => {
            io::write_all(STDOUT, b": derivable\n");
        }
        Ok(false) => {
            io::write_all(STDOUT, b": not derivable\n");
        }
        Err(refusal) => {
            print_refused(u8::from(refusal));
            io::write_all(STDOUT, b"\n");
        }
    }
}

// Writes each place of a table that has changed, with its word in base 16.
pub fn print_changes(name: &[u8], before: &[u64], after: &[u64]) {
    for (i, (old, new)) in before.iter().zip(after).enumerate() {
        if old != new {
            print_number(name, i as u64);
            io::write_all(STDOUT, b" = ");
            io::print_hex(STDOUT, *new, 1);
        }
    }
}
