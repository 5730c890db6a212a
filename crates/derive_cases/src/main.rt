// What the intruder can derive: questions on stored tables, with the answer to each on a line. Among them are document 01's
// cases E, G, H and I, the faults under "Where the sheet went astray" that concern the intruder, and every refusal of
// can_derive. The realm is that of the server, principal 1, which is good, and principal 2, which is bad.
//
// The lines of the input, by their letters:
//   L  a text: what is asked next
//   C  how many terms there are; how many places of their table and how many words of the wire are lent
//   T  a place of the table; kind, L and R of what it holds
//   W  a word of the wire; its upper and its lower half
//   Q  a term's number: can the intruder derive it?
#![tactic(auto)]

use cases::{LINES, Line, print_derivable, word};
use deduction::Principals;
use synthesis::lent::can_derive;

// The tables, each with a place more than it should have.
#[derive(Clone, Copy)]
struct Tables {
    terms: [u64; 513],
    wire: [u64; 9],
    // how many terms there are
    count: usize,
    // how many places and words are lent
    places: usize,
    words: usize,
}

impl Tables {
    fn new() -> Tables {
        Tables {
            terms: [0; 513],
            wire: [0; 9],
            count: 0,
            places: 0,
            words: 0,
        }
    }

    fn ask(&self, t: usize) {
        let terms = &self.terms[..self.places.min(513)];
        let wire = &self.wire[..self.words.min(9)];
        let realm = Principals { n: 3, flags: 4 };
        print_derivable(can_derive(terms, self.count, realm, wire, t));
    }

    // Does what a line says.
    fn obey(&mut self, line: Line) {
        let [a, b, c, d, ..] = line.numbers;
        match line.letter {
            b'L' => line.print_text(),
            b'C' => {
                self.count = a as usize;
                self.places = b as usize;
                self.words = c as usize;
            }
            b'T' => {
                if let Some(place) = self.terms.get_mut(a as usize) {
                    *place = word(b, c, d);
                }
            }
            b'W' => {
                if let Some(place) = self.wire.get_mut(a as usize) {
                    *place = u64::from(b) * 4294967296 + u64::from(c);
                }
            }
            _ => self.ask(a as usize),
        }
    }
}

fn main() {
    let mut tables = Tables::new();
    for _ in 0..LINES {
        let Some(line) = cases::next() else { break };
        tables.obey(line);
    }
}
