// A table with a draft, and what a line does with them.
use super::show::{print_added, print_found, print_stored};
use cases::{Line, print_changes, word};
use drafts::{DraftKey, Node};
use lent_terms::{add_term, find_term};
use messages::lent::add_message;
use terms::table::{Added, MAX_TERMS};

const PRINCIPALS: u16 = 3;

// The table has a place more than it should.
#[derive(Clone, Copy)]
pub struct Table {
    terms: [u64; 513],
    count: usize,
    // how many places are lent
    places: usize,
    draft: [Node; 16],
}

fn half(x: u32) -> u16 {
    (x % 65536) as u16
}

fn node(kind: u32, x: u32, y: u32) -> Node {
    match kind {
        0 => Node::Principal(half(x)),
        1 => Node::Time(x),
        2 => Node::Nonce(half(x)),
        3 => Node::Key(DraftKey::LongTerm(half(x))),
        4 => Node::Key(DraftKey::Session(half(x))),
        5 => Node::Pair(x as usize, y as usize),
        6 => Node::Encrypted(x as usize, DraftKey::LongTerm(half(y))),
        7 => Node::Encrypted(x as usize, DraftKey::Session(half(y))),
        _ => Node::Stored(half(x)),
    }
}

impl Table {
    // Nothing that stands in the places is a term.
    pub fn new() -> Table {
        Table {
            terms: [77777777777777; 513],
            count: 0,
            places: MAX_TERMS,
            draft: [Node::Principal(0); 16],
        }
    }

    fn find(&self, term: u64) {
        let terms = &self.terms[..self.places.min(513)];
        print_found(find_term(terms, self.count, PRINCIPALS, term));
    }

    fn add(&mut self, term: u64) {
        let before = self.terms;
        let places = self.places.min(513);
        let count = self.count;
        let answer = add_term(&mut self.terms[..places], count, PRINCIPALS, term);
        print_added(answer);
        if let Ok(Added::New(i)) = answer {
            self.count = i.min(MAX_TERMS) + 1;
        }
        print_changes(b", term ", &before, &self.terms);
    }

    fn store(&mut self, root: usize) {
        let before = self.terms;
        let places = self.places.min(513);
        let count = self.count;
        let draft = self.draft;
        let answer = add_message(&mut self.terms[..places], count, PRINCIPALS, draft, root);
        print_stored(answer);
        if let Ok(stored) = answer {
            self.count = stored.count;
        }
        print_changes(b", term ", &before, &self.terms);
    }

    // Makes a call, and ends the line of its answer.
    fn call(&mut self, line: Line) {
        let [a, b, c, ..] = line.numbers;
        match line.letter {
            b'F' => self.find(word(a, b, c)),
            b'A' => self.add(word(a, b, c)),
            _ => self.store(a as usize),
        }
        io::write_all(1, b"\n");
    }

    // Does what a line says.
    pub fn obey(&mut self, line: Line) {
        let [a, b, c, d, ..] = line.numbers;
        match line.letter {
            b'L' => line.print_text(),
            b'N' => *self = Table::new(),
            b'C' => {
                self.count = a as usize;
                self.places = b as usize;
            }
            b'T' => {
                if let Some(place) = self.terms.get_mut(a as usize) {
                    *place = word(b, c, d);
                }
            }
            b'D' => {
                if let Some(place) = self.draft.get_mut(a as usize) {
                    *place = node(b, c, d);
                }
            }
            _ => self.call(line),
        }
    }
}
