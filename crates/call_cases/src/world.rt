// A realm with tables of its own, and what a line does with them.
use super::show::{print_answer, print_cache, print_ok, print_realm, print_runs};
use calls::call;
use cases::{Line, NUMBERS, print_changes, print_refused, word};
use exchange::call::Call;
use exchange::header::Header;
use lent_cache::{forget, remember};
use realm::header::{Realm, open_realm};
use refusals::Refusal;
use replay::entry::{Entry, Purge};

// The words of a run.
const ROW: usize = 7;

// Each table has a place more than it should.
#[derive(Clone, Copy)]
pub struct World {
    realm: Realm,
    terms: [u64; 513],
    runs: [u32; 449],
    wire: [u64; 9],
    cache: [Entry; 17],
    // how much of each table is lent
    term_places: usize,
    run_words: usize,
    wire_words: usize,
    cache_places: usize,
}

fn byte(x: u32) -> u8 {
    (x % 256) as u8
}

fn half(x: u32) -> u16 {
    (x % 65536) as u16
}

fn term_call(numbers: [u32; NUMBERS]) -> Call {
    let [kind, l, r, ..] = numbers;
    Call::Term {
        kind: byte(kind),
        l: half(l),
        r: half(r),
    }
}

fn step_call(numbers: [u32; NUMBERS]) -> Call {
    let [step, run, a, b, m, t] = numbers;
    Call::Step {
        step: byte(step),
        run: byte(run),
        a: byte(a),
        b: byte(b),
        m: half(m),
        t,
    }
}

impl World {
    // Nothing is in use, and nothing that stands in the places could be.
    pub fn new() -> World {
        World {
            realm: Realm {
                n: 0,
                rules: 0,
                flags: 0,
                ls: 0,
                la: 0,
                clock: 0,
                terms: 0,
                runs: 0,
                entries: 0,
            },
            terms: [77777777777777; 513],
            runs: [77; 449],
            wire: [0; 9],
            cache: [Entry {
                b: 77,
                k: 777,
                ta: 7,
            }; 17],
            term_places: 512,
            run_words: 448,
            wire_words: 8,
            cache_places: 16,
        }
    }

    // Writes what has changed, after the answer.
    fn print_changed(&self, before: &World) {
        print_realm(before.realm, self.realm);
        print_changes(b", term ", &before.terms, &self.terms);
        print_changes(b", wire ", &before.wire, &self.wire);
        print_runs(&before.runs, &self.runs);
        print_cache(&before.cache, &self.cache);
        io::write_all(1, b"\n");
    }

    fn set_header(&mut self, numbers: [u32; NUMBERS]) {
        let [n, flags, ls, la, clock, places] = numbers;
        self.realm.n = byte(n);
        self.realm.flags = flags;
        self.realm.ls = ls;
        self.realm.la = la;
        self.realm.clock = clock;
        self.cache_places = places as usize;
    }

    fn set_counts(&mut self, numbers: [u32; NUMBERS]) {
        let [terms, runs, entries, places, rows, words] = numbers;
        self.realm.terms = terms as usize;
        self.realm.runs = runs as usize;
        self.realm.entries = entries as usize;
        self.term_places = places as usize;
        self.run_words = rows as usize;
        self.wire_words = words as usize;
    }

    fn set_term(&mut self, numbers: [u32; NUMBERS]) {
        let [place, kind, l, r, ..] = numbers;
        if let Some(term) = self.terms.get_mut(place as usize) {
            *term = word(kind, l, r);
        }
    }

    fn set_run(&mut self, numbers: [u32; NUMBERS]) {
        let [run, field, value, ..] = numbers;
        let row = run as usize;
        let column = field as usize;
        if row < 64 && column < ROW {
            self.runs[row * ROW + column] = value;
        }
    }

    fn set_wire(&mut self, numbers: [u32; NUMBERS]) {
        let [place, upper, lower, ..] = numbers;
        if let Some(marks) = self.wire.get_mut(place as usize) {
            *marks = u64::from(upper) * 4294967296 + u64::from(lower);
        }
    }

    fn set_entry(&mut self, numbers: [u32; NUMBERS]) {
        let [place, b, k, ta, ..] = numbers;
        if let Some(entry) = self.cache.get_mut(place as usize) {
            *entry = Entry {
                b: half(b),
                k: half(k),
                ta,
            };
        }
    }

    // Opens a realm.
    fn open(&mut self, numbers: [u32; NUMBERS]) {
        let [mark, n, flags, ls, la, ..] = numbers;
        let header = Header {
            mark: half(mark),
            n: byte(n),
            flags,
            ls,
            la,
        };
        match open_realm(header) {
            Ok(realm) => {
                self.realm = realm;
                print_ok();
            }
            Err(refusal) => print_refused(u8::from(refusal)),
        }
    }

    // Makes a call on the first places of the tables.
    fn call(&mut self, c: Call) {
        let realm = self.realm;
        let places = self.term_places.min(513);
        let rows = self.run_words.min(449);
        let words = self.wire_words.min(9);
        let entries = self.cache_places.min(17);
        // A loan of one field through `self` keeps the others from being lent beside it.
        let mut terms = self.terms;
        let mut runs = self.runs;
        let mut wire = self.wire;
        let mut cache = self.cache;
        let called = call(
            realm,
            &mut terms[..places],
            &mut runs[..rows],
            &mut wire[..words],
            &mut cache[..entries],
            c,
        );
        self.terms = terms;
        self.runs = runs;
        self.wire = wire;
        self.cache = cache;
        self.realm = called.realm;
        print_answer(called.answer);
    }

    // What `remember` or `forget` answers of the count of entries.
    fn count(&mut self, answer: Result<usize, Refusal>) {
        match answer {
            Ok(count) => {
                self.realm.entries = count;
                print_ok();
            }
            Err(refusal) => print_refused(u8::from(refusal)),
        }
    }

    fn remember(&mut self, numbers: [u32; NUMBERS]) {
        let [b, k, ta, ..] = numbers;
        let entry = Entry {
            b: half(b),
            k: half(k),
            ta,
        };
        let places = self.cache_places.min(17);
        let count = self.realm.entries;
        let answer = remember(&mut self.cache[..places], count, entry);
        self.count(answer);
    }

    fn forget(&mut self, numbers: [u32; NUMBERS]) {
        let [b, clock, la, ..] = numbers;
        let purge = Purge {
            b: half(b),
            clock,
            la,
        };
        let places = self.cache_places.min(17);
        let count = self.realm.entries;
        let answer = forget(&mut self.cache[..places], count, purge);
        self.count(answer);
    }

    // Makes a call, and writes its answer with what has changed.
    fn make(&mut self, line: Line) {
        let before = *self;
        let numbers = line.numbers;
        match line.letter {
            b'O' => self.open(numbers),
            b'M' => self.remember(numbers),
            b'F' => self.forget(numbers),
            b'A' => self.call(term_call(numbers)),
            _ => self.call(step_call(numbers)),
        }
        self.print_changed(&before);
    }

    // Does what a line says.
    pub fn obey(&mut self, line: Line) {
        let numbers = line.numbers;
        match line.letter {
            b'L' => line.print_text(),
            b'N' => *self = World::new(),
            b'H' => self.set_header(numbers),
            b'G' => self.realm.rules = byte(numbers[0]),
            b'C' => self.set_counts(numbers),
            b'T' => self.set_term(numbers),
            b'R' => self.set_run(numbers),
            b'W' => self.set_wire(numbers),
            b'E' => self.set_entry(numbers),
            _ => self.make(line),
        }
    }
}
