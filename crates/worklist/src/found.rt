// The terms that have been found: a set of them, and a list in the order in which they were found. Each stands in the list once.
ghost use Rattle.std.specs.Prelude.{◌≡◌, ◌<◌, ◌≤◌, length, get_or};
ghost use Rattle.marks.specs.Marks.{marked};
ghost use Rattle.worklist.specs.Found.{blank, learn_of, notice_of, start_of};

use marks::{is_marked, mark};
use std::marker::Model;

#[derive(Drop)]
pub struct Found {
    known: [u64; 8],
    list: [u16; 512],
    count: usize,
}

impl Model for Found {
    ghost use Rattle.worklist.specs.Found.{Found, Room, as_found};

    ghost Value = { Found };

    ghost view = { λ a. as_found a.known a.list a.count };

    ghost invariant = { λ a. Room (as_found a.known a.list a.count) };
}

impl Found {
    // Nothing has been found.
    pub fn new() -> Found
        ensures { result ≡ blank }
    {
        Found {
            known: [0; 8],
            list: [0; 512],
            count: 0,
        }
    }

    // How many have been found.
    pub fn count(&self) -> usize
        ensures { result ≡ self.now.count }
    {
        self.count
    }

    // Whether term t has been found.
    pub fn has(&self, t: usize) -> bool
        requires { t < 512 }
        ensures { result ≡ marked self.now.known t }
    {
        is_marked(&self.known, t)
    }

    // The term that was found after i others.
    pub fn at(&self, i: usize) -> usize
        requires { i < self.now.count }
        ensures { result ≡ get_or self.now.list i 0 }
    {
        // The list is taken first: what the fields hold says that i has a place in it.
        let list = &self.list;
        list[i] as usize
    }

    // The set of them.
    pub fn known(self) -> [u64; 8]
        ensures { result ≡ self.known }
    {
        self.known
    }

    // Finds term t: if it is new, it goes into the set and behind the others of the list.
    pub fn learn(&mut self, t: usize)
        requires { t < 512 }
        ensures { self.new ≡ learn_of self.old t }
    {
        if self.has(t) {
            return;
        }
        mark(&mut self.known, t);
        self.list[self.count] = t as u16;
        self.count += 1;
    }

    // Finds term i, if it is on the wire.
    fn notice(&mut self, wire: &[u64], i: usize)
        requires { (length wire.now ≡ 8) × (i < 512) }
        ensures { self.new ≡ notice_of wire.now self.old i }
    {
        if is_marked(wire, i) {
            self.learn(i);
        }
    }

    // The terms on the wire, of the first `count`.
    pub fn on_wire(wire: &[u64], count: usize) -> Found
        requires { (length wire.now ≡ 8) × (count ≤ 512) }
        ensures { result ≡ start_of wire.now count blank }
    {
        let mut found = Found::new();
        for i in 0..count {
            found.notice(wire, i);
        }
        found
    }
}
