// Which words adding a message puts into the term table. They are all known before the first is written.
ghost use Rattle.std.specs.Prelude.{◌≡◌, ◌+◌, ◌<◌, ◌≤◌, length};
ghost use Rattle.messages.specs.Plan.{empty_plan, WordPlanned, Ready, NodePlanned, with_plan, note_in};

use drafts::{Layer, Node, layer_of};
use term_table::find;
use words::Term;

// The words to put behind the terms, the first `count` of `words`. `numbers` notes for each node of the draft that has
// been looked at the number of its term and one, else 0, so that no node is looked at twice.
#[derive(Clone, Copy)]
pub struct Plan {
    pub words: [u64; 32],
    pub count: usize,
    pub numbers: [u16; 16],
}

impl Plan {
    // Nothing planned, and no node looked at.
    pub fn new() -> Plan
        ensures { result ≡ empty_plan }
    {
        Plan {
            words: [0; 32],
            count: 0,
            numbers: [0; 16],
        }
    }

    // Plans one word more, unless it is planned or stands in the table, and gives its number.
    fn add_word(&mut self, terms: &[u64], count: usize, word: u64) -> u16
        requires { (length terms.now ≡ 512) × (count ≤ 512) × (self.old.count < 32) }
        ensures { WordPlanned terms.now count self.old.words self.old.count word result self.new.words self.new.count × (self.new.numbers ≡ self.old.numbers) }
    {
        if let Some(j) = find(&self.words, self.count, word) {
            return (count + j) as u16;
        }
        if let Some(i) = find(terms, count, word) {
            return i as u16;
        }
        let number = (count + self.count) as u16;
        self.words[self.count] = word;
        self.count += 1;
        number
    }

    // Plans the word of node k itself, and notes its number.
    fn add_own(&mut self, terms: &[u64], count: usize, k: usize, word: u64) -> u16
        requires { (length terms.now ≡ 512) × (count ≤ 512) × (self.old.count < 32) × (k < 16) }
        ensures { WordPlanned terms.now count self.old.words self.old.count word result self.new.words self.new.count × (self.new.numbers ≡ note_in self.old.numbers k result) }
    {
        let own = self.add_word(terms, count, word);
        self.numbers[k] = own + 1;
        own
    }

    // Plans the message of node k: its operands' messages, left before right, body before key, and then its own term. The
    // operands are earlier nodes.
    pub fn add_node(&mut self, terms: &[u64], count: usize, draft: &[Node; 16], k: usize) -> u16
        requires { Ready terms.now count draft.now self.old × (k < 16) }
        ensures { NodePlanned terms.now count draft.now k self.old result self.new }
    {
        let seen = self.numbers[k];
        if seen != 0 {
            return seen - 1;
        }
        match layer_of(draft[k]) {
            Layer::Stored(i) => i,
            Layer::Atom(word) => self.add_own(terms, count, k, word),
            Layer::Pair(l, r) => {
                let left = self.add_node(terms, count, draft, l);
                let right = self.add_node(terms, count, draft, r);
                let word = u64::from(Term::Pair(left, right));
                self.add_own(terms, count, k, word)
            }
            Layer::Encrypted(b, key) => {
                let body = self.add_node(terms, count, draft, b);
                let under = self.add_word(terms, count, key);
                let word = u64::from(Term::Encrypted(body, under));
                self.add_own(terms, count, k, word)
            }
        }
    }
}

// Writes the planned words behind the first `count`.
pub fn write_plan(terms: &mut [u64], count: usize, words: &[u64], planned: usize)
    requires { (length terms.old ≡ 512) × (count + planned ≤ 512) × (planned ≤ length words.now) }
    ensures { terms.new ≡ with_plan terms.old count words.now planned }
{
    terms[count..count + planned].copy_from_slice(&words[..planned]);
}
