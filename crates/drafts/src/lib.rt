// A message that is to be added, laid out as a small table of its own. The operands of a node are earlier nodes; a node
// can also be a term that stands in the term table already.
#![tactic(auto)]

ghost use Rattle.std.specs.Prelude.{◌≡◌};
ghost use Rattle.drafts.specs.Draft.{key_fits, node_fits, draft_fits, word_of_key, layer_of};

use terms::rules::LAST_NUMBER;
use words::Term;

#[derive(Clone, Copy, Debug, PartialEq, Eq)]
pub enum DraftKey {
    LongTerm(u16),
    Session(u16),
}

#[derive(Clone, Copy, Debug, PartialEq, Eq)]
pub enum Node {
    Principal(u16),
    Time(u32),
    Nonce(u16),
    Key(DraftKey),
    Pair(usize, usize),
    Encrypted(usize, DraftKey),
    // The term of this number.
    Stored(u16),
}

// Nodes in a draft. A draft that needs fewer has `Time(0)` in the places left.
pub const NODES: usize = 16;

// Times are 32 bits.
pub const LAST_TIME: u32 = 4294967295;

// Whether a key is in range.
fn key_fits(key: DraftKey, n: u16) -> bool
    ensures { result ≡ key_fits n key }
{
    match key {
        DraftKey::LongTerm(p) => p < n,
        DraftKey::Session(i) => i <= LAST_NUMBER,
    }
}

// Whether a node can stand as number k of a draft: its fields in range, operands earlier nodes, a term that is present.
fn node_fits(node: Node, n: u16, count: usize, k: usize) -> bool
    ensures { result ≡ node_fits n count k node }
{
    match node {
        Node::Principal(p) => p < n,
        Node::Time(t) => t <= LAST_TIME,
        Node::Nonce(i) => i <= LAST_NUMBER,
        Node::Key(key) => key_fits(key, n),
        Node::Pair(l, r) => l < k && r < k,
        Node::Encrypted(body, key) => body < k && key_fits(key, n),
        Node::Stored(i) => (i as usize) < count,
    }
}

// Whether every node of a draft can stand where it does.
pub fn draft_fits(draft: [Node; 16], n: u16, count: usize) -> bool
    ensures { result ≡ draft_fits n count draft }
{
    (0..NODES).all(|k| node_fits(draft[k], n, count, k))
}

// A node as adding needs it: a term's number, the word of a term without operands, or the operands. The key of an
// encryption has none of its own, so its word is known.
#[derive(Clone, Copy, Debug, PartialEq, Eq)]
pub enum Layer {
    Stored(u16),
    Atom(u64),
    Pair(usize, usize),
    Encrypted(usize, u64),
}

// The word of a key.
fn key_word(key: DraftKey) -> u64
    ensures { result ≡ word_of_key key }
{
    match key {
        DraftKey::LongTerm(p) => u64::from(Term::LongTermKey(p)),
        DraftKey::Session(i) => u64::from(Term::SessionKey(i)),
    }
}

pub fn layer_of(node: Node) -> Layer
    ensures { result ≡ layer_of node }
{
    match node {
        Node::Principal(p) => Layer::Atom(u64::from(Term::Principal(p))),
        Node::Time(t) => Layer::Atom(u64::from(Term::Time(t))),
        Node::Nonce(i) => Layer::Atom(u64::from(Term::Nonce(i))),
        Node::Key(key) => Layer::Atom(key_word(key)),
        Node::Pair(l, r) => Layer::Pair(l, r),
        Node::Encrypted(body, key) => Layer::Encrypted(body, key_word(key)),
        Node::Stored(i) => Layer::Stored(i),
    }
}
