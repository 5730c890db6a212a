// The messages that steps send, laid out as drafts: a node for each term, in the order in which adding meets them, each
// after its parts, left before right. A message stands at the place that its constant names.
#![tactic(auto)]

ghost use Rattle.std.specs.Prelude.{◌≡◌, ◌≤◌, length};
ghost use Rattle.layouts.specs.Drafts.{places, request_draft, issue_draft, inside_issue_draft, presented_draft, confirmation_draft, key_draft};

use drafts::{DraftKey, NODES, Node};

// What stands in the places left.
const BLANK: Node = Node::Time(0);

// Where the messages stand in their drafts.
pub const REQUEST_ROOT: usize = 4;

pub const REPLY_ROOT: usize = 7;

pub const TICKET_ROOT: usize = 11;

pub const BESIDE_ROOT: usize = 12;

pub const INSIDE_ROOT: usize = 12;

pub const AUTHENTICATOR_ROOT: usize = 3;

pub const PRESENTED_ROOT: usize = 5;

pub const CONFIRMATION_ROOT: usize = 1;

pub const KEY_ROOT: usize = 0;

// The draft of these nodes.
fn draft(nodes: &[Node]) -> [Node; 16]
    requires { length nodes.now ≤ 16 }
    ensures { result ≡ places 16 nodes.now }
{
    let mut draft = [BLANK; NODES];
    draft[..nodes.len()].copy_from_slice(nodes);
    draft
}

// Step 1: [a, b, nonce n].
pub fn lay_request(a: u16, b: u16, n: u16) -> [Node; 16]
    ensures { result ≡ request_draft a b n }
{
    draft(&[
        Node::Principal(a),
        Node::Principal(b),
        Node::Nonce(n),
        Node::Pair(1, 2),
        // At REQUEST_ROOT.
        Node::Pair(0, 3),
    ])
}

// Step 3: {K, b, Ts, N} under a's key, {K, a, Ts} under b's key, and the pair of both.
pub fn lay_issue(k: u16, a: u16, b: u16, ts: u32, n: u16) -> [Node; 16]
    ensures { result ≡ issue_draft k a b ts n }
{
    draft(&[
        Node::Key(DraftKey::Session(k)),
        Node::Principal(b),
        Node::Time(ts),
        Node::Nonce(n),
        Node::Pair(2, 3),
        Node::Pair(1, 4),
        Node::Pair(0, 5),
        // At REPLY_ROOT.
        Node::Encrypted(6, DraftKey::LongTerm(a)),
        Node::Principal(a),
        Node::Pair(8, 2),
        Node::Pair(0, 9),
        // At TICKET_ROOT.
        Node::Encrypted(10, DraftKey::LongTerm(b)),
        // At BESIDE_ROOT.
        Node::Pair(REPLY_ROOT, TICKET_ROOT),
    ])
}

// Step 3: {K, b, Ts, N, {K, a, Ts} under b's key} under a's key.
pub fn lay_inside_issue(k: u16, a: u16, b: u16, ts: u32, n: u16) -> [Node; 16]
    ensures { result ≡ inside_issue_draft k a b ts n }
{
    draft(&[
        Node::Key(DraftKey::Session(k)),
        Node::Principal(b),
        Node::Time(ts),
        Node::Nonce(n),
        Node::Principal(a),
        Node::Pair(4, 2),
        Node::Pair(0, 5),
        Node::Encrypted(6, DraftKey::LongTerm(b)),
        Node::Pair(3, 7),
        Node::Pair(2, 8),
        Node::Pair(1, 9),
        Node::Pair(0, 10),
        // At INSIDE_ROOT.
        Node::Encrypted(11, DraftKey::LongTerm(a)),
    ])
}

// Step 4: {a, Ta}K, and the pair of term x and that.
pub fn lay_presented(a: u16, ta: u32, k: u16, x: u16) -> [Node; 16]
    ensures { result ≡ presented_draft a ta k x }
{
    draft(&[
        Node::Principal(a),
        Node::Time(ta),
        Node::Pair(0, 1),
        // At AUTHENTICATOR_ROOT.
        Node::Encrypted(2, DraftKey::Session(k)),
        Node::Stored(x),
        // At PRESENTED_ROOT.
        Node::Pair(4, AUTHENTICATOR_ROOT),
    ])
}

// Step 5: {Ta}K, at CONFIRMATION_ROOT.
pub fn lay_confirmation(ta: u32, k: u16) -> [Node; 16]
    ensures { result ≡ confirmation_draft ta k }
{
    draft(&[Node::Time(ta), Node::Encrypted(0, DraftKey::Session(k))])
}

// Step 9: a session key, at KEY_ROOT.
pub fn lay_key(k: u16) -> [Node; 16]
    ensures { result ≡ key_draft k }
{
    draft(&[Node::Key(DraftKey::Session(k))])
}
