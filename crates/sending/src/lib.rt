// Sending: the terms of a step's messages are added to the term table, all or none, and the messages are put on the wire. What is
// to be written is planned first, and the plan is written whole.
#![tactic(auto)]

ghost use Rattle.std.specs.Prelude.{[], ◌∷◌, ◌≡◌, ◌+◌, ◌≤◌, length};
ghost use Rattle.drafts.specs.Draft.{draft_message};
ghost use Rattle.messages.specs.Plan.{with_plan};
ghost use Rattle.sending.specs.Send.{Plannable, PlanFor, MarksFit, marked_by};
ghost use Rattle.terms.specs.Meaning.{message_at};

use drafts::Node;
use marks::mark;
use messages::plan::{Plan, write_plan};

// The numbers of the messages that go onto the wire.
#[derive(Clone, Copy, Debug, PartialEq, Eq)]
pub struct Marks {
    pub first: u16,
    pub last: u16,
}

// What sending writes beside the planned words: how many they are, and marks.
#[derive(Clone, Copy, Debug, PartialEq, Eq)]
pub struct Prepared {
    pub count: usize,
    pub marks: Option<Marks>,
}

// Plans the messages of two nodes of a draft in `words`; a step that sends one message names its node twice.
// Apart from what calls it, so that a step that sends nothing does not clear the plan.
#[inline(never)]
pub fn plan_messages(
    terms: &[u64],
    count: usize,
    draft: &[Node; 16],
    first: usize,
    last: usize,
    words: &mut [u64],
) -> Prepared
    requires { Plannable terms.now count draft.now first last × (length words.old ≡ 32) }
    ensures { PlanFor terms.now count (draft_message (message_at terms.now) draft.now first ∷ draft_message (message_at terms.now) draft.now last ∷ []) words.new result }
{
    let mut plan = Plan::new();
    let first = plan.add_node(terms, count, draft, first);
    let last = plan.add_node(terms, count, draft, last);
    // What is prepared is told apart from the words: deciding lends them on as a slice, and writing takes them back as one.
    words.copy_from_slice(&plan.words);
    Prepared {
        count: plan.count,
        marks: Some(Marks { first, last }),
    }
}

// Writes what was planned.
pub fn write_messages(
    terms: &mut [u64],
    wire: &mut [u64],
    count: usize,
    words: &[u64],
    prepared: Prepared,
)
    requires { (length terms.old ≡ 512) × (length wire.old ≡ 8) × (count + prepared.count ≤ 512) × (prepared.count ≤ length words.now) × MarksFit prepared.marks }
    ensures { (terms.new ≡ with_plan terms.old count words.now prepared.count) × (wire.new ≡ marked_by prepared.marks wire.old) }
{
    write_plan(terms, count, words, prepared.count);
    if let Some(marks) = prepared.marks {
        mark(wire, marks.first as usize);
        mark(wire, marks.last as usize);
    }
}
