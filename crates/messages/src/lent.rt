// The public call on a lent term table: any slice, any numbers, any draft, nothing required. A refused call leaves every
// place as it was.
ghost use Rattle.std.specs.Prelude.{◌≡◌};
ghost use Rattle.messages.specs.Lent.{store_outcome, add_message_of};

use super::plan::{Plan, write_plan};
use drafts::{NODES, Node, draft_fits};
use lent_terms::holds_together;
use refusals::Refusal;
use terms::table::MAX_TERMS;

// The number of a message that was added, and how many terms the table has with it.
#[derive(Clone, Copy, Debug, PartialEq, Eq)]
pub struct Stored {
    pub number: u16,
    pub count: usize,
}

// Adds the message of a draft's node: all its terms, or none.
pub fn add_message(
    terms: &mut [u64],
    count: usize,
    n: u16,
    draft: [Node; 16],
    root: usize,
) -> Result<Stored, Refusal>
    ensures { store_outcome result count terms.new ≡ add_message_of n terms.old count draft root }
{
    if !holds_together(terms, count, n) {
        return Err(Refusal::Tables);
    }
    if NODES <= root {
        return Err(Refusal::Range);
    }
    if !draft_fits(draft, n, count) {
        return Err(Refusal::Range);
    }
    let mut plan = Plan::new();
    let number = plan.add_node(terms, count, &draft, root);
    let all = count + plan.count;
    if MAX_TERMS < all {
        return Err(Refusal::TermsFull);
    }
    write_plan(terms, count, &plan.words, plan.count);
    Ok(Stored { number, count: all })
}
