// The term table through its public calls, on stored tables: a line for each call, with its answer and every place that has
// changed. The realm has three principals. The places of a new table hold what is no term, and each node of a new draft is
// principal 0. The table has a place more than it should, so that one that is too long can be lent.
//
// The lines of the input, by their letters:
//   L  a text: what the next call is
//   N  a new table, and a new draft
//   C  how many terms there are, and how many places are lent
//   T  a place; kind, L and R of what it holds
//   D  a node of the draft; its kind, x and y: the kinds of terms, with x for L and y for R, but an encryption is 6 under the
//      long-term key of y and 7 under session key y, and 8 is the term of number x
//   F  kind, L, R: finds a term
//   A  kind, L, R: adds a term
//   M  a node of the draft: adds its message
#![tactic(auto)]

mod calls;
mod show;

use calls::Table;
use cases::LINES;

fn main() {
    let mut table = Table::new();
    for _ in 0..LINES {
        let Some(line) = cases::next() else { break };
        table.obey(line);
    }
}
