// Calls on stored tables, through the engine's public calls, the replay cache lent as records: a line for each, with its answer,
// every field of the realm that has changed (n, flags, Ls, La, clock, terms, runs and entries are 0 to 7), and every place of the
// tables and the cache that has. The places of a new world hold what is no term, no run and no entry: past the counts they are
// never read, and they stay until they are filled. Each table has a place more than it should, so that one that is too long can
// be lent.
//
// The lines of the input, by their letters:
//   L  a text: what the next call is
//   N  a new world: a realm that is none, and places of which none is in use
//   H  n, flags, Ls, La and the clock of the realm; how many places of the cache are lent
//   C  how many terms, runs and entries there are; how many places of the term table, words of the table of runs and words
//      of the wire are lent
//   T  a place of the term table; kind, L and R of what it holds
//   R  a run; one of its seven words; its value
//   W  a word of the wire; its upper and its lower half
//   E  a place of the cache; b, K and Ta of what it holds
//   O  the mark, n, flags, Ls, La: opens a realm, in which the calls after it are made
//   A  kind, L, R: adds a term
//   S  step, run, a, b, m, t: takes a step
//   M  b, K, Ta: remembers an entry, by the call of that name alone
//   F  b, clock, La: forgets b's entries, likewise
#![tactic(auto)]

mod show;
mod world;

use cases::LINES;
use world::World;

fn main() {
    let mut world = World::new();
    for _ in 0..LINES {
        let Some(line) = cases::next() else { break };
        world.obey(line);
    }
}
