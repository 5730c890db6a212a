// Forgetting in one pass over a list: each entry is read once, its place becomes empty, and an entry that stays moves to the front.
ghost use Rattle.std.specs.Prelude.{◌≡◌, List, ◌+◌, ◌<◌, ◌≤◌, length};
ghost use Rattle.replay.specs.declared.entry.Entry.{Entry};
ghost use Rattle.replay.specs.Cache.{swept, after_read, sweeping};

use replay::cache::{Cache, survives};
use replay::entry::{EMPTY, Entry, Purge};

// One turn of the pass: `i` entries are read and `left` of them are kept; it reads the next, and gives the number of those kept.
// `before` is the list before the pass.
fn read_entry(list: &mut [Entry], left: usize, i: usize, p: Purge) -> usize
    requires { (i < length list.old) × (left ≤ i) }
    ensures { (before : List Entry) → i < length before → swept list.old left ≡ after_read p before i → swept list.new result ≡ after_read p before (i + 1) }
{
    let x = list[i];
    list[i] = EMPTY;
    if survives(x, p) {
        list[left] = x;
        return left + 1;
    }
    left
}

// The pass over the first `count` places, a turn for each: it gives the number of those kept.
pub fn pass_over(list: &mut [Entry], count: usize, p: Purge) -> usize
    requires { count ≤ length list.old }
    ensures { swept list.new result ≡ sweeping list.old count p }
{
    let mut left = 0;
    for i in 0..count {
        left = read_entry(list, left, i, p);
    }
    left
}

// The same of sixteen places by value.
pub fn sweep(cache: Cache, p: Purge) -> Cache
    ensures { result ≡ sweeping cache.places cache.count p }
{
    let mut places = cache.places;
    let count = pass_over(&mut places, cache.count, p);
    Cache { places, count }
}
