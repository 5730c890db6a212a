// Packed sets of small numbers: number i is bit i % 64 of word i / 64. A set of terms is 8 words.
#![tactic(auto)]

ghost use Rattle.std.specs.Prelude.{◌≡◌, ◌+◌, ◌*◌, ◌<◌, ◌≤◌, length};
ghost use Rattle.std.proofs.Math.Seq.{paste};
ghost use Rattle.marks.specs.Marks.{Words, is_set, marked, with_mark, size};
ghost use Rattle.marks.specs.Within.{within};

// How many numbers a set of 8 words has places for.
pub const PLACES: usize = 512;

// Whether i is in a lent set. The caller knows that i has a place in it.
pub fn is_marked(set: &[u64], i: usize) -> bool
    requires { i < 64 * length set.now }
    ensures { result ≡ marked set.now i }
{
    set[i / 64] >> (i % 64) & 1 == 1
}

// Whether i is in the set; a number with no place is not.
pub fn has(set: [u64; 8], i: usize) -> bool
    ensures { result ≡ marked set i }
{
    i < PLACES && is_marked(&set, i)
}

// The set with i in it; a number with no place changes nothing.
pub fn with(mut set: [u64; 8], i: usize) -> [u64; 8]
    ensures { result ≡ with_mark set i }
{
    if i < PLACES {
        mark(&mut set, i);
    }
    set
}

// Puts i into a lent set. The caller knows that i has a place in it.
pub fn mark(set: &mut [u64], i: usize)
    requires { i < 64 * length set.old }
    ensures { set.new ≡ with_mark set.old i }
{
    set[i / 64] |= 1 << (i % 64);
}

// How many numbers are in the set: the ones of its words, summed.
pub fn members(set: [u64; 8]) -> u32
    ensures { result ≡ size set }
{
    set.iter().map(|word| word.count_ones()).sum()
}

// A lent set as a value. The caller knows that it has 8 words.
pub fn load(set: &[u64]) -> [u64; 8]
    requires { length set.now ≡ 8 }
    ensures { (result ≡ set.now) × Words 8 set.now }
{
    *set.as_array().unwrap()
}

// Writes a set by value into a lent list, from a place on. The caller knows that there is room for 8 words.
pub fn store(list: &mut [u64], at: usize, words: [u64; 8])
    requires { at + 8 ≤ length list.old }
    ensures { list.new ≡ paste list.old at words 8 }
{
    list[at..at + 8].copy_from_slice(&words);
}

// Whether the flags mark principal p: bit p is set.
pub fn flagged(flags: u32, p: u16) -> bool
    ensures { result ≡ is_set flags p }
{
    p < 32 && flags >> p & 1 == 1
}

// Whether every number in the set is below the bound.
pub fn is_within(set: [u64; 8], bound: usize) -> bool
    ensures { result ≡ within set bound }
{
    (bound..PLACES).all(|i| !has(set, i))
}
