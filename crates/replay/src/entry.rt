// What the replay cache holds, and what its calls are told.

// The places of the cache.
pub const PLACES: usize = 16;

// The responder, the number of the session key, and the authenticator's time. The first two are as wide as a term's operand.
#[repr(C)]
#[derive(Clone, Copy, Debug, PartialEq, Eq)]
pub struct Entry {
    pub b: u16,
    pub k: u16,
    pub ta: u32,
}

// What a free place holds.
pub const EMPTY: Entry = Entry { b: 0, k: 0, ta: 0 };

// Whose entries are forgotten (step 8), at which clock, and the life of an authenticator.
#[derive(Clone, Copy)]
pub struct Purge {
    pub b: u16,
    pub clock: u32,
    pub la: u32,
}
