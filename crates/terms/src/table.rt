// The term table: how many terms it has at most, and what is answered of it.

// Terms in a table at most.
pub const MAX_TERMS: usize = 512;

// Where a term stands that was to be added.
#[derive(Clone, Copy, Debug, PartialEq, Eq)]
pub enum Added {
    // It stood at this place already.
    Old(usize),
    // It was put at this place.
    New(usize),
}
