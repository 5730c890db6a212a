// Two texts side by side, and how many comparisons failed.
#![tactic(auto)]

ghost use Rattle.std.specs.Prelude.{◌≡◌, ◌+◌, ◌<◌, ◌≤◌};
ghost use Rattle.comparison.specs.Compare.{difference, disagreements};

pub const NEWLINE: u8 = 10;

// The line, counted from 1, where two texts differ first, byte by byte; none where they are the same.
pub fn first_difference(a: &[u8], b: &[u8]) -> Option<usize>
    ensures { result ≡ difference 1 a.now b.now }
{
    let mut line: usize = 1;
    for (x, y) in a.iter().zip(b) {
        if x != y {
            return Some(line);
        }
        if *x == NEWLINE {
            line += 1;
        }
    }
    if a.len() == b.len() {
        return None;
    }
    Some(line)
}

// How many comparisons were made, and how many of them failed.
#[derive(Clone, Copy)]
pub struct Totals {
    pub compared: u64,
    pub differ: u64,
}

impl Totals {
    // One comparison more.
    pub fn counted(self, agrees: bool) -> Totals
        requires { (self.differ ≤ self.compared) × (self.compared + 1 < 18446744073709551616) }
        ensures { (result.compared ≡ self.compared + 1) × (result.differ ≡ self.differ + disagreements agrees) }
    {
        Totals {
            compared: self.compared + 1,
            differ: self.differ + !agrees as u64,
        }
    }
}
