// A walk file's listing against the one that is stored for it.
#![tactic(auto)]

ghost use Rattle.std.specs.Prelude.{◌≡◌};
ghost use Rattle.comparison.specs.Compare.{difference};
ghost use Rattle.walkfile.specs.Listing.{listing_of};

use comparison::first_difference;
use walkfile::{LISTING_BYTES, list};

// The listing of a walk file, against the stored one: the line where they differ first, or none. The buffer has room for it.
pub fn judge(file: &[u8], stored: &[u8]) -> Option<usize>
    ensures { result ≡ difference 1 (listing_of file.now) stored.now }
{
    let mut out = [0u8; LISTING_BYTES];
    match list(file, &mut out) {
        None => Some(0),
        Some(end) => first_difference(&out[..end], stored),
    }
}
