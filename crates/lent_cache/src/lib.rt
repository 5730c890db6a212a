// The replay cache on a list of records that the caller lends. To remember, the entries are loaded, the call is made by value, and
// the places are stored back; to forget, one pass goes over the list itself.
#![tactic(auto)]

pub mod pass; // forgetting in one pass

ghost use Rattle.std.specs.Prelude.{◌≡◌, length};
ghost use Rattle.replay.specs.Cache.{list_outcome, remembered, forgotten};

use crate::pass::pass_over;
use refusals::Refusal;
use replay::cache;
use replay::entry::{EMPTY, Entry, PLACES, Purge};

// The sixteen places of a lent list, by value.
pub fn load(list: &[Entry]) -> [Entry; PLACES]
    requires { length list.now ≡ 16 }
    ensures { result ≡ list.now }
{
    let mut places = [EMPTY; PLACES];
    places.copy_from_slice(list);
    places
}

// Sixteen places are written to a lent list.
pub fn store(list: &mut [Entry], places: [Entry; PLACES])
    requires { length list.old ≡ 16 }
    ensures { list.new ≡ places }
{
    list.copy_from_slice(&places);
}

// Puts `e` behind the entries of the list, and answers how many there are. Refused: 10, 18 and 19.
pub fn remember(list: &mut [Entry], count: usize, e: Entry) -> Result<usize, Refusal>
    ensures { list_outcome result list.new ≡ remembered list.old count e }
{
    if list.len() != PLACES {
        return Err(Refusal::Tables);
    }
    let after = cache::remember(load(list), count, e)?;
    store(list, after.places);
    Ok(after.count)
}

// Forgets the entries of a principal whose life is over, and answers how many are left. Refused: 10.
pub fn forget(list: &mut [Entry], count: usize, p: Purge) -> Result<usize, Refusal>
    ensures { list_outcome result list.new ≡ forgotten list.old count p }
{
    if list.len() != PLACES {
        return Err(Refusal::Tables);
    }
    if PLACES < count {
        return Err(Refusal::Tables);
    }
    Ok(pass_over(list, count, p))
}
