// What a step that is taken does, by value. An effect is made where its values are known and carries all that is written, so whoever
// writes it goes through no steps.
#![tactic(auto)]

use exchange::form::Form;
use exchange::run::Row;
use replay::entry::Entry;

// The next run is opened with this row, or run r gets it.
#[derive(Clone, Copy)]
pub enum Change {
    Open(Row),
    Set { r: u8, row: Row },
    Nothing,
}

// What the replay cache does: step 5 remembers an entry behind the others, step 8 forgets those of b.
#[derive(Clone, Copy)]
pub enum Keeping {
    Same,
    Remember(Entry),
    Forget(u16),
}

// The messages that are sent, those of steps 3 and 4 by the form.
#[derive(Clone, Copy)]
pub enum Sends {
    Nothing,
    Request {
        a: u16,
        b: u16,
        n: u16,
    },
    Issue {
        form: Form,
        k: u16,
        a: u16,
        b: u16,
        ts: u32,
        n: u16,
    },
    // the authenticator, under H5 and H4 with term x
    Presented {
        form: Form,
        a: u16,
        ta: u32,
        k: u16,
        x: u16,
    },
    Confirmation {
        ta: u32,
        k: u16,
    },
    Key(u16),
}

#[derive(Clone, Copy)]
pub struct Effect {
    pub change: Change,
    pub keeping: Keeping,
    pub sends: Sends,
    pub clock: u32,
    pub names: Option<u8>,
}
