// What a taken step writes, made from its values: one function for steps 1 and 2, one each for 3 to 6, one for the others. None has a
// slice, so a value of some twenty fields is carried through no proof of a function that lends tables.
#![tactic(auto)]

ghost use Rattle.std.specs.Prelude.{◌≡◌};
ghost use Rattle.exchange.specs.declared.run.Stage.TheVariants.{Opened};
ghost use Rattle.decisions.specs.Effects.{opening, issuing, authenticating, accepting, finishing, advancing, still};

use decisions::{Change, Effect, Keeping, Sends};
use exchange::form::Form;
use exchange::run::{Role, Row, Stage};
use replay::entry::Entry;

// Steps 1 and 2: run r is opened, and has taken nothing yet.
pub fn opened(clock: u32, role: Role, r: u8, a: u8, b: u8, sends: Sends) -> Effect
    ensures { result ≡ opening clock role Opened r a b 0 0 sends }
{
    Effect {
        change: Change::Open(Row {
            role,
            stage: Stage::Opened,
            a,
            b,
            k: 0,
            ts: 0,
            ta: 0,
        }),
        keeping: Keeping::Same,
        sends,
        clock,
        names: Some(r),
    }
}

// Step 3: server run r is opened, with the session key of its number.
pub fn issued(clock: u32, form: Form, r: u8, a: u8, b: u8, n: u16) -> Effect
    ensures { result ≡ issuing clock form r a b n }
{
    Effect {
        change: Change::Open(Row {
            role: Role::Server,
            stage: Stage::Done,
            a,
            b,
            k: r,
            ts: clock,
            ta: 0,
        }),
        keeping: Keeping::Same,
        sends: Sends::Issue {
            form,
            k: r as u16,
            a: a as u16,
            b: b as u16,
            ts: clock,
            n,
        },
        clock,
        names: Some(r),
    }
}

// Run r goes on to this row.
fn advanced(clock: u32, r: u8, row: Row, keeping: Keeping, sends: Sends) -> Effect
    ensures { result ≡ advancing clock row.role row.stage r row.a row.b row.k row.ts row.ta keeping sends }
{
    Effect {
        change: Change::Set { r, row },
        keeping,
        sends,
        clock,
        names: Some(r),
    }
}

// Step 4: run r has taken K and Ts, and sends its authenticator, with term x where the form passes one on.
pub fn authenticated(clock: u32, form: Form, r: u8, own: Row, k: u8, ts: u32, x: u16) -> Effect
    ensures { result ≡ authenticating clock form r own.a own.b k ts x }
{
    let row = Row {
        role: Role::Initiator,
        stage: Stage::Authenticated,
        k,
        ts,
        ta: clock,
        ..own
    };
    let sends = Sends::Presented {
        form,
        a: own.a as u16,
        ta: clock,
        k: k as u16,
        x,
    };
    advanced(clock, r, row, Keeping::Same, sends)
}

// Step 5: run r has taken K, Ts and Ta, which are remembered, and sends its confirmation.
pub fn accepted(clock: u32, r: u8, own: Row, k: u8, ts: u32, ta: u32) -> Effect
    ensures { result ≡ accepting clock r own.a own.b k ts ta }
{
    let row = Row {
        role: Role::Responder,
        stage: Stage::Done,
        k,
        ts,
        ta,
        ..own
    };
    let entry = Entry {
        b: own.b as u16,
        k: k as u16,
        ta,
    };
    let sends = Sends::Confirmation { ta, k: k as u16 };
    advanced(clock, r, row, Keeping::Remember(entry), sends)
}

// Step 6: run r is done, with what it has.
pub fn finished(clock: u32, r: u8, own: Row) -> Effect
    ensures { result ≡ finishing clock r own.a own.b own.k own.ts own.ta }
{
    let row = Row {
        role: Role::Initiator,
        stage: Stage::Done,
        ..own
    };
    advanced(clock, r, row, Keeping::Same, Sends::Nothing)
}

// The others: no run changes.
pub fn rest(clock: u32, keeping: Keeping, sends: Sends, names: Option<u8>) -> Effect
    ensures { result ≡ still clock keeping sends names }
{
    Effect {
        change: Change::Nothing,
        keeping,
        sends,
        clock,
        names,
    }
}
