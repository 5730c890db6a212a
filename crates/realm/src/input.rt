// What turns a step away by its fields: refusals 4, 5 and 6, in this order.
ghost use Rattle.std.specs.Prelude.{◌≡◌};
ghost use Rattle.refusals.specs.Numbers.{number_of};
ghost use Rattle.realm.specs.Input.{uses_of, unused_zero, in_range, input_refusal};

use super::header::Realm;
use refusals::Refusal;
use runs::lent::principals_fit;

// The fields of a step, as an ST record has them.
#[derive(Clone, Copy)]
pub struct Step {
    pub step: u8,
    pub run: u8,
    pub a: u8,
    pub b: u8,
    pub m: u16,
    pub t: u32,
}

// Which fields a step uses.
#[derive(Clone, Copy)]
pub struct Uses {
    pub run: bool,
    pub a: bool,
    pub b: bool,
    pub m: bool,
    pub t: bool,
}

const NO_FIELD: Uses = Uses {
    run: false,
    a: false,
    b: false,
    m: false,
    t: false,
};

// Steps 1 and 2.
const OPENS: Uses = Uses {
    a: true,
    b: true,
    ..NO_FIELD
};

// Steps 4, 5 and 6.
const TAKES: Uses = Uses {
    run: true,
    m: true,
    ..NO_FIELD
};

// Steps 3 and 10.
const MESSAGE: Uses = Uses {
    m: true,
    ..NO_FIELD
};

const TICKS: Uses = Uses {
    t: true,
    ..NO_FIELD
};

const PURGES: Uses = Uses {
    b: true,
    ..NO_FIELD
};

const LEAKS: Uses = Uses {
    run: true,
    ..NO_FIELD
};

const LAST_STEP: u8 = 10;

// By the step's number.
const USES: [Uses; 11] = [
    NO_FIELD, OPENS, OPENS, MESSAGE, TAKES, TAKES, TAKES, TICKS, PURGES, LEAKS, MESSAGE,
];

// What a step uses; a number that is no step uses no field.
#[tactic(auto, unfolding(crate::specs::Input::uses_table))]
fn used_by(step: u8) -> Uses
    ensures { result ≡ uses_of step }
{
    USES.get(step as usize).copied().unwrap_or(NO_FIELD)
}

// Whether every field that is not used is 0.
fn unused_zero(uses: Uses, s: Step) -> bool
    ensures { result ≡ unused_zero uses s }
{
    (uses.run || s.run == 0)
        && (uses.a || s.a == 0)
        && (uses.b || s.b == 0)
        && (uses.m || s.m == 0)
        && (uses.t || s.t == 0)
}

// Whether the fields that are used name a run, a term and principals that there are. Only steps 1 and 2 use a.
#[tactic(auto, unfolding(crate::specs::Input::in_range))]
fn in_range(h: Realm, uses: Uses, s: Step) -> bool
    ensures { result ≡ in_range h uses s }
{
    (!uses.run || (s.run as usize) < h.runs)
        && (!uses.a || principals_fit(h.n, s.a, s.b))
        && (!uses.b || s.b < h.n)
        && (!uses.m || (s.m as usize) < h.terms)
}

// Whether a step can have these fields. Refused: 4, 5 and 6.
pub fn check_input(h: Realm, s: Step) -> Result<(), Refusal>
    ensures { number_of result ≡ input_refusal h s }
{
    let step = s.step;
    if step < 1 {
        return Err(Refusal::Kind);
    }
    if LAST_STEP < step {
        return Err(Refusal::Kind);
    }
    let used = used_by(step);
    if !unused_zero(used, s) {
        return Err(Refusal::Unused);
    }
    if !in_range(h, used, s) {
        return Err(Refusal::Range);
    }
    Ok(())
}
