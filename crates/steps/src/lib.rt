// A step by its row of the step table: its fields, the run that it names, its message, and what it does. Whether the intruder can deliver
// its message, 15, and whether its terms fit, 20, is looked at by the crate above.
#![tactic(auto)]

ghost use Rattle.std.specs.Prelude.{◌≡◌};
ghost use Rattle.refusals.specs.Numbers.{numbered};
ghost use Rattle.realm.specs.Tables.{tables};
ghost use Rattle.decisions.specs.Decision.{opens_run, ticks, step_of, decided};
ghost use Rattle.steps.specs.Named.{Named, Holding, Pends};

use decisions::{Effect, Keeping, Sends};
use exchange::need::fits;
use exchange::run::Role;
use realm::header::Realm;
use realm::input::{Step, check_input};
use receiving::{Pending, accept, authenticate, finish, issue};
use refusals::Refusal;
use replay::entry::Entry;
use rows::{MAX_RUNS, run_at};
use verdicts::{opened, rest};

// Steps 1 and 2: a run of this role, and what it sends, if there is room for a run.
fn begin(h: Realm, role: Role, a: u8, b: u8, sends: Sends) -> Result<Effect, Refusal>
    ensures { numbered result ≡ opens_run h role a b sends }
{
    if MAX_RUNS <= h.runs {
        return Err(Refusal::RunsFull);
    }
    let r = h.runs as u8;
    Ok(opened(h.clock, role, r, a, b, sends))
}

// Step 7.
fn tick(h: Realm, t: u32) -> Result<Effect, Refusal>
    ensures { numbered result ≡ ticks h t }
{
    if t < h.clock {
        return Err(Refusal::Clock);
    }
    Ok(rest(t, Keeping::Same, Sends::Nothing, None))
}

// The steps that name a run: 4, 5, 6 and 9.
fn with_run(
    h: Realm,
    terms: &[u64],
    runs: &[u32],
    cache: [Entry; 16],
    s: Step,
) -> Result<Pending, Refusal>
    requires { Holding h terms.now runs.now cache × Named h s }
    ensures { Pends h terms.now s.m result (λ ws. step_of (tables h terms.now runs.now ws cache) s) }
{
    let step = s.step;
    let run = s.run;
    let own = run_at(runs, run as usize);
    if !fits(step, own) {
        return Err(Refusal::Stage);
    }
    match step {
        4 => authenticate(h, terms, run, own, s.m),
        5 => accept(h, terms, cache, run, own, s.m),
        6 => finish(h, terms, run, own, s.m),
        _ => {
            let sends = Sends::Key(run as u16);
            let effect = rest(h.clock, Keeping::Same, sends, Some(run));
            Ok(Pending::Settled(effect))
        }
    }
}

// What a step does, 15 and 20 apart. The tables hold together.
pub fn by_row(
    h: Realm,
    terms: &[u64],
    runs: &[u32],
    cache: [Entry; 16],
    s: Step,
) -> Result<Pending, Refusal>
    requires { Holding h terms.now runs.now cache }
    ensures { Pends h terms.now s.m result (λ ws. decided (tables h terms.now runs.now ws cache) s) }
{
    check_input(h, s)?;
    match s.step {
        1 => {
            let sends = Sends::Request {
                a: s.a as u16,
                b: s.b as u16,
                n: h.runs as u16,
            };
            begin(h, Role::Initiator, s.a, s.b, sends).map(Pending::Settled)
        }
        2 => begin(h, Role::Responder, s.a, s.b, Sends::Nothing).map(Pending::Settled),
        3 => issue(h, terms, s.m),
        7 => tick(h, s.t).map(Pending::Settled),
        8 => {
            let keeping = Keeping::Forget(s.b as u16);
            let effect = rest(h.clock, keeping, Sends::Nothing, None);
            Ok(Pending::Settled(effect))
        }
        10 => {
            let effect = rest(h.clock, Keeping::Same, Sends::Nothing, None);
            Ok(Pending::Asked(Ok(effect)))
        }
        _ => with_run(h, terms, runs, cache, s),
    }
}
