// The check of a lent table of runs, the runs' part of refusal 10: any slices, any numbers, nothing required.
ghost use Rattle.std.specs.Prelude.{◌≡◌, ◌<◌, ◌≤◌, length};
ghost use Rattle.rows.specs.Runs.{Full};
ghost use Rattle.runs.specs.Lent.{principals_fit, has_stage, key_stands, key_holds, run_holds, row_holds, rows_hold};

use exchange::run::{Role, Row, Stage};
use rows::{MAX_RUNS, RUN_WORDS, is_written, run_at};
use term_table::find;
use terms::rules::LAST_NUMBER;
use words::Term;

// Whether a run can have these principals: below n, neither of them the server, unequal.
pub fn principals_fit(n: u8, a: u8, b: u8) -> bool
    ensures { result ≡ principals_fit n a b }
{
    a < n && b < n && a != 0 && b != 0 && a != b
}

// Whether a role has a stage.
fn has_stage(role: Role, stage: Stage) -> bool
    ensures { result ≡ has_stage role stage }
{
    matches!(
        (role, stage),
        (Role::Initiator, _)
            | (Role::Responder, Stage::Opened | Stage::Done)
            | (Role::Server, Stage::Done)
    )
}

// Whether session key k is a term.
#[tactic(auto, using(crate::proofs::Decided::some_is), unfolding(crate::specs::Lent::key_stands))]
fn key_stands(terms: &[u64], present: usize, k: u8) -> bool
    requires { present ≤ length terms.now }
    ensures { result ≡ key_stands terms.now present k }
{
    find(terms, present, u64::from(Term::SessionKey(k as u16))).is_some()
}

// Whether k is right for run r of this role: a server run's is its own number, and a term.
fn key_holds(terms: &[u64], present: usize, r: usize, role: Role, k: u8) -> bool
    requires { present ≤ length terms.now }
    ensures { result ≡ key_holds terms.now present r role k }
{
    role != Role::Server || k as usize == r && key_stands(terms, present, k)
}

// Whether a row can be that of run r.
#[tactic(auto, unfolding(crate::specs::Lent::run_holds))]
fn run_holds(n: u8, terms: &[u64], present: usize, r: usize, row: Row) -> bool
    requires { present ≤ length terms.now }
    ensures { result ≡ run_holds n terms.now present r row }
{
    principals_fit(n, row.a, row.b)
        && has_stage(row.role, row.stage)
        && row.k as u16 <= LAST_NUMBER
        && key_holds(terms, present, r, row.role, row.k)
}

// Whether the words of row r are a row that can be that of run r.
#[tactic(auto, unfolding(crate::specs::Lent::row_holds))]
fn row_holds(runs: &[u32], n: u8, terms: &[u64], present: usize, r: usize) -> bool
    requires { (r < 64) × Full runs.now × (present ≤ length terms.now) }
    ensures { result ≡ row_holds n runs.now terms.now present r }
{
    is_written(runs, r) && run_holds(n, terms, present, r, run_at(runs, r))
}

// Whether the first `count` rows are runs of a realm of n principals, beside this term table.
pub fn rows_hold(runs: &[u32], count: usize, n: u8, terms: &[u64], present: usize) -> bool
    ensures { result ≡ rows_hold n runs.now count terms.now present }
{
    runs.len() == RUN_WORDS
        && count <= MAX_RUNS
        && present <= terms.len()
        && (0..count).all(|r| row_holds(runs, n, terms, present, r))
}
