// The rows of the table of runs, lent as one slice. A row is seven words: role, stage, a, b, k, ts, ta; row r starts at word
// 7 * r. Nothing else knows how a row lies in the table.
#![tactic(auto)]

ghost use Rattle.std.specs.Prelude.{◌≡◌, ◌<◌};
ghost use Rattle.rows.specs.Row.{row_of, words_of, is_row};
ghost use Rattle.rows.specs.Runs.{Full, words_at, run_at, set_run};

use exchange::run::{Role, Row, Stage};

// Words in a row.
const ROW_WORDS: usize = 7;

// Runs in a table at most.
pub const MAX_RUNS: usize = 64;

// Words in a table.
pub const RUN_WORDS: usize = MAX_RUNS * ROW_WORDS;

// The row of seven words. A number that names no role or stage is read as the last.
fn decode(words: [u32; ROW_WORDS]) -> Row
    ensures { result ≡ row_of words }
{
    let [role, stage, a, b, k, ts, ta] = words;
    Row {
        role: Role::try_from(role).unwrap_or(Role::Server),
        stage: Stage::try_from(stage).unwrap_or(Stage::Done),
        a: (a % 256) as u8,
        b: (b % 256) as u8,
        k: (k % 256) as u8,
        ts,
        ta,
    }
}

// A row's seven words.
fn encode(row: Row) -> [u32; ROW_WORDS]
    ensures { result ≡ words_of row }
{
    [
        row.role.into(),
        row.stage.into(),
        row.a.into(),
        row.b.into(),
        row.k.into(),
        row.ts,
        row.ta,
    ]
}

// Whether seven words are those of a row: a known role and stage, bytes where a row has bytes.
fn is_row(words: [u32; ROW_WORDS]) -> bool
    ensures { result ≡ is_row words }
{
    let [role, stage, a, b, k, ..] = words;
    Role::try_from(role).is_ok() && Stage::try_from(stage).is_ok() && a < 256 && b < 256 && k < 256
}

// The words of row r.
fn words_at(runs: &[u32], r: usize) -> [u32; ROW_WORDS]
    requires { (r < 64) × Full runs.now }
    ensures { result ≡ words_at runs.now r }
{
    let at = r * ROW_WORDS;
    runs[at..at + ROW_WORDS].try_into().unwrap()
}

// Row r.
#[tactic(auto, unfolding(crate::specs::Runs::run_at))]
pub fn run_at(runs: &[u32], r: usize) -> Row
    requires { (r < 64) × Full runs.now }
    ensures { result ≡ run_at runs.now r }
{
    decode(words_at(runs, r))
}

// Writes row r.
pub fn set_run(runs: &mut [u32], r: usize, row: Row)
    requires { (r < 64) × Full runs.old }
    ensures { runs.new ≡ set_run runs.old r row }
{
    let at = r * ROW_WORDS;
    runs[at..at + ROW_WORDS].copy_from_slice(&encode(row));
}

// Whether the words of row r are those of a row.
pub fn is_written(runs: &[u32], r: usize) -> bool
    requires { (r < 64) × Full runs.now }
    ensures { result ≡ is_row (words_at runs.now r) }
{
    is_row(words_at(runs, r))
}
