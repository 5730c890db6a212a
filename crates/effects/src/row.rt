// The row that an effect writes.
ghost use Rattle.std.specs.Prelude.{◌≡◌};
ghost use Rattle.rows.specs.Runs.{Full};
ghost use Rattle.effects.specs.Row.{ChangeFits, changed, run_count};

use decisions::Change;
use rows::set_run;

// Writes the row, and answers how many runs there are.
pub fn write_row(runs: &mut [u32], count: usize, change: Change) -> usize
    requires { Full runs.old × ChangeFits count change }
    ensures { (runs.new ≡ changed count change runs.old) × (result ≡ run_count count change) }
{
    match change {
        Change::Open(row) => {
            set_run(runs, count, row);
            count + 1
        }
        Change::Set { r, row } => {
            set_run(runs, r as usize, row);
            count
        }
        Change::Nothing => count,
    }
}
