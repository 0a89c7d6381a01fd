//! The law of runs.

ghost use Rattle.run_laws.specs.Theorems.{RunsAreGood};

use based_laws::runs_are_based;
use icode::standing_code_is_valid;
use machine_laws::runs_are_legal;
use read_laws::transfers_are_good;

/// Every run of code that stands for a valid program, whatever the inputs, the turns, the corruptions and the
/// cuts, makes one legal history, has good transfers, and is based on the objects that it made.
pub fn runs_are_good()
    ensures { RunsAreGood }
{
    standing_code_is_valid();
    runs_are_legal();
    transfers_are_good();
    runs_are_based();
}
