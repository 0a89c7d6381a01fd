//! What a script can be.
ghost use Rattle.script.specs.Theorems.{ScriptsHaveOneAnswer, InputsHaveOneAnswer};

use fields::field_laws;

/// A script has one list of inputs and one of events, or one refusal, and never both; and so have inputs alone.
pub fn scripts_have_one_answer()
    ensures scripts { ScriptsHaveOneAnswer }
    ensures inputs { InputsHaveOneAnswer }
{
    field_laws();
}
