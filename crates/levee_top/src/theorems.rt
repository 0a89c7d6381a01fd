//! What an outcome is.
ghost use Rattle.levee_top.specs.Theorems.{OutcomesAreUnique};

use c_parser::{refusals_are_certain, sources_have_one_tree};
use c_tokens::texts_have_one_answer;
use c_typing::sources_have_one_verdict;
use code_laws::programs_have_one_code;
use job::jobs_have_one_cut;
use script::scripts_have_one_answer;

/// Words and an input have one outcome: one status and one text.
pub fn outcomes_are_unique()
    ensures { OutcomesAreUnique }
{
    jobs_have_one_cut();
    texts_have_one_answer();
    sources_have_one_tree();
    refusals_are_certain();
    sources_have_one_verdict();
    scripts_have_one_answer();
    programs_have_one_code();
}
