//! Laws of summaries. What each function ensures is the law; its body only cites the laws that it rests on.
ghost use Rattle.generated_summary.specs.Laws.{RunsAreAlike, SummariesAreOne, SummariesExist};

use equal_shots::laws::lowered_shots_are_equal;
use lowering_verdicts::laws::lowering_has_one_answer;
use program_verdicts::laws::configurations_are_listed_in_one_way;
use qir_meaning::{ended_runs_stay, modules_have_one_run};
use shots::{shots_are_one, shots_exist};
use told_liveness::laws::live_names_are_told_in_one_way;
use typed_runs::admitted_modules_run;
use unrolled_runs::laws::unrolled_runs_end;

/// A module without faults has at most one summary.
pub fn summaries_are_one()
    ensures { SummariesAreOne }
{
    shots_are_one();
    modules_have_one_run();
    live_names_are_told_in_one_way();
    configurations_are_listed_in_one_way();
    lowering_has_one_answer();
}

/// It has one where it has a lowered module.
pub fn summaries_exist()
    ensures { SummariesExist }
{
    shots_exist();
    modules_have_one_run();
    ended_runs_stay();
    admitted_modules_run();
}

/// A module that is lowered without loops ends its run over classical bits, and its lowered module does the same.
pub fn runs_are_alike()
    ensures { RunsAreAlike }
{
    shots_are_one();
    modules_have_one_run();
    lowered_shots_are_equal();
    unrolled_runs_end();
}
