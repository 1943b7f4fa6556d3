//! Laws of verdicts on programs. What each function ensures is the law; its body only cites the laws that it
//! rests on.
ghost use Rattle.program_verdicts.specs.Laws.{HasVerdict, IsListedOnce};

use kept_items::Kind;
use search_verdicts::laws::every_search_has_a_verdict;
use static_steps::Config;

/// Within each budget all reachable configurations of a program are permitted, and can be listed, or it is refused
/// at one.
pub fn every_program_has_a_verdict()
    ensures { HasVerdict }
{
    every_search_has_a_verdict::<Config, Kind>();
}

/// The reachable configurations of a program are listed in one way, with their outcomes and links.
pub fn configurations_are_listed_in_one_way()
    ensures { IsListedOnce }
{}
