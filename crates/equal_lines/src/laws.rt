//! A law of what `run` writes. What the function ensures is the law; its body only cites the law that it rests on.
ghost use Rattle.equal_lines.specs.Laws.{LoweredRunsAreEqual};

use equal_shots::laws::lowered_shots_are_equal;

/// With the same bits, `run` writes of a lowered module the lines that it writes of its source, but for
/// those that tell attributes of the entry.
pub fn lowered_runs_are_equal()
    ensures { LoweredRunsAreEqual }
{
    lowered_shots_are_equal();
}
