//! What follows an instruction.
ghost use Rattle.std.specs.Prelude.{◌≡◌};
ghost use Rattle.machine_frames.specs.declared.flow.Flow.TheVariants as flow;
ghost use Rattle.qir_meaning.specs.declared.end.End.TheVariants as end;

use ir_values::Cause;
use qir_meaning::End;

/// What follows an instruction.
#[derive(Drop)]
pub enum Flow {
    /// The next one.
    Goes,
    /// The run is over.
    Ends(End),
    /// It has no meaning: a value of another type, or a point that isn't there. No instruction of an
    /// admitted module leads here.
    Lost,
}

impl Flow {
    /// The run is over for this cause.
    pub fn traps(why: Cause) -> Flow
        ensures { result ≡ flow.Ends (end.Trapped why) }
    {
        Flow::Ends(End::Trapped(why))
    }
}
