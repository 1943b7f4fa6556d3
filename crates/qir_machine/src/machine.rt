//! All that a running machine has.
use machine_frames::Frames;
use machine_tables::{Allocations, Results};
use output_records::Records;

/// All that a running machine has.
#[derive(Drop)]
pub struct Machine {
    pub frames: Frames,
    pub allocations: Allocations,
    pub results: Results,
    /// How many measurements returned a result.
    pub measured: u64,
    pub records: Records,
}
