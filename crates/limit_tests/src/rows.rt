//! What the program answers to a text at an edge.
use crate::texts::Text;
use qir_cli::Status;
use qir_examples::given::answer;
use std::alloc::Global;
use std::process::Abort;
use std::test::Fail;

/// A text, the words, the status, and how that which is written ends. A refusal is the whole of it.
pub type Row = (Text, &'static str, Status, &'static str);

/// The last line of a canonical text where the module has no flags.
pub const PRINTED: &str = "attributes #1 = { \"irreversible\" }\n";

/// The last line of a lowered text without capabilities.
pub const LOWERED: &str = "!3 = !{i32 1, !\"dynamic_result_management\", i1 false}\n";

/// Expects that the program answers each row so.
pub fn check(rt: &impl Abort, alloc: Global, rows: &[Row]) -> Result<(), Fail> {
    for (text, words, status, end) in rows {
        let text = text.bytes(alloc)?;
        let told = answer(alloc, words, text.as_slice())?;
        assert_eq!(rt; told.status, *status, "{end}");
        assert!(rt; told.written.as_slice().ends_with(end.as_bytes()), "{end}");
        if *status == Status::Refused || *status == Status::BadWords {
            assert_eq!(rt; told.written.len(), end.len());
        }
    }
    Ok(())
}
