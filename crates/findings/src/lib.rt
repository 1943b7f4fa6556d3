//! The list of findings of any profile, made in one pass along the tree, and the tests that profiles share.
#![tactic(auto)]

mod callees;
mod calls;
mod entry;
mod flags;
mod pass;
mod profile;
mod verdict;

pub use callees::{Callees, Classes, classes, is_late_init, is_other_body};
pub use calls::{Call, call_of};
pub use entry::{lacks_labeling_schema, lacks_required_number, names_other_profile};
pub use flags::{flag_of, lacks_required_flag};
pub use pass::findings_of;
pub use profile::Profile;
pub use verdict::{Verdict, tell};
