//! The functions that a lowered program calls, in the order of first use, with their numbers.
#![tactic(auto)]

mod declarations;
mod table;

pub use declarations::{record_name, text};
pub use table::{NameSet, Table, has_name, name_set, table_of};
