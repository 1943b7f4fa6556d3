//! Why a module isn't admitted.

use ir_module::{Module, Spot};
use type_check::TypeCode;

/// Why a module isn't admitted. The module is handed back as it was.
#[derive(Drop)]
pub enum AdmitStop {
    /// It breaks a rule: the first one that it breaks, and where.
    Refused {
        code: TypeCode,
        spot: Spot,
        module: Module,
    },
    /// Out of memory.
    Memory {
        module: Module,
    },
}
