//! Laws of bits. Each function does nothing: what it ensures is the law.
ghost use Rattle.bit_backend.specs.Laws.{RenamingKeepsBits, RenamingKeepsFits, RenamingKeepsOperations};

/// Events have the same bits where qubits and results get other names, no two of the qubits the same.
pub fn renaming_keeps_bits()
    ensures { RenamingKeepsBits }
{}

/// An operation with other names can be done exactly where the operation can.
pub fn renaming_keeps_operations()
    ensures { RenamingKeepsOperations }
{}

/// Events with other names fit exactly where the events do.
pub fn renaming_keeps_fits()
    ensures { RenamingKeepsFits }
{}
