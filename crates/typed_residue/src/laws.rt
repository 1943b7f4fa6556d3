//! Laws of printed residues. Each function does nothing: what it ensures is the law.
ghost use Rattle.typed_residue.specs.Laws.{KeepsCases, KeepsEntry, KeepsFirstBlocks, KeepsKnown, KeepsNames, KeepsNumbers, KeepsPhis, KeepsSignature, KeepsStated, KeepsTypes, PrintedIsTyped};

/// The types of operands, results, cases and returns agree.
pub fn keeps_types()
    ensures { KeepsTypes }
{}

/// No two cases of a switch are equal.
pub fn keeps_cases()
    ensures { KeepsCases }
{}

/// No edge leads to a first block, which has no phis.
pub fn keeps_first_blocks()
    ensures { KeepsFirstBlocks }
{}

/// Every declared function that is called has a class.
pub fn keeps_known()
    ensures { KeepsKnown }
{}

/// Constants and functions with a body have names of their own.
pub fn keeps_names()
    ensures { KeepsNames }
{}

/// There is one entry.
pub fn keeps_entry()
    ensures { KeepsEntry }
{}

/// The entry takes no parameters and returns a code.
pub fn keeps_signature()
    ensures { KeepsSignature }
{}

/// The required numbers that the entry states are plain and within the limit.
pub fn keeps_stated()
    ensures { KeepsStated }
{}

/// Numbers of qubits and results are below the required ones.
pub fn keeps_numbers()
    ensures { KeepsNumbers }
{}

/// A phi has an entry for each edge into its block, and entries for one block don't differ.
pub fn keeps_phis()
    ensures { KeepsPhis }
{}

/// The module breaks no rule of admission where the required numbers are within the limit and the
/// residue's own handles below them.
pub fn printed_is_typed()
    ensures { PrintedIsTyped }
{}
