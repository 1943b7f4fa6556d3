//! Names with the numbers of their definitions.
ghost use Rattle.std.specs.Prelude.{◌≡◌, ◌++◌, ◌∷◌, [], List, None, Some, OnOk, if◌then◌else◌};
ghost use Rattle.std.proofs.Common.{rules};
ghost use Rattle.ir_values.specs.Equal.{equal_decides};
ghost use Rattle.indexmap.specs.IndexMap.{get};
ghost use Rattle.std.specs.Option.{option_or};
ghost use Rattle.ir_names.specs.code.Tables as spec;

use indexmap::IndexMap;
use ir_values::{Exact, Memory};
use std::alloc::Global;
use std::hash::Hash;

/// The number of a group or a node, as the text writes it; None where an item is none.
#[derive(Clone, Copy, PartialEq, Eq, Hash)]
pub struct Written(pub Option<u128>);

impl Exact for Written {
    ghost exact = { Prim.search (rules, equal_decides) };
}

/// The names of the definitions of one sort, in text order. Each name has the number of its first
/// definition, counted from 0.
#[derive(Drop)]
pub struct Numbers<K: Eq + Hash> {
    pub count: u64,
    pub firsts: IndexMap<K, u64>,
}

impl<K: Exact + Hash + Drop> Numbers<K> {
    /// No name. It takes no memory.
    pub fn new(alloc: Global) -> Numbers<K>
        ensures { spec.Numbers K.eq result [] }
    {
        Numbers {
            count: 0,
            firsts: IndexMap::new(alloc),
        }
    }

    /// Adds the name of the next definition. [`Memory`] comes also where there are 2^64 - 1 of them.
    #[tactic(auto, using(crate::proofs::Numbered::added))]
    pub fn add(&mut self, name: K) -> Result<(), Memory>
        ensures { OnOk result ((names : List K) → spec.Numbers K.eq self.old names → spec.Numbers K.eq self.new (names ++ name ∷ [])) }
    {
        if self.count == u64::MAX {
            return Err(Memory);
        }
        note(&mut self.firsts, name, self.count)?;
        self.count += 1;
        Ok(())
    }

    /// The number of the first definition of a name. None exactly where there is none. It takes no memory.
    pub fn number(&self, name: &K) -> Option<u64>
        ensures { result ≡ spec.number_in K.eq self.now name.now }
    {
        self.firsts.get(name).copied()
    }
}

/// Notes the number of a name, unless it has one.
#[tactic(auto, using(crate::proofs::Numbered::by_new, crate::proofs::Numbered::by_old))]
fn note<K: Exact + Hash + Drop>(
    firsts: &mut IndexMap<K, u64>,
    name: K,
    number: u64,
) -> Result<(), Memory>
    ensures { OnOk result ((k : K) → get K.eq firsts.new k ≡ option_or (get K.eq firsts.old k) (if K.eq k name then Some number else None)) }
{
    if firsts.contains_key(&name) {
        return Ok(());
    }
    firsts.insert(name, number)?;
    Ok(())
}
