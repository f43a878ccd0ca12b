// Imports and exports of a core module by name.
ghost use Rattle.std.specs.Prelude.{◌≡◌, List, [], ◌∷◌, ◌++◌, bytes_eq, length, take, slice_get, option_copied, IfOk, OnOk, OnErr};
ghost use Rattle.std.specs.Map.{lookup};
ghost use Rattle.wcv_core.specs.TextSet.{same_pair};

use crate::again::copy_text;
use crate::by_name::{ByName, walk};
use std::alloc::Global;
use std::marker::Model;
use wcv_core::{EntityType, OutOfMemory, Text};

/// Imports by the names of a module and of an item in it, in order. Contracts see it as the list of its pairs.
#[derive(Drop)]
pub struct ImportMap {
    entries: Vec<((Text, Text), EntityType)>,
}

impl Model for ImportMap {
    ghost use Rattle.std.specs.Prelude.{List};
    ghost use Rattle.wcv_core.specs.declared.core_types.EntityType.{EntityType};
    ghost use Rattle.wcv_types.specs.Tree.{Text};

    ghost Value = { List ((Text × Text) × EntityType) };

    ghost view = { λ m. m.entries.items };
}

/// Whether the pairs of names are one.
fn is_pair(a: &(Text, Text), b: &(Text, Text)) -> bool
    ensures { result ≡ same_pair a.now b.now }
{
    a.0.as_str() == b.0.as_str() && a.1.as_str() == b.1.as_str()
}

impl ImportMap {
    /// A map with no pair. It takes no memory.
    pub fn new(alloc: Global) -> ImportMap
        ensures { result ≡ [] }
    {
        ImportMap {
            entries: Vec::new(alloc),
        }
    }

    /// Appends a pair.
    pub fn push(&mut self, entry: ((Text, Text), EntityType)) -> Result<(), OutOfMemory>
        ensures ok { OnOk result (self.new ≡ self.old ++ entry ∷ []) }
        ensures err { OnErr result (self.new ≡ self.old) }
    {
        self.entries.push(entry)?;
        Ok(())
    }

    /// Appends a copy of a pair.
    fn push_copy(
        &mut self,
        alloc: Global,
        entry: &((Text, Text), EntityType),
    ) -> Result<(), OutOfMemory>
        ensures { OnOk result (self.new ≡ self.old ++ entry.now ∷ []) }
    {
        let module = copy_text(alloc, &entry.0.0)?;
        let name = copy_text(alloc, &entry.0.1)?;
        self.push(((module, name), entry.1))
    }

    /// How many pairs there are.
    pub fn len(&self) -> usize
        ensures { result ≡ length self.now }
    {
        self.entries.len()
    }

    /// The pair at this position.
    pub fn get_index(&self, k: usize) -> Option<&((Text, Text), EntityType)>
        ensures { option_copied result ≡ slice_get self.now k }
    {
        self.entries.get(k)
    }

    /// What is imported under the first pair of these names, by a walk through all of them.
    #[tactic(auto, using(crate::proofs::FirstPlaces::next_entry, crate::proofs::FirstPlaces::no_entry))]
    pub fn get(&self, key: &(Text, Text)) -> Option<&EntityType>
        ensures { option_copied result ≡ lookup (same_pair key.now) self.now }
    {
        for entry in self.as_slice() {
            if is_pair(key, &entry.0) {
                return Some(&entry.1);
            }
        }
        None
    }

    /// An equal map.
    pub fn copy(&self, alloc: Global) -> Result<ImportMap, OutOfMemory>
        ensures { IfOk result (λ copied. copied ≡ self.now) }
    {
        let mut copied = ImportMap::new(alloc);
        let entries = self.as_slice();
        for entry in entries {
            copied.push_copy(alloc, entry)?;
        }
        Ok(copied)
    }

    /// All pairs, lent.
    pub fn as_slice(&self) -> &[((Text, Text), EntityType)]
        ensures { result.now ≡ self.now }
    {
        self.entries.as_slice()
    }
}

/// Exports by name, in order. Contracts see it as the list of its pairs.
#[derive(Drop)]
pub struct ExportMap {
    entries: Vec<(Text, EntityType)>,
}

impl Model for ExportMap {
    ghost use Rattle.std.specs.Prelude.{List};
    ghost use Rattle.wcv_core.specs.declared.core_types.EntityType.{EntityType};
    ghost use Rattle.wcv_types.specs.Tree.{Text};

    ghost Value = { List (Text × EntityType) };

    ghost view = { λ m. m.entries.items };
}

impl ExportMap {
    /// A map with no pair. It takes no memory.
    pub fn new(alloc: Global) -> ExportMap
        ensures { result ≡ [] }
    {
        ExportMap {
            entries: Vec::new(alloc),
        }
    }

    /// A map of these pairs.
    pub fn from_entries(entries: Vec<(Text, EntityType)>) -> ExportMap
        ensures { result ≡ entries.items }
    {
        ExportMap { entries }
    }

    /// Appends a pair.
    pub fn push(&mut self, entry: (Text, EntityType)) -> Result<(), OutOfMemory>
        ensures ok { OnOk result (self.new ≡ self.old ++ entry ∷ []) }
        ensures err { OnErr result (self.new ≡ self.old) }
    {
        self.entries.push(entry)?;
        Ok(())
    }

    /// How many pairs there are.
    pub fn len(&self) -> usize
        ensures { result ≡ length self.now }
    {
        self.entries.len()
    }

    /// The pair at this position.
    pub fn get_index(&self, k: usize) -> Option<&(Text, EntityType)>
        ensures { option_copied result ≡ slice_get self.now k }
    {
        self.entries.get(k)
    }

    /// All pairs, lent.
    pub(crate) fn as_slice(&self) -> &[(Text, EntityType)]
        ensures { result.now ≡ self.now }
    {
        self.entries.as_slice()
    }

    /// What is exported under the first pair of this name, by a walk through all of them. Of a type that the arena
    /// has, `TypeAlloc::module_export_of` and `TypeAlloc::listed_export_of` find it faster.
    pub fn get(&self, key: &Text) -> Option<&EntityType>
        ensures { option_copied result ≡ lookup (bytes_eq key.now) self.now }
    {
        walk(self.as_slice(), key)
    }

    /// The same pairs, by their names. Who will ask for many names asks there.
    pub fn by_name(&self, alloc: Global) -> Result<ByName<'_, EntityType>, OutOfMemory>
        ensures { IfOk result (λ m. m ≡ self.now) }
    {
        ByName::new(alloc, self.entries.as_slice())
    }

    /// An equal map.
    pub fn copy(&self, alloc: Global) -> Result<ExportMap, OutOfMemory>
        ensures { IfOk result (λ copied. copied ≡ self.now) }
    {
        let mut copied = ExportMap::new(alloc);
        for entry in &self.entries {
            copied.push((Text::new(alloc, entry.0.as_str())?, entry.1))?;
        }
        Ok(copied)
    }

    /// Lets go of all pairs behind the first ones.
    pub fn truncate(&mut self, len: usize)
        ensures { self.new ≡ take len self.old }
    {
        self.entries.truncate(len);
    }
}
