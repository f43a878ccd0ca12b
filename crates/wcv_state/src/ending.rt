// The type of what was read.
ghost use Rattle.std.specs.Prelude.{◌≡◌, false, OnOk, OnErr, IfOk, IfErr};
ghost use Rattle.wcv_lower.specs.Ending.{end_checks};
ghost use Rattle.wcv_spaces.specs.Contents.{spent, ended, finished, context_of, StateStands};
ghost use Rattle.wcv_resources.specs.Ending.{Ended, IsTypeOf};
ghost use Rattle.wcv_spaces.specs.Promises.{MemoryOrCausedBy, RefusesBy, Finished};

use crate::state::ComponentState;
use std::alloc::Global;
use std::mem::replace;
use wcv_core::{Error, IndexMapAppendOnly, OutOfMemory};
use wcv_resources::kept::{check_imports, kept_paths};
use wcv_types::{ComponentType, ItemMap, Paths, TypeAlloc};

impl ComponentState {
    /// The defined resources that the type of what was read keeps, in order: those that are free in an export, each
    /// with its first path there.
    fn end(&self, types: &TypeAlloc, offset: u64) -> Result<Paths, Error>
        requires { StateStands types.now self.now }
        ensures ok { IfOk result (Ended types.now self.now) }
        ensures err { IfErr result (MemoryOrCausedBy (end_checks (context_of types.now self.now)) offset) }
    {
        check_imports(types, &self.imports.items, &self.defined_resources, offset)?;
        match kept_paths(types, &self.exports.items, &self.defined_resources, offset) {
            Ok(paths) => Ok(paths),
            Err(error) => Err(error),
        }
    }

    /// The type of what was read: its imports and exports, in order, the resources that it imports, and those
    /// that it defines and that are free in an export, each with its first path. Imports and exports are copied,
    /// and may still be read; the resources leave the state, which is spent. Refuses as `ResourceScope` a defined
    /// resource that is free in an import, and one that is free in an export and has no path there.
    pub fn finish(&mut self, types: &TypeAlloc, offset: u64) -> Result<ComponentType, Error>
        requires live { self.old.spent ≡ false }
        requires stands { StateStands types.now self.old }
        ensures ok { IfOk result (Finished types.now self.old) }
        ensures err { IfErr result (RefusesBy (end_checks (context_of types.now self.old)) self.new offset) }
        ensures after { OnOk result (self.new ≡ ended self.old) }
        ensures left { OnErr result (self.new ≡ spent self.old) }
    {
        let paths = match self.end(types, offset) {
            Ok(paths) => paths,
            Err(error) => {
                self.spent = true;
                return Err(error);
            }
        };
        let ty = self.copied_type(paths, types.allocator())?;
        Ok(ty)
    }

    /// The same type, where imports and exports leave the state too and no name is copied.
    pub fn take_type(&mut self, types: &TypeAlloc, offset: u64) -> Result<ComponentType, Error>
        requires live { self.old.spent ≡ false }
        requires stands { StateStands types.now self.old }
        ensures ok { IfOk result (Finished types.now self.old) }
        ensures err { IfErr result (RefusesBy (end_checks (context_of types.now self.old)) self.new offset) }
        ensures after { OnOk result (self.new ≡ finished self.old) }
        ensures left { OnErr result (self.new ≡ spent self.old) }
    {
        let paths = match self.end(types, offset) {
            Ok(paths) => paths,
            Err(error) => {
                self.spent = true;
                return Err(error);
            }
        };
        Ok(self.moved_type(paths, types.allocator()))
    }

    /// The type of what was read, with those defined resources. Imports and exports are copied.
    fn copied_type(
        &mut self,
        defined_resources: Paths,
        alloc: Global,
    ) -> Result<ComponentType, OutOfMemory>
        ensures ok { IfOk result (IsTypeOf self.old defined_resources) }
        ensures after { OnOk result (self.new ≡ ended self.old) }
        ensures left { OnErr result (self.new ≡ spent self.old) }
    {
        self.spent = true;
        let imports = self.imports.items.copy(alloc)?;
        let exports = self.exports.items.copy(alloc)?;
        self.defined_resources = IndexMapAppendOnly::new(alloc);
        Ok(ComponentType {
            info: self.info,
            imports,
            exports,
            imported_resources: replace(&mut self.imported_resources, Paths::new(alloc)),
            defined_resources,
        })
    }

    /// The type of what was read, with those defined resources. Imports and exports leave the state.
    fn moved_type(&mut self, defined_resources: Paths, alloc: Global) -> ComponentType
        ensures ok { IsTypeOf self.old defined_resources result }
        ensures after { self.new ≡ finished self.old }
    {
        self.spent = true;
        self.defined_resources = IndexMapAppendOnly::new(alloc);
        ComponentType {
            info: self.info,
            imports: replace(&mut self.imports.items, ItemMap::new(alloc)),
            exports: replace(&mut self.exports.items, ItemMap::new(alloc)),
            imported_resources: replace(&mut self.imported_resources, Paths::new(alloc)),
            defined_resources,
        }
    }
}
