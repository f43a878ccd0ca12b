// Declarations of a core module or of its type, one after another.
ghost use Rattle.std.specs.Prelude.{◌≡◌, suc, Some, All, map, IfOk, OnOk, IfErr};
ghost use Rattle.wcv_core.specs.Checks.{IsFree, MemoryOrCausedBy};
ghost use Rattle.wcv_core.specs.CoreGroups.{total};
ghost use Rattle.wcv_core.specs.CoreSizes.{IsEntityWithin};
ghost use Rattle.wcv_core.specs.CoreWritten.{IsKnown};
ghost use Rattle.wcv_syntax.specs.ModuleTypes.{module_entries, empty_module, decl_checks, declared, all_declared, module_checks};
ghost use Rattle.wcv_syntax.specs.View.{module_decl_view};
ghost use Rattle.wcv_module.specs.Kept.{IsUndone, IsCounted, module_items};
ghost use Rattle.wcv_types.specs.CoreCalls.{with_core};
ghost use Rattle.wcv_types.specs.Standing.{Extends, KeepsTrees, entity_sizes};

use crate::limits::{check_group, check_import_names, check_name};
use crate::module::Module;
use crate::outer::OuterTypes;
use std::alloc::Global;
use wcv_core::{Error, Refusal, WasmFeatures};
use wcv_syntax::{ModuleDecl, ModuleTypeDeclaration};
use wcv_types::TypeAlloc;

/// A declaration of a core module or of its type.
pub trait ModuleDeclaration: Drop {
    ghost use Rattle.std.specs.Prelude.{◌≡◌, OnOk, IfErr};
    ghost use Rattle.wcv_core.specs.Checks.{IsFree, CausedBy};
    ghost use Rattle.wcv_syntax.specs.Model.{Module_decl};
    ghost use Rattle.wcv_syntax.specs.ModuleTypes.{decl_left};
    ghost use Rattle.wcv_syntax.specs.View.{module_decl_view};

    /// What it declares.
    ghost form: { Self → Module_decl };

    /// The same as a declaration of a module type.
    fn into_type_declaration(self) -> ModuleTypeDeclaration
        ensures { module_decl_view result ≡ form self };

    /// Whether its lists and texts keep their limits.
    fn check_limits(&self, offset: u64) -> Result<(), Refusal<'static>>
        ensures ok { OnOk result (IsFree (decl_left (form self.now))) }
        ensures err { IfErr result (CausedBy (decl_left (form self.now)) offset) };
}

impl ModuleDeclaration for ModuleTypeDeclaration {
    ghost use Rattle.wcv_syntax.specs.View.{module_decl_view};

    ghost form = { module_decl_view };

    fn into_type_declaration(self) -> ModuleTypeDeclaration {
        self
    }

    fn check_limits(&self, offset: u64) -> Result<(), Refusal<'static>> {
        match self {
            ModuleTypeDeclaration::Ty(rec) => check_group(rec, offset),
            ModuleTypeDeclaration::Import(import) => check_import_names(import, offset),
            ModuleTypeDeclaration::Export { name, .. } => check_name(name, "an export", offset),
            ModuleTypeDeclaration::OuterAlias { .. } => Ok(()),
        }
    }
}

impl ModuleDeclaration for ModuleDecl {
    ghost use Rattle.wcv_syntax.specs.View.{code_decl_view};

    ghost form = { code_decl_view };

    fn into_type_declaration(self) -> ModuleTypeDeclaration {
        self.in_module_type()
    }

    fn check_limits(&self, offset: u64) -> Result<(), Refusal<'static>> {
        match self {
            ModuleDecl::Ty(rec) => check_group(rec, offset),
            ModuleDecl::Import(import) => check_import_names(import, offset),
            ModuleDecl::Export { name, .. } => check_name(name, "an export", offset),
        }
    }
}

impl Module {
    /// Adds a declaration behind the others. Of the arena the table of core types alone grows.
    #[tactic(auto, using(wcv_types::proofs::Grown::extends_refl, crate::proofs::Growing::keeps_same))]
    pub fn add_declaration<O: OuterTypes>(
        &mut self,
        decl: ModuleTypeDeclaration,
        outers: &O,
        types: &mut TypeAlloc,
        offset: u64,
    ) -> Result<(), Error>
        requires known { All (IsKnown (total types.old.core)) (module_entries self.old) }
        requires around { All (All (IsKnown (total types.old.core))) (O.spaces outers.now) }
        ensures ok { OnOk result (declared (O.spaces outers.now) types.old.core self.old (module_decl_view decl) ≡ Some (types.new.core, self.new)) }
        ensures free { OnOk result (IsFree (decl_checks (O.spaces outers.now) types.old.core self.old (module_decl_view decl))) }
        ensures known { All (IsKnown (total types.new.core)) (module_entries self.new) }
        ensures cause { IfErr result (MemoryOrCausedBy (decl_checks (O.spaces outers.now) types.old.core self.old (module_decl_view decl)) offset) }
        ensures err { IfErr result (IsUndone self.old self.new types.old.core types.new.core) }
        ensures rest { types.new ≡ with_core types.old types.new.core }
        ensures grown { Extends types.old types.new }
        ensures stay { KeepsTrees types.old types.new }
    {
        match decl {
            ModuleTypeDeclaration::Ty(rec) => Ok(self.add_types(rec, types, offset)?),
            ModuleTypeDeclaration::Import(import) => {
                Ok(self.add_import(import, types.core_types(), offset)?)
            }
            ModuleTypeDeclaration::Export { name, ty } => {
                Ok(self.add_written_export(name.as_str(), &ty, types.core_types(), offset)?)
            }
            ModuleTypeDeclaration::OuterAlias { count, index } => {
                Ok(self.add_outer_alias(outers, count, index, offset)?)
            }
        }
    }

    /// Adds declarations behind the others. All of them stand at one offset.
    fn add_declarations<D: ModuleDeclaration, O: OuterTypes>(
        &mut self,
        decls: Vec<D>,
        outers: &O,
        types: &mut TypeAlloc,
        offset: u64,
    ) -> Result<(), Error>
        requires known { All (IsKnown (total types.old.core)) (module_entries self.old) }
        requires around { All (All (IsKnown (total types.old.core))) (O.spaces outers.now) }
        requires counted { IsCounted types.old.core self.old }
        ensures ok { OnOk result (all_declared (O.spaces outers.now) types.old.core self.old (map D.form decls.items) ≡ Some (types.new.core, self.new)) }
        ensures free { OnOk result (IsFree (module_checks (O.spaces outers.now) types.old.core self.old (map D.form decls.items))) }
        ensures known { OnOk result (All (IsKnown (total types.new.core)) (module_entries self.new)) }
        ensures counted { OnOk result (IsCounted types.new.core self.new) }
        ensures cause { IfErr result (MemoryOrCausedBy (module_checks (O.spaces outers.now) types.old.core self.old (map D.form decls.items)) offset) }
        ensures rest { types.new ≡ with_core types.old types.new.core }
        ensures grown { Extends types.old types.new }
    {
        for decl in decls {
            self.add_declaration(decl.into_type_declaration(), outers, types, offset)?;
        }
        self.check_whole(offset)
    }

    /// The module that declarations make, where they have no cause of a refusal. All of them stand at one offset.
    /// Of the arena the table of core types alone grows, whatever is answered.
    pub fn declare<D: ModuleDeclaration, O: OuterTypes>(
        alloc: Global,
        features: WasmFeatures,
        decls: Vec<D>,
        outers: &O,
        types: &mut TypeAlloc,
        offset: u64,
    ) -> Result<Module, Error>
        requires around { All (All (IsKnown (total types.old.core))) (O.spaces outers.now) }
        ensures ok { IfOk result (λ made. all_declared (O.spaces outers.now) types.old.core (empty_module features) (map D.form decls.items) ≡ Some (types.new.core, made)) }
        ensures free { OnOk result (IsFree (module_checks (O.spaces outers.now) types.old.core (empty_module features) (map D.form decls.items))) }
        ensures known { IfOk result (λ made. All (IsKnown (total types.new.core)) (module_entries made)) }
        ensures within { IfOk result (λ made. All (IsEntityWithin (total types.new.core)) (module_items made)) }
        ensures size { IfOk result (λ made. made.size ≡ suc (entity_sizes types.new.core (module_items made))) }
        ensures cause { IfErr result (MemoryOrCausedBy (module_checks (O.spaces outers.now) types.old.core (empty_module features) (map D.form decls.items)) offset) }
        ensures rest { types.new ≡ with_core types.old types.new.core }
        ensures grown { Extends types.old types.new }
        ensures stay { KeepsTrees types.old types.new }
    {
        let mut made = Module::new(alloc, features);
        match made.add_declarations(decls, outers, types, offset) {
            Ok(()) => Ok(made),
            Err(err) => Err(err),
        }
    }
}
