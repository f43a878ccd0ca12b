// The arena's table of core types.
ghost use Rattle.std.specs.Prelude.{◌≡◌, ℕ, ◌+◌, ◌<◌, ◌^◌, ◌++◌, map, length, slice_get, All, Some, OnOk, OnErr, IfOk, IfErr};
ghost use Rattle.wcv_core.specs.Checks.{IsFree, MemoryOrCausedBy};
ghost use Rattle.wcv_core.specs.CoreForm.{group_form};
ghost use Rattle.wcv_core.specs.CoreGroups.{IsClosed, id_of, total};
ghost use Rattle.wcv_core.specs.CoreJoining.{group_ids, grown, group_checks, with_types, IsLeft};
ghost use Rattle.wcv_core.specs.CoreSizes.{IsEntityWithin};
ghost use Rattle.wcv_core.specs.CoreTable.{with_group, limit_checks};
ghost use Rattle.wcv_core.specs.CoreWritten.{sub_entry, IsKnown, closed_group};
ghost use Rattle.wcv_types.specs.CoreCalls.{with_core, sole_group, func_group};
ghost use Rattle.wcv_types.specs.Standing.{Extends, KeepsTrees, core_items};
ghost use Rattle.wcv_types.specs.declared.arena.Node.{Node};

use crate::arena::TypeAlloc;
use wcv_core::{
    CompositeInnerType, CoreTypeId, CoreTypes, FuncType, InternRecGroup, OutOfMemory, RecGroup,
    Refusal, SubType, canonicalize_and_intern_rec_group,
};

impl TypeAlloc {
    /// The table of core types.
    pub fn core_types(&self) -> &CoreTypes
        ensures { result.now ≡ self.now.core }
    {
        &self.core
    }

    /// The core types that the modules of the arena name are of its table. It does nothing.
    pub fn modules_within(&self)
        ensures { (k : ℕ) (x : Node) → slice_get self.now.nodes k ≡ Some x → All (IsEntityWithin (total self.now.core)) (core_items x) }
    {
        let _ = &self.core;
    }

    /// Puts a group into closed form, interns it, and adds its types behind the others of a space. An empty
    /// group is not interned. After a refusal nothing has changed; if memory ended, the table may have the
    /// group, and the space some of its types.
    pub fn intern_rec_group<G: InternRecGroup>(
        &mut self,
        group: &mut G,
        rec: RecGroup,
        offset: u64,
    ) -> Result<(), Refusal<'static>>
        requires known { All (IsKnown (total self.old.core)) (G.entries group.old) }
        requires room { length (G.entries group.old) + length (group_form rec) < 2 ^ 32 }
        ensures free { OnOk result (IsFree (group_checks (G.allowed group.old) self.old.core (G.entries group.old) (group_form rec))) }
        ensures table { OnOk result (self.new.core ≡ grown self.old.core (closed_group (G.entries group.old) (group_form rec))) }
        ensures group { OnOk result (group.new ≡ with_types G.with_type group.old (group_ids self.old.core (closed_group (G.entries group.old) (group_form rec)))) }
        ensures entries { OnOk result (G.entries group.new ≡ G.entries group.old ++ map sub_entry (group_ids self.old.core (closed_group (G.entries group.old) (group_form rec)))) }
        ensures features { G.allowed group.new ≡ G.allowed group.old }
        ensures known { All (IsKnown (total self.new.core)) (G.entries group.new) }
        ensures cause { IfErr result (MemoryOrCausedBy (group_checks (G.allowed group.old) self.old.core (G.entries group.old) (group_form rec)) offset) }
        ensures err { IfErr result (IsLeft G.with_type G.failed group.old group.new self.old.core self.new.core (closed_group (G.entries group.old) (group_form rec))) }
        ensures rest { self.new ≡ with_core self.old self.new.core }
        ensures grown { Extends self.old self.new }
        ensures stay { KeepsTrees self.old self.new }
    {
        canonicalize_and_intern_rec_group(group, &mut self.core, rec, offset)
    }

    /// The id of the first type of a group in closed form. A group that is not there is appended.
    pub fn intern_closed(&mut self, group: RecGroup) -> Result<CoreTypeId, OutOfMemory>
        requires { IsClosed (total self.old.core) (group_form group) }
        ensures id { IfOk result (λ id. id_of self.new.core (group_form group) ≡ Some id.index) }
        ensures groups { OnOk result (self.new ≡ with_core self.old (with_group self.old.core (group_form group))) }
        ensures err { OnErr result (self.new ≡ self.old) }
        ensures grown { Extends self.old self.new }
        ensures stay { KeepsTrees self.old self.new }
    {
        self.core.intern_closed(group)
    }

    /// The id of the type, in a group of its own and in closed form, with the limit on how many types there are.
    pub fn intern_sub_type(
        &mut self,
        ty: SubType,
        offset: u64,
    ) -> Result<CoreTypeId, Refusal<'static>>
        requires { IsClosed (total self.old.core) (sole_group ty) }
        ensures id { IfOk result (λ id. id_of self.new.core (sole_group ty) ≡ Some id.index) }
        ensures groups { OnOk result (self.new ≡ with_core self.old (with_group self.old.core (sole_group ty))) }
        ensures free { OnOk result (IsFree (limit_checks self.old.core (sole_group ty))) }
        ensures cause { IfErr result (MemoryOrCausedBy (limit_checks self.old.core (sole_group ty)) offset) }
        ensures err { OnErr result (self.new ≡ self.old) }
        ensures grown { Extends self.old self.new }
        ensures stay { KeepsTrees self.old self.new }
    {
        let mut types = Vec::new(self.allocator());
        types.push(ty)?;
        self.core.intern(RecGroup { types }, offset)
    }

    /// So of a function type, which is final, has no supertype, and is not shared.
    pub fn intern_func_type(
        &mut self,
        ty: FuncType,
        offset: u64,
    ) -> Result<CoreTypeId, Refusal<'static>>
        requires { IsClosed (total self.old.core) (func_group ty) }
        ensures id { IfOk result (λ id. id_of self.new.core (func_group ty) ≡ Some id.index) }
        ensures groups { OnOk result (self.new ≡ with_core self.old (with_group self.old.core (func_group ty))) }
        ensures free { OnOk result (IsFree (limit_checks self.old.core (func_group ty))) }
        ensures cause { IfErr result (MemoryOrCausedBy (limit_checks self.old.core (func_group ty)) offset) }
        ensures err { OnErr result (self.new ≡ self.old) }
        ensures grown { Extends self.old self.new }
        ensures stay { KeepsTrees self.old self.new }
    {
        let ty = SubType {
            is_final: true,
            supertype: None,
            shared: false,
            inner: CompositeInnerType::Func(ty),
        };
        self.intern_sub_type(ty, offset)
    }
}
