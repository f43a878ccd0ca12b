// What a module takes from around it.
ghost use Rattle.std.specs.Prelude.{◌≡◌, List, [], Some, slice_get, map, reverse, All, IfOk, OnOk, OnErr, IfErr};
ghost use Rattle.std.specs.Option.{option_map};
ghost use Rattle.wcv_core.specs.Checks.{IsFree, CausedBy, MemoryOrCausedBy};
ghost use Rattle.wcv_core.specs.Refusal.{error_kind, error_offset};
ghost use Rattle.wcv_syntax.specs.ModuleTypes.{space_at, aliased, alias_checks, alias_joins, with_type};

use crate::module::Module;
use wcv_core::{CoreTypeId, Error, ErrorKind, InternRecGroup, Refusal, Why};

/// The core types of what is open around a module. Contracts see it as the entries of each, the innermost first.
pub trait OuterTypes {
    ghost use Rattle.std.specs.Prelude.{◌≡◌, List, Some, slice_get, IfOk, OnOk, IfErr};
    ghost use Rattle.wcv_core.specs.Checks.{IsFree, CausedBy};
    ghost use Rattle.wcv_core.specs.CoreWritten.{Core_entry};
    ghost use Rattle.wcv_syntax.specs.ModuleTypes.{at_index, on_entry, alias_checks};

    /// The entries.
    ghost spaces: { Self → List (List Core_entry) };

    /// The type at an index, in the innermost by the depth 0.
    fn outer_type(
        &self,
        depth: u32,
        index: u32,
        offset: u64,
    ) -> Result<CoreTypeId, Refusal<'static>>
        ensures ok { IfOk result (λ id. on_entry (at_index (slice_get (spaces self.now) depth) index) ≡ Some id.index) }
        ensures free { OnOk result (IsFree (alias_checks (slice_get (spaces self.now) depth) index)) }
        ensures err { IfErr result (CausedBy (alias_checks (slice_get (spaces self.now) depth) index) offset) };
}

/// A refusal of a depth that is past what is open.
fn past(depth: u32, len: usize, offset: u64) -> Refusal<'static>
    ensures kind { error_kind result ≡ ErrorKind.OutOfBounds }
    ensures offset { error_offset result ≡ offset }
{
    let why = Why::new(
        "an outer alias looks past %1 components and types, and %2 are open around the module",
    );
    let why = why.numbers([depth as u64, len as u64, 0]);
    Error::new(ErrorKind::OutOfBounds, offset, why)
}

/// Nothing is open around a module.
#[derive(Drop)]
pub struct NoOuter;

impl OuterTypes for NoOuter {
    ghost use Rattle.std.specs.Prelude.{[]};

    ghost spaces = { λ o. [] };

    fn outer_type(
        &self,
        depth: u32,
        index: u32,
        offset: u64,
    ) -> Result<CoreTypeId, Refusal<'static>> {
        let _ = index;
        Err(past(depth, 0, offset))
    }
}

/// What is open around a module, the outermost first.
#[derive(Drop)]
pub struct Enclosing<'a, G> {
    pub groups: &'a [G],
}

impl<'a, G: InternRecGroup> OuterTypes for Enclosing<'a, G> {
    ghost use Rattle.std.specs.Prelude.{map, reverse};

    ghost spaces = { λ o. reverse (map G.entries o.groups.now) };

    fn outer_type(
        &self,
        depth: u32,
        index: u32,
        offset: u64,
    ) -> Result<CoreTypeId, Refusal<'static>> {
        let len = self.groups.len();
        if depth as usize >= len {
            return Err(past(depth, len, offset));
        }
        match self.groups[len - 1 - depth as usize].type_id_at(index, offset) {
            Ok(id) => Ok(id),
            Err(err) => Err(err),
        }
    }
}

impl Module {
    /// The type that an outer alias names: one of the module's own types by the count 0, else one of what is open
    /// around it, the innermost by the count 1.
    pub fn outer_type_at<O: OuterTypes>(
        &self,
        outers: &O,
        count: u32,
        index: u32,
        offset: u64,
    ) -> Result<CoreTypeId, Refusal<'static>>
        ensures ok { IfOk result (λ id. aliased (O.spaces outers.now) self.now count index ≡ Some id.index) }
        ensures free { OnOk result (IsFree (alias_checks (space_at (O.spaces outers.now) self.now count) index)) }
        ensures err { IfErr result (CausedBy (alias_checks (space_at (O.spaces outers.now) self.now count) index) offset) }
    {
        if count == 0 {
            return match self.type_id_at(index, offset) {
                Ok(id) => Ok(id),
                Err(err) => Err(err),
            };
        }
        match outers.outer_type(count - 1, index, offset) {
            Ok(id) => Ok(id),
            Err(err) => Err(err),
        }
    }

    /// Adds the type that an outer alias names.
    pub fn add_outer_alias<O: OuterTypes>(
        &mut self,
        outers: &O,
        count: u32,
        index: u32,
        offset: u64,
    ) -> Result<(), Refusal<'static>>
        ensures ok { OnOk result (option_map (with_type self.old) (aliased (O.spaces outers.now) self.old count index) ≡ Some self.new) }
        ensures free { OnOk result (IsFree (alias_joins (O.spaces outers.now) self.old count index)) }
        ensures cause { IfErr result (MemoryOrCausedBy (alias_joins (O.spaces outers.now) self.old count index) offset) }
        ensures err { OnErr result (self.new ≡ self.old) }
    {
        let id = self.outer_type_at(outers, count, index, offset)?;
        self.add_alias_type(id, offset)
    }
}
