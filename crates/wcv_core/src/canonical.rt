// Groups of core types as they were written, put into closed form and interned.
ghost use Rattle.std.specs.Prelude.{◌≡◌, ◌+◌, ◌≤◌, ◌<◌, ◌^◌, ◌++◌, ◌∷◌, map, length, All, IfOk, OnOk, OnErr, IfErr, take};
ghost use Rattle.std.specs.List.{range_with_len};
ghost use Rattle.wcv_core.specs.Checks.{IsFree, CausedBy, MemoryOrCausedBy};
ghost use Rattle.wcv_core.specs.CoreForm.{sub_form, group_form};
ghost use Rattle.wcv_core.specs.CoreGroups.{IsClosed, total};
ghost use Rattle.wcv_core.specs.CoreJoining.{is_late, order_checks, written_checks, group_ids, table_checks, grown, group_checks, with_types, IsBegun, IsLeft};
ghost use Rattle.wcv_core.specs.Refusal.{error_kind, error_offset};
ghost use Rattle.wcv_core.specs.CoreWritten.{sub_entry, IsKnown, closed_group};

use crate::core_closing::{Site, close_subs};
use crate::core_features::check_group_features;
use crate::core_table::CoreTypes;
use crate::core_types::{RecGroup, SubType, SuperType};
use crate::error::{Error, ErrorKind, Refusal, Why};
use crate::memory::OutOfMemory;
use crate::rec_group::InternRecGroup;

/// Whether the type at this position of its group has a supertype of the group that does not stand before it.
fn is_late(position: usize, supertype: Option<SuperType>) -> bool
    ensures { result ≡ is_late position supertype }
{
    match supertype {
        Some(SuperType::Index(index)) => index as usize >= position,
        _ => false,
    }
}

fn late(position: usize, offset: u64) -> Refusal<'static>
    ensures kind { error_kind result ≡ ErrorKind.CoreType }
    ensures offset { error_offset result ≡ offset }
{
    Error::new(
        ErrorKind::CoreType,
        offset,
        Why::new("type %1 of the group has a supertype that does not stand before it").numbers([
            position as u64,
            0,
            0,
        ]),
    )
}

/// Whether each supertype stands before its type. The group is in closed form.
#[tactic(auto, using(crate::proofs::Ordered::order_next, crate::proofs::Ordered::order_fails))]
fn check_order(types: &[SubType], offset: u64) -> Result<(), Refusal<'static>>
    ensures ok { OnOk result (IsFree (order_checks 0 (map sub_form types.now))) }
    ensures err { IfErr result (CausedBy (order_checks 0 (map sub_form types.now)) offset) }
{
    for i in 0..types.len() {
        if is_late(i, types[i].supertype) {
            return Err(late(i, offset));
        }
    }
    Ok(())
}

/// The closed form of a group, over a table of so many types.
fn close_group<G: InternRecGroup>(
    group: &G,
    known: u64,
    rec: RecGroup,
    offset: u64,
) -> Result<RecGroup, Refusal<'static>>
    ensures ok { IfOk result (λ closed. group_form closed ≡ closed_group (G.entries group.now) (group_form rec)) }
    ensures free { OnOk result (IsFree (written_checks (G.allowed group.now) known (G.entries group.now) (group_form rec))) }
    ensures err { IfErr result (CausedBy (written_checks (G.allowed group.now) known (G.entries group.now) (group_form rec)) offset) }
{
    match check_group_features(group.features(), &rec, offset) {
        Ok(()) => {}
        Err(err) => return Err(err),
    }
    let mut closed = rec;
    let site = Site {
        known,
        len: closed.types.len() as u64,
        offset,
    };
    match close_subs(group, site, &mut closed.types) {
        Ok(()) => {}
        Err(err) => return Err(err),
    }
    match check_order(closed.types.as_slice(), offset) {
        Ok(()) => {}
        Err(err) => return Err(err),
    }
    Ok(closed)
}

/// Adds the types of a group behind the others of a space. They stand in the table.
fn add_ids<G: InternRecGroup>(
    group: &mut G,
    core: &CoreTypes,
    first: u64,
    count: u64,
) -> Result<(), OutOfMemory>
    requires table { first + count ≤ total core.now }
    requires known { All (IsKnown (total core.now)) (G.entries group.old) }
    requires room { length (G.entries group.old) + count < 2 ^ 32 }
    ensures group { OnOk result (group.new ≡ with_types G.with_type group.old (range_with_len first count)) }
    ensures entries { OnOk result (G.entries group.new ≡ G.entries group.old ++ map sub_entry (range_with_len first count)) }
    ensures features { G.allowed group.new ≡ G.allowed group.old }
    ensures known { All (IsKnown (total core.now)) (G.entries group.new) }
    ensures err { OnErr result (IsBegun G.with_type G.failed group.old (range_with_len first count) group.new) }
{
    for position in 0..count {
        match group.add_type_id(core.id_at(first, position)) {
            Ok(()) => {}
            Err(err) => return Err(err),
        }
    }
    Ok(())
}

/// Interns a group in closed form that has a type, and adds its types behind the others of a space.
fn intern_into<G: InternRecGroup>(
    group: &mut G,
    core: &mut CoreTypes,
    closed: RecGroup,
    offset: u64,
) -> Result<(), Refusal<'static>>
    requires closed { IsClosed (total core.old) (group_form closed) }
    requires known { All (IsKnown (total core.old)) (G.entries group.old) }
    requires room { length (G.entries group.old) + length (group_form closed) < 2 ^ 32 }
    ensures free { OnOk result (IsFree (table_checks core.old (group_form closed))) }
    ensures table { OnOk result (core.new ≡ grown core.old (group_form closed)) }
    ensures group { OnOk result (group.new ≡ with_types G.with_type group.old (group_ids core.old (group_form closed))) }
    ensures entries { OnOk result (G.entries group.new ≡ G.entries group.old ++ map sub_entry (group_ids core.old (group_form closed))) }
    ensures features { G.allowed group.new ≡ G.allowed group.old }
    ensures known { All (IsKnown (total core.new)) (G.entries group.new) }
    ensures cause { IfErr result (MemoryOrCausedBy (table_checks core.old (group_form closed)) offset) }
    ensures err { IfErr result (IsLeft G.with_type G.failed group.old group.new core.old core.new (group_form closed)) }
{
    let count = closed.types.len() as u64;
    let first = match core.intern_checked(closed, offset) {
        Ok(id) => id.index,
        Err(err) => return Err(err),
    };
    match add_ids(group, core, first, count) {
        Ok(()) => Ok(()),
        Err(_) => Err(Refusal::from(OutOfMemory)),
    }
}

/// Puts a group into closed form, interns it, and adds its types behind the others of a space. An empty group
/// is not interned. After a refusal nothing has changed; if memory ended, the table may have the group, and the
/// space some of its types.
pub fn canonicalize_and_intern_rec_group<G: InternRecGroup>(
    group: &mut G,
    core: &mut CoreTypes,
    rec: RecGroup,
    offset: u64,
) -> Result<(), Refusal<'static>>
    requires known { All (IsKnown (total core.old)) (G.entries group.old) }
    requires room { length (G.entries group.old) + length (group_form rec) < 2 ^ 32 }
    ensures free { OnOk result (IsFree (group_checks (G.allowed group.old) core.old (G.entries group.old) (group_form rec))) }
    ensures table { OnOk result (core.new ≡ grown core.old (closed_group (G.entries group.old) (group_form rec))) }
    ensures group { OnOk result (group.new ≡ with_types G.with_type group.old (group_ids core.old (closed_group (G.entries group.old) (group_form rec)))) }
    ensures entries { OnOk result (G.entries group.new ≡ G.entries group.old ++ map sub_entry (group_ids core.old (closed_group (G.entries group.old) (group_form rec)))) }
    ensures features { G.allowed group.new ≡ G.allowed group.old }
    ensures known { All (IsKnown (total core.new)) (G.entries group.new) }
    ensures cause { IfErr result (MemoryOrCausedBy (group_checks (G.allowed group.old) core.old (G.entries group.old) (group_form rec)) offset) }
    ensures err { IfErr result (IsLeft G.with_type G.failed group.old group.new core.old core.new (closed_group (G.entries group.old) (group_form rec))) }
{
    let closed = match close_group(group, core.len() as u64, rec, offset) {
        Ok(closed) => closed,
        Err(err) => return Err(err),
    };
    if closed.types.is_empty() {
        return Ok(());
    }
    match intern_into(group, core, closed, offset) {
        Ok(()) => Ok(()),
        Err(err) => Err(err),
    }
}
