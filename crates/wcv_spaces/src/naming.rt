// Types that imports and exports have to name, and those that they have named.
ghost use Rattle.std.specs.Prelude.{◌≡◌, ◌⊎◌, [], ◌&&◌, cond, All, true, IfOk, OnOk, OnErr, IfErr};
ghost use Rattle.wcv_core.specs.Refusal.{error_kind, error_offset};
ghost use Rattle.wcv_types.specs.Entities.{any_part, entity_tree, EntityStands, EntryStands};
ghost use Rattle.wcv_types.specs.Identity.{same_identity};
ghost use Rattle.wcv_types.specs.Sets.{AllStand, with_type};
ghost use Rattle.wcv_types.specs.Standing.{Stands};
ghost use Rattle.wcv_types.specs.Tree.{type_of, export};
ghost use Rattle.wcv_types.specs.Unfold.{trees, tree_at, entry_slots, slot_parts};
ghost use Rattle.wcv_types.specs.declared.ids.Part.TheVariants as part;
ghost use Rattle.wcv_lower.specs.Checks.{IsFree};
ghost use Rattle.wcv_lower.specs.Context as sides;
ghost use Rattle.wcv_lower.specs.Context.{asks_names, names_for, with_named};
ghost use Rattle.wcv_lower.specs.Entries as entries;
ghost use Rattle.wcv_lower.specs.Trees.{tree_reader, creates, all_created, entry_passes};
ghost use Rattle.wcv_lower.specs.Trees as rules;
ghost use Rattle.wcv_spaces.specs.Contents.{kind_of};
ghost use Rattle.wcv_spaces.specs.Parts.{set_of};
ghost use Rattle.wcv_spaces.specs.Naming.{side_of, known, alone_ids, SetsGrew, Names, AllSettled};
ghost use Rattle.wcv_spaces.specs.Promises.{MemoryOrCausedBy};

use crate::kind::ComponentKind;
use std::alloc::Global;
use wcv_core::{Error, ErrorKind, Excerpt, ExternKind, OutOfMemory, Text};
use wcv_types::{
    ComponentAnyTypeId, ComponentEntityType, ComponentFuncTypeId, ComponentInstanceTypeId, ItemMap,
    TypeAlloc, TypeSet,
};
use wcv_walks::{NamedContents, NamedValues};

/// What a type is that has to be named.
const NOT_NAMED: &str =
    "is, or has in it, a record, variant, flags, enum or resource that was not imported or exported before";

/// The types that are named for imports, and those for exports.
#[derive(Drop)]
pub struct NamedTypes {
    pub imports: TypeSet,
    pub exports: TypeSet,
}

/// Whether entries have to name types.
fn asks_for_names(kind: ComponentKind) -> bool
    ensures { result ≡ asks_names (kind_of kind) }
{
    !matches!(kind, ComponentKind::InstanceType)
}

impl NamedTypes {
    /// None.
    pub fn new(alloc: Global) -> NamedTypes
        ensures imports { result.imports ≡ [] }
        ensures exports { result.exports ≡ [] }
    {
        NamedTypes {
            imports: TypeSet::new(alloc),
            exports: TypeSet::new(alloc),
        }
    }

    /// Those for a side.
    fn of(&self, which: ExternKind) -> &TypeSet
        ensures { result.now ≡ set_of self.now (side_of which) }
    {
        match which {
            ExternKind::Import => &self.imports,
            ExternKind::Export => &self.exports,
        }
    }

    /// Whether it is an import, and the type that it refers to is named for exports and not for imports.
    fn is_export_alone(&self, which: ExternKind, referenced: &ComponentAnyTypeId) -> bool
        ensures { result ≡ alone_ids self.now (side_of which) referenced.now }
    {
        match which {
            ExternKind::Import => {
                self.exports.contains(referenced) && !self.imports.contains(referenced)
            }
            ExternKind::Export => false,
        }
    }

    /// What an entry creates is named: for both sides if it is an import, and for exports alone if it is an export.
    /// Out of memory it may be for imports alone.
    fn push(&mut self, which: ExternKind, created: ComponentAnyTypeId) -> Result<(), OutOfMemory>
        ensures ok { OnOk result ((d : sides.Side) → set_of self.new d ≡ cond (names_for (side_of which) d) (with_type (set_of self.old d) created) (set_of self.old d)) }
        ensures err { OnErr result ((d : sides.Side) → (set_of self.new d ≡ set_of self.old d) ⊎ (set_of self.new d ≡ with_type (set_of self.old d) created)) }
    {
        match which {
            ExternKind::Import => {
                self.imports.push(created)?;
                self.exports.push(created)
            }
            ExternKind::Export => self.exports.push(created),
        }
    }

    /// Whether a type passes as an entry, by what it refers to. If it does, what it creates is named from then on.
    fn pass_type(
        &mut self,
        types: &TypeAlloc,
        which: ExternKind,
        created: ComponentAnyTypeId,
        referenced: ComponentAnyTypeId,
    ) -> Result<bool, OutOfMemory>
        requires created { Stands types.now (any_part created) }
        requires referenced { Stands types.now (any_part referenced) }
        requires sets { (d : sides.Side) → AllStand types.now (set_of self.old d) }
        ensures passes { IfOk result (λ b. b ≡ entry_passes (known self.old) (side_of which) (type_of (tree_at types.now (any_part created)) (tree_at types.now (any_part referenced)))) }
        ensures named { IfOk result (λ b. b ≡ true → Names (side_of which) self.old self.new (creates (type_of (tree_at types.now (any_part created)) (tree_at types.now (any_part referenced))))) }
        ensures grew { SetsGrew types.now self.old self.new }
    {
        if !types.all_valtypes_named(&referenced, self.of(which))? {
            return Ok(false);
        }
        if self.is_export_alone(which, &referenced) {
            return Ok(false);
        }
        self.push(which, created)?;
        Ok(true)
    }
}

/// Whether an instance passes as an entry. It passes again where it passed before, and names nothing new.
#[cycle(naming)]
fn pass_instance(
    types: &TypeAlloc,
    which: ExternKind,
    id: ComponentInstanceTypeId,
    sets: &mut NamedTypes,
    passed: &mut TypeSet,
) -> Result<bool, OutOfMemory>
    requires id { Stands types.now (part.Instance id) }
    requires sets { (d : sides.Side) → AllStand types.now (set_of sets.old d) }
    requires settled { AllSettled types.now (side_of which) sets.old passed.old }
    ensures passes { IfOk result (λ b. b ≡ entry_passes (known sets.old) (side_of which) (tree_at types.now (part.Instance id))) }
    ensures named { IfOk result (λ b. b ≡ true → Names (side_of which) sets.old sets.new (creates (tree_at types.now (part.Instance id)))) }
    ensures settled { IfOk result (λ b. b ≡ true → AllSettled types.now (side_of which) sets.new passed.new) }
    ensures grew { SetsGrew types.now sets.old sets.new }
{
    let ty = ComponentAnyTypeId::Instance(id);
    if passed.contains(&ty) {
        return Ok(true);
    }
    if !pass_exports(types, which, &types.get(id).exports, sets, passed)? {
        return Ok(false);
    }
    passed.push(ty)?;
    Ok(true)
}

/// Whether exports pass in order, where what one creates is named from then on.
#[cycle(naming)]
fn pass_exports(
    types: &TypeAlloc,
    which: ExternKind,
    exports: &ItemMap,
    sets: &mut NamedTypes,
    passed: &mut TypeSet,
) -> Result<bool, OutOfMemory>
    requires stand { All (EntryStands types.now) exports.now }
    requires sets { (d : sides.Side) → AllStand types.now (set_of sets.old d) }
    requires settled { AllSettled types.now (side_of which) sets.old passed.old }
    ensures passes { IfOk result (λ b. b ≡ rules.exports_pass (known sets.old) (side_of which) (slot_parts (trees types.now.nodes) (entry_slots export exports.now))) }
    ensures named { IfOk result (λ b. b ≡ true → Names (side_of which) sets.old sets.new (all_created (slot_parts (trees types.now.nodes) (entry_slots export exports.now)))) }
    ensures settled { IfOk result (λ b. b ≡ true → AllSettled types.now (side_of which) sets.new passed.new) }
    ensures grew { SetsGrew types.now sets.old sets.new }
{
    for k in 0..exports.len() {
        match exports.get_index(k) {
            Some((_, item)) => {
                if !pass_entity(types, which, item.ty, sets, passed)? {
                    return Ok(false);
                }
            }
            None => unreachable!(),
        }
    }
    Ok(true)
}

/// Whether an entity passes as an entry. If it does, what it creates is named from then on.
#[cycle(naming)]
fn pass_entity(
    types: &TypeAlloc,
    which: ExternKind,
    ty: ComponentEntityType,
    sets: &mut NamedTypes,
    passed: &mut TypeSet,
) -> Result<bool, OutOfMemory>
    requires stands { EntityStands types.now ty }
    requires sets { (d : sides.Side) → AllStand types.now (set_of sets.old d) }
    requires settled { AllSettled types.now (side_of which) sets.old passed.old }
    ensures passes { IfOk result (λ b. b ≡ entry_passes (known sets.old) (side_of which) (entity_tree (trees types.now.nodes) ty)) }
    ensures named { IfOk result (λ b. b ≡ true → Names (side_of which) sets.old sets.new (creates (entity_tree (trees types.now.nodes) ty))) }
    ensures settled { IfOk result (λ b. b ≡ true → AllSettled types.now (side_of which) sets.new passed.new) }
    ensures grew { SetsGrew types.now sets.old sets.new }
{
    match ty {
        ComponentEntityType::Module(_) => Ok(true),
        ComponentEntityType::Func(id) => {
            let passes = types.all_valtypes_named(&ComponentAnyTypeId::Func(id), sets.of(which))?;
            Ok(passes)
        }
        ComponentEntityType::Value(ty) => Ok(types.type_named_valtype(&ty, sets.of(which))),
        ComponentEntityType::Ty {
            created,
            referenced,
        } => {
            let passes = sets.pass_type(types, which, created, referenced)?;
            Ok(passes)
        }
        ComponentEntityType::Instance(id) => pass_instance(types, which, id, sets, passed),
        ComponentEntityType::Component(_) => Ok(true),
    }
}

/// The first parameter whose type has to be named. It is for the message alone.
fn first_unnamed<'a>(
    types: &'a TypeAlloc,
    id: ComponentFuncTypeId,
    set: &TypeSet,
) -> Option<&'a Text>
    requires func { Stands types.now (part.Func id) }
    requires set { AllStand types.now set.now }
{
    let func = types.get(id);
    for param in &func.params {
        if !types.type_named_valtype(&param.1, set) {
            return Some(&param.0);
        }
    }
    None
}

/// The refusal of an entry of that name over what is told before and behind a name of its own.
fn unnamed_part(
    word: &str,
    name: &str,
    before: &str,
    part: &str,
    behind: &str,
    offset: u64,
) -> Error
    ensures kind { error_kind result ≡ ErrorKind.Unnamed }
    ensures offset { error_offset result ≡ offset }
{
    let entry = Excerpt(name);
    let part = Excerpt(part);
    Error::told(
        ErrorKind::Unnamed,
        offset,
        format_args!("{word} `{entry}`: {before}{part}{behind} {NOT_NAMED}"),
    )
}

/// The refusal of a function over a type that is not in the set.
fn unnamed_func(
    word: &str,
    name: &str,
    id: ComponentFuncTypeId,
    types: &TypeAlloc,
    set: &TypeSet,
    offset: u64,
) -> Error
    requires func { Stands types.now (part.Func id) }
    requires set { AllStand types.now set.now }
    ensures kind { error_kind result ≡ ErrorKind.Unnamed }
    ensures offset { error_offset result ≡ offset }
{
    match first_unnamed(types, id, set) {
        Some(param) => {
            unnamed_part(
                word,
                name,
                "the type of parameter `",
                param.as_str(),
                "`",
                offset,
            )
        }
        None => unnamed_part(word, name, "the type of the result", "", "", offset),
    }
}

/// The refusal of an import that refers to a type which was exported alone.
fn exported_alone(word: &str, name: &str, offset: u64) -> Error
    ensures kind { error_kind result ≡ ErrorKind.Unnamed }
    ensures offset { error_offset result ≡ offset }
{
    let entry = Excerpt(name);
    Error::told(
        ErrorKind::Unnamed,
        offset,
        format_args!(
            "{word} `{entry}`: the type that it refers to was exported before and not imported"
        ),
    )
}

/// The refusal of an entry that does not pass, by what is named for its side.
fn not_passed(
    which: ExternKind,
    name: &str,
    ty: &ComponentEntityType,
    types: &TypeAlloc,
    sets: &NamedTypes,
    offset: u64,
) -> Error
    requires stands { EntityStands types.now ty.now }
    requires sets { (d : sides.Side) → AllStand types.now (set_of sets.now d) }
    ensures kind { error_kind result ≡ ErrorKind.Unnamed }
    ensures offset { error_offset result ≡ offset }
{
    let word = which.desc();
    match ty {
        ComponentEntityType::Func(id) => unnamed_func(
            word,
            name,
            *id,
            types,
            sets.of(which),
            offset,
        ),
        ComponentEntityType::Instance(_) => {
            unnamed_part(word, name, "what the instance exports", "", "", offset)
        }
        ComponentEntityType::Ty { referenced, .. } => {
            if sets.is_export_alone(which, referenced) {
                return exported_alone(word, name, offset);
            }
            unnamed_part(word, name, "what the type is made of", "", "", offset)
        }
        _ => unnamed_part(word, name, "what the type is made of", "", "", offset),
    }
}

impl NamedTypes {
    /// Whether an import or an export needs no type that is not named, and refers to none that is named for exports
    /// alone if it is an import. What it creates is named from then on; refused, some of that may be. What it is called
    /// is for the message.
    pub fn name_entry(
        &mut self,
        kind: ComponentKind,
        which: ExternKind,
        name: &str,
        ty: &ComponentEntityType,
        types: &TypeAlloc,
        offset: u64,
    ) -> Result<(), Error>
        requires stands { EntityStands types.now ty.now }
        requires sets { (d : sides.Side) → AllStand types.now (set_of self.old d) }
        ensures ok { OnOk result (IsFree (entries.unnamed tree_reader (kind_of kind) (known self.old) (side_of which) (entity_tree (trees types.now.nodes) ty.now))) }
        ensures named { OnOk result ((d : sides.Side) → known self.new d ≡ with_named same_identity (names_for (side_of which) d && asks_names (kind_of kind)) (known self.old d) (creates (entity_tree (trees types.now.nodes) ty.now))) }
        ensures err { IfErr result (MemoryOrCausedBy (entries.unnamed tree_reader (kind_of kind) (known self.old) (side_of which) (entity_tree (trees types.now.nodes) ty.now)) offset) }
        ensures grew { SetsGrew types.now self.old self.new }
    {
        if !asks_for_names(kind) {
            return Ok(());
        }
        let mut passed = TypeSet::new(types.allocator());
        let passes = pass_entity(types, which, *ty, self, &mut passed);
        drop(passed);
        if passes? {
            return Ok(());
        }
        Err(not_passed(which, name, ty, types, self, offset))
    }
}
