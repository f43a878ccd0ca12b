// The core types of what canonical functions append.
ghost use Rattle.std.specs.Prelude.{◌≡◌, ◌++◌, map, Some, IsSome, IfSome, OnOk, OnErr, IfOk, IfErr};
ghost use Rattle.wcv_core.specs.Checks.{IsFree, MemoryOrCausedBy};
ghost use Rattle.wcv_core.specs.CoreForm.{func_form, sub_form};
ghost use Rattle.wcv_core.specs.CoreGroups.{id_of, total};
ghost use Rattle.wcv_core.specs.CoreTable.{with_group, limit_checks};
ghost use Rattle.wcv_types.specs.CoreCalls.{with_core};
ghost use Rattle.wcv_types.specs.Standing.{Extends, KeepsTrees};
ghost use Rattle.wcv_flat.specs.Rows as spec;
ghost use Rattle.wcv_flat.specs.RowTypes as rows;
ghost use Rattle.wcv_flat.specs.RowTypes.{word_type};
ghost use Rattle.wcv_flat.specs.CodeRows.{appends_of, there, word_of};

use crate::canon_rows::{Appends, Word, row_of};
use crate::lowering::{lower, lower_value};
use crate::options::{Abi, CanonicalOptions, PtrSize};
use std::alloc::Global;
use wcv_core::{
    AbstractHeap, CompositeInnerType, CoreTypeId, FuncType, HeapType, OutOfMemory, RefType,
    Refusal, SubType, ValType,
};
use wcv_syntax::CanonicalFunction;
use wcv_types::{ComponentFuncTypeId, ComponentValType, TypeAlloc};

/// The function of which a core function is made.
#[derive(Clone, Copy)]
pub enum RowFunction {
    /// One that is lowered.
    Lowered(ComponentFuncTypeId),
    /// One that takes the result of a task, and gives none.
    Returned(Option<ComponentValType>),
}

/// What the operands of a canonical function name.
#[derive(Clone, Copy)]
pub struct RowFacts {
    pub options: Option<CanonicalOptions>,
    pub function: Option<RowFunction>,
    /// What represents the resource.
    pub rep: Option<ValType>,
    /// What is spawned.
    pub start: Option<CoreTypeId>,
    /// What a function takes that starts a thread.
    pub start_param: Option<ValType>,
    /// The size of the numbers of the table's elements.
    pub table_index: Option<PtrSize>,
}

impl RowFacts {
    /// A pointer into the memory.
    fn pointer(&self) -> ValType
        ensures { result ≡ word_type self.now spec.pointer_word }
    {
        match &self.options {
            Some(options) => options.ptr_type(),
            None => ValType::I32,
        }
    }

    /// A number of an element of the table.
    fn element(&self) -> ValType
        ensures { result ≡ word_type self.now spec.element_word }
    {
        match &self.table_index {
            Some(size) => size.core_type(),
            None => ValType::I32,
        }
    }

    /// A reference to what is spawned, or none.
    fn spawned(&self) -> ValType
        ensures { result ≡ word_type self.now spec.spawned_word }
    {
        let heap = match self.start {
            Some(id) => HeapType::Id(id),
            None => HeapType::Abstract(AbstractHeap::Func),
        };
        ValType::Ref(RefType {
            nullable: true,
            shared: false,
            heap,
        })
    }

    /// The core type of a word.
    fn core_type(&self, word: Word) -> ValType
        ensures { result ≡ word_type self.now (word_of word) }
    {
        match word {
            Word::Type(ty) => ty,
            Word::Pointer => self.pointer(),
            Word::Rep => self.rep.unwrap_or(ValType::I32),
            Word::Element => self.element(),
            Word::Start => self.start_param.unwrap_or(ValType::I32),
            Word::Spawned => self.spawned(),
        }
    }
}

/// The types that are there of a list of words.
fn core_types(
    alloc: Global,
    words: &[Option<Word>],
    facts: &RowFacts,
) -> Result<Vec<ValType>, OutOfMemory>
    ensures { IfOk result (λ list. list.items ≡ map (word_type facts.now) (there word_of words.now)) }
{
    let mut list = Vec::new(alloc);
    for word in words {
        if let Some(word) = word {
            list.push(facts.core_type(*word))?;
        }
    }
    Ok(list)
}

/// The function type of these words.
fn words_type(
    alloc: Global,
    params: &[Option<Word>],
    results: &[Option<Word>],
    facts: &RowFacts,
) -> Result<FuncType, OutOfMemory>
    ensures params { IfOk result (λ core. core.params.items ≡ map (word_type facts.now) (there word_of params.now)) }
    ensures results { IfOk result (λ core. core.results.items ≡ map (word_type facts.now) (there word_of results.now)) }
{
    Ok(FuncType {
        params: core_types(alloc, params, facts)?,
        results: core_types(alloc, results, facts)?,
    })
}

/// The core type of the function that is told.
fn function_type(
    facts: &RowFacts,
    types: &TypeAlloc,
    offset: u64,
) -> Result<FuncType, Refusal<'static>>
    requires told { IsSome (rows.told_form types.now facts.now.options facts.now.function) }
    requires stands { IfSome facts.now.function (rows.FunctionStands types.now) }
    ensures ok { IfOk result (λ core. rows.told_form types.now facts.now.options facts.now.function ≡ Some (func_form core.params.items core.results.items)) }
    ensures free { OnOk result (IsFree (rows.told_checks types.now facts.now.options facts.now.function)) }
    ensures err { IfErr result (MemoryOrCausedBy (rows.told_checks types.now facts.now.options facts.now.function) offset) }
{
    match (facts.options, facts.function) {
        (Some(options), Some(RowFunction::Lowered(id))) => {
            lower(types.get(id), types, &options, Abi::Lower, offset)
        }
        (Some(options), Some(RowFunction::Returned(ty))) => {
            lower_value(ty, types, &options, offset)
        }
        _ => unreachable!(),
    }
}

/// The core type that a row appends, and whether it is shared.
fn appended_type(
    appends: &Appends,
    facts: &RowFacts,
    types: &TypeAlloc,
    offset: u64,
) -> Result<(FuncType, bool), Refusal<'static>>
    requires told { IsSome (rows.row_type types.now facts.now (appends_of appends.now)) }
    requires stands { IfSome facts.now.function (rows.FunctionStands types.now) }
    ensures ok { IfOk result (λ core. rows.row_form types.now facts.now (appends_of appends.now) ≡ Some (func_form core.0.params.items core.0.results.items)) }
    ensures shared { IfOk result (λ core. core.1 ≡ rows.is_shared (appends_of appends.now)) }
    ensures free { OnOk result (IsFree (rows.row_checks types.now facts.now (appends_of appends.now))) }
    ensures err { IfErr result (MemoryOrCausedBy (rows.row_checks types.now facts.now (appends_of appends.now)) offset) }
{
    let alloc = types.allocator();
    match appends {
        Appends::Core { params, results } => {
            Ok((words_type(alloc, params, results, facts)?, false))
        }
        Appends::Shared { params, results } => {
            Ok((words_type(alloc, params, results, facts)?, true))
        }
        Appends::Lowered(_) | Appends::Returning(_) => {
            Ok((function_type(facts, types, offset)?, false))
        }
    }
}

/// The core type of what is appended.
fn row_type(
    func: &CanonicalFunction,
    facts: &RowFacts,
    types: &TypeAlloc,
    offset: u64,
) -> Result<SubType, Refusal<'static>>
    requires told { IsSome (rows.row_type types.now facts.now (rows.appended func.now)) }
    requires stands { IfSome facts.now.function (rows.FunctionStands types.now) }
    ensures ok { IfOk result (λ ty. rows.row_type types.now facts.now (rows.appended func.now) ≡ Some (sub_form ty)) }
    ensures free { OnOk result (IsFree (rows.row_checks types.now facts.now (rows.appended func.now))) }
    ensures err { IfErr result (MemoryOrCausedBy (rows.row_checks types.now facts.now (rows.appended func.now)) offset) }
{
    let row = row_of(func);
    let (core, shared) = appended_type(&row.appends, facts, types, offset)?;
    Ok(SubType {
        is_final: true,
        supertype: None,
        shared,
        inner: CompositeInnerType::Func(core),
    })
}

/// The id of the core type of what is appended, in a group of its own. What is not told of the facts counts as a
/// number of 32 bits.
pub fn row_signature(
    func: &CanonicalFunction,
    facts: &RowFacts,
    types: &mut TypeAlloc,
    offset: u64,
) -> Result<CoreTypeId, Refusal<'static>>
    requires told { IsSome (rows.row_type types.old facts.now (rows.appended func.now)) }
    requires stands { IfSome facts.now.function (rows.FunctionStands types.old) }
    requires known { rows.AreKnown (total types.old.core) facts.now (rows.appended func.now) }
    ensures id { IfOk result (λ id. id_of types.new.core (rows.row_group types.old facts.now (rows.appended func.now)) ≡ Some id.index) }
    ensures groups { OnOk result (types.new ≡ with_core types.old (with_group types.old.core (rows.row_group types.old facts.now (rows.appended func.now)))) }
    ensures free { OnOk result (IsFree (rows.row_checks types.old facts.now (rows.appended func.now) ++ limit_checks types.old.core (rows.row_group types.old facts.now (rows.appended func.now)))) }
    ensures cause { IfErr result (MemoryOrCausedBy (rows.row_checks types.old facts.now (rows.appended func.now) ++ limit_checks types.old.core (rows.row_group types.old facts.now (rows.appended func.now))) offset) }
    ensures err { OnErr result (types.new ≡ types.old) }
    ensures grown { Extends types.old types.new }
    ensures stay { KeepsTrees types.old types.new }
{
    let ty = row_type(func, facts, types, offset)?;
    types.intern_sub_type(ty, offset)
}
