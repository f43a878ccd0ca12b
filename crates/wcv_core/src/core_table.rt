// The table of core types.
ghost use Rattle.wcv_core.specs.Limits.{max_entries};
ghost use Rattle.std.specs.Prelude.{◌≡◌, ℕ, ◌+◌, ◌≤◌, ◌<◌, ◌++◌, ◌∷◌, List, [], length, get_or, OnOk, OnErr, IfOk, IfErr, Some, None};
ghost use Rattle.wcv_core.specs.Checks.{IsFree, CausedBy, MemoryOrCausedBy, too_many};
ghost use Rattle.wcv_core.specs.CoreAbove.{is_declared};
ghost use Rattle.wcv_core.specs.CoreCode.{code_of};
ghost use Rattle.wcv_core.specs.CoreForm.{Group, SubForm, sub_form, group_form};
ghost use Rattle.wcv_core.specs.CoreGroups.{AreClosed, IsClosed, IsValWithin, total, types_of, place_from, id_from, id_of};
ghost use Rattle.wcv_core.specs.CoreJoining.{first_id, rule_checks};
ghost use Rattle.wcv_core.specs.CoreMatching.{val_matches};
ghost use Rattle.wcv_core.specs.CoreTable.{with_group, limit_checks, AreDistinct};

use crate::core_codes::group_code;
use crate::core_rows::Rows;
use crate::core_types::{CoreTypeId, RecGroup, SubType, ValType};
use crate::error::{Error, ErrorKind, Refusal, Why};
use crate::limits::MAX_ENTRIES;
use crate::memory::OutOfMemory;
use std::alloc::Global;
use std::collections::BTreeMap;
use std::marker::Model;

/// Groups of core types in closed form, each once. Contracts see the list of their forms, in the order in
/// which they came. The id of a type is its position among the types of all groups.
///
/// A group is found by its code, in an ordered map: a look-up among `n` groups makes some `log n`
/// comparisons, each at most as long as the code looked up, whoever chose the groups.
#[derive(Drop)]
pub struct CoreTypes {
    rows: Rows,
    codes: BTreeMap<Vec<u64>, u64>,
    alloc: Global,
}

impl Model for CoreTypes {
    ghost use Rattle.std.specs.Prelude.{List};
    ghost use Rattle.wcv_core.specs.CoreForm.{Group};
    ghost use Rattle.wcv_core.specs.CoreTable.{AreCoded};

    ghost Value = { List Group };

    ghost view = { λ t. t.rows };

    ghost invariant = { λ t. AreCoded t.rows t.codes };
}

impl CoreTypes {
    /// A table with no type. It takes no memory.
    pub fn new(alloc: Global) -> CoreTypes
        ensures { result ≡ [] }
    {
        CoreTypes {
            rows: Rows::new(alloc),
            codes: BTreeMap::new(alloc),
            alloc,
        }
    }

    /// How many types there are. In each table groups with one id are one group, no group stands twice, and a
    /// group names its own types by their positions, and older ones alone by ids.
    pub fn len(&self) -> usize
        ensures value { result ≡ total self.now }
        ensures apart { (g h : Group) (i : ℕ) → id_of self.now g ≡ Some i → id_of self.now h ≡ Some i → g ≡ h }
        ensures distinct { AreDistinct self.now }
        ensures closed { AreClosed 0 self.now }
    {
        self.rows.len()
    }

    /// The type with this id, in closed form.
    pub fn get(&self, id: CoreTypeId) -> &SubType
        requires { id.index < total self.now }
        ensures { (d : SubForm) → sub_form result.now ≡ get_or (types_of self.now) id.index d }
    {
        self.rows.get(id)
    }

    /// The id of the first type of the group that a type stands in, and the length of the group.
    pub fn group_of(&self, id: CoreTypeId) -> (CoreTypeId, u64)
        requires { id.index < total self.now }
        ensures { (result.0.index, result.1) ≡ place_from 0 self.now id.index }
    {
        self.rows.group_of(id)
    }

    /// The id of the first type of the group with this code.
    fn find(&self, code: &Vec<u64>) -> Option<u64>
        ensures { result ≡ id_from 0 self.now code.now.items }
    {
        match self.codes.get(code) {
            Some(first) => Some(*first),
            None => None,
        }
    }

    /// Whether so many types more keep the limit.
    #[tactic(auto, using(crate::proofs::Rowing::not_below))]
    fn check_room(&self, count: usize, offset: u64) -> Result<(), Refusal<'static>>
        ensures ok { OnOk result (IsFree (too_many max_entries (total self.now + count))) }
        ensures err { IfErr result (CausedBy (too_many max_entries (total self.now + count)) offset) }
    {
        let len = self.rows.len();
        if len > MAX_ENTRIES || count > MAX_ENTRIES - len {
            return Err(Error::new(
                ErrorKind::Limit,
                offset,
                Why::new("with this group there would be more than %1 distinct core types").numbers(
                    [MAX_ENTRIES as u64, 0, 0],
                ),
            ));
        }
        Ok(())
    }

    /// Appends a group that is not there.
    fn add(&mut self, code: Vec<u64>, group: RecGroup) -> Result<CoreTypeId, OutOfMemory>
        requires closed { IsClosed (total self.old) (group_form group) }
        requires code { code.items ≡ code_of (group_form group) }
        requires absent { id_of self.old (group_form group) ≡ None }
        ensures id { IfOk result (λ id. id_of self.new (group_form group) ≡ Some id.index) }
        ensures groups { OnOk result (self.new ≡ self.old ++ group_form group ∷ []) }
        ensures err { OnErr result (self.new ≡ self.old) }
    {
        let first = self.rows.len() as u64;
        self.rows.push(group)?;
        match self.codes.insert(code, first) {
            Ok(_) => Ok(CoreTypeId { index: first }),
            Err(refused) => {
                drop(refused);
                self.rows.pop();
                Err(OutOfMemory)
            }
        }
    }

    /// The id of the group's first type. A group that is not there is appended.
    pub fn intern_closed(&mut self, group: RecGroup) -> Result<CoreTypeId, OutOfMemory>
        requires { IsClosed (total self.old) (group_form group) }
        ensures id { IfOk result (λ id. id_of self.new (group_form group) ≡ Some id.index) }
        ensures groups { OnOk result (self.new ≡ with_group self.old (group_form group)) }
        ensures err { OnErr result (self.new ≡ self.old) }
    {
        let code = match group_code(self.alloc, &group) {
            Ok(code) => code,
            Err(_) => return Err(OutOfMemory),
        };
        match self.find(&code) {
            Some(index) => Ok(CoreTypeId { index }),
            None => self.add(code, group),
        }
    }

    /// The id of the group's first type, as `intern_closed`, with the limit on how many types there are.
    pub fn intern(&mut self, group: RecGroup, offset: u64) -> Result<CoreTypeId, Refusal<'static>>
        requires { IsClosed (total self.old) (group_form group) }
        ensures id { IfOk result (λ id. id_of self.new (group_form group) ≡ Some id.index) }
        ensures groups { OnOk result (self.new ≡ with_group self.old (group_form group)) }
        ensures free { OnOk result (IsFree (limit_checks self.old (group_form group))) }
        ensures cause { IfErr result (MemoryOrCausedBy (limit_checks self.old (group_form group)) offset) }
        ensures err { OnErr result (self.new ≡ self.old) }
    {
        let code = match group_code(self.alloc, &group) {
            Ok(code) => code,
            Err(_) => return Err(Refusal::from(OutOfMemory)),
        };
        match self.find(&code) {
            Some(index) => Ok(CoreTypeId { index }),
            None => match self.check_room(group.types.len(), offset) {
                Ok(()) => match self.add(code, group) {
                    Ok(id) => Ok(id),
                    Err(_) => Err(Refusal::from(OutOfMemory)),
                },
                Err(err) => Err(err),
            },
        }
    }

    /// The id of the first type of a group that is there, if its types keep the rules.
    fn check_old(
        &self,
        first: u64,
        group: &RecGroup,
        offset: u64,
    ) -> Result<CoreTypeId, Refusal<'static>>
        requires { id_of self.now (group_form group.now) ≡ Some first }
        ensures id { IfOk result (λ id. id.index ≡ first) }
        ensures room { OnOk result (first + length (group_form group.now) ≤ total self.now) }
        ensures free { OnOk result (IsFree (rule_checks self.now (group_form group.now))) }
        ensures cause { IfErr result (MemoryOrCausedBy (rule_checks self.now (group_form group.now)) offset) }
    {
        match self
            .rows
            .check_types(first, group.types.len() as u64, offset)
        {
            Ok(()) => Ok(CoreTypeId { index: first }),
            Err(err) => Err(err),
        }
    }

    /// Appends a group that is not there, if its types keep the rules.
    fn check_new(
        &mut self,
        code: Vec<u64>,
        group: RecGroup,
        offset: u64,
    ) -> Result<CoreTypeId, Refusal<'static>>
        requires closed { IsClosed (total self.old) (group_form group) }
        requires code { code.items ≡ code_of (group_form group) }
        requires absent { id_of self.old (group_form group) ≡ None }
        ensures id { IfOk result (λ id. id.index ≡ total self.old) }
        ensures room { OnOk result (total self.old + length (group_form group) ≤ total self.new) }
        ensures groups { OnOk result (self.new ≡ self.old ++ group_form group ∷ []) }
        ensures free { OnOk result (IsFree (rule_checks self.old (group_form group))) }
        ensures cause { IfErr result (MemoryOrCausedBy (rule_checks self.old (group_form group)) offset) }
        ensures err { OnErr result (self.new ≡ self.old) }
    {
        let count = group.types.len();
        match self.check_room(count, offset) {
            Ok(()) => {}
            Err(err) => return Err(err),
        }
        let first = self.rows.len() as u64;
        match self.rows.push_checked(group, offset) {
            Ok(()) => {}
            Err(err) => return Err(err),
        }
        match self.codes.insert(code, first) {
            Ok(_) => Ok(CoreTypeId { index: first }),
            Err(refused) => {
                drop(refused);
                self.rows.pop();
                Err(Refusal::from(OutOfMemory))
            }
        }
    }

    /// The id of the first type of a group whose types have to keep the rules, also where the group is there
    /// already. A group that is not there is appended.
    pub fn intern_checked(
        &mut self,
        group: RecGroup,
        offset: u64,
    ) -> Result<CoreTypeId, Refusal<'static>>
        requires { IsClosed (total self.old) (group_form group) }
        ensures id { IfOk result (λ id. id.index ≡ first_id self.old (group_form group)) }
        ensures groups { OnOk result (self.new ≡ with_group self.old (group_form group)) }
        ensures room { IfOk result (λ id. id.index + length (group_form group) ≤ total self.new) }
        ensures free { OnOk result (IsFree (rule_checks self.old (group_form group))) }
        ensures cause { IfErr result (MemoryOrCausedBy (rule_checks self.old (group_form group)) offset) }
        ensures err { OnErr result (self.new ≡ self.old) }
    {
        let code = match group_code(self.alloc, &group) {
            Ok(code) => code,
            Err(_) => return Err(Refusal::from(OutOfMemory)),
        };
        match self.find(&code) {
            Some(first) => self.check_old(first, &group, offset),
            None => self.check_new(code, group, offset),
        }
    }

    /// The id of a type by its position in the group whose first id is `first`.
    pub fn id_at(&self, first: u64, position: u64) -> CoreTypeId
        requires { first + position < total self.now }
        ensures { result.index ≡ first + position }
    {
        self.rows.id_at(first, position)
    }

    /// Whether `a` is `b` or has it as a declared supertype.
    pub fn is_declared_subtype(&self, a: CoreTypeId, b: CoreTypeId) -> bool
        requires a { a.index < total self.now }
        requires b { b.index < total self.now }
        ensures { result ≡ is_declared self.now a.index b.index }
    {
        self.rows.is_declared_subtype(a, b)
    }

    /// Whether the first value type matches the second. Neither names a type by an index, and the ids in
    /// them are of this table.
    pub fn val_type_matches(&self, a: &ValType, b: &ValType) -> bool
        requires a { IsValWithin (total self.now) 0 a.now }
        requires b { IsValWithin (total self.now) 0 b.now }
        ensures { result ≡ val_matches self.now a.now b.now }
    {
        self.rows.val_type_matches(a, b)
    }
}
