// Whether the types of a group keep the rules, once the group stands in the rows of a table.
ghost use Rattle.wcv_core.specs.Limits.{max_supertypes};
ghost use Rattle.std.specs.Prelude.{◌≡◌, ℕ, ◌+◌, ◌≤◌, ◌<◌, ◌++◌, ◌∷◌, [], Some, get_or, length, OnOk, OnErr, IfErr};
ghost use Rattle.std.specs.List.{range_with_len};
ghost use Rattle.wcv_core.specs.Checks.{IsFree, CausedBy, MemoryOrCausedBy, all_checks};
ghost use Rattle.wcv_core.specs.CoreForm.{group_form};
ghost use Rattle.wcv_core.specs.CoreGroups.{total, depths_of, IsClosed};
ghost use Rattle.wcv_core.specs.CoreMatching.{type_at};
ghost use Rattle.wcv_core.specs.CoreRules.{form_at, form_matches, form_shared, super_checks, type_checks};
ghost use Rattle.wcv_core.specs.Refusal.{error_kind, error_offset};

use crate::core_rows::Rows;
use crate::core_types::{CoreTypeId, RecGroup};
use crate::error::{Error, ErrorKind, Refusal, Why};
use crate::limits::MAX_SUPERTYPES;
use crate::memory::OutOfMemory;

/// A refusal of the type at this position of its group.
fn refused(kind: ErrorKind, position: u64, what: &'static str, offset: u64) -> Refusal<'static>
    ensures kind { error_kind result ≡ kind }
    ensures offset { error_offset result ≡ offset }
{
    Error::new(
        kind,
        offset,
        Why::new("type %1 of the group %w")
            .word(what)
            .numbers([position, 0, 0]),
    )
}

impl Rows {
    /// Whether the form of a type holds no reference that is not shared.
    #[tactic(auto, using(crate::proofs::Within::seen_within))]
    fn holds_shared(&self, id: CoreTypeId) -> bool
        requires { id.index < total self.now }
        ensures { result ≡ form_shared self.now (form_at self.now id.index) }
    {
        self.form_shared(&self.get(id).inner, self.first_of(id))
    }

    /// Whether the form of a type matches that of another.
    #[tactic(auto, using(crate::proofs::Within::seen_within))]
    fn type_matches(&self, a: CoreTypeId, b: CoreTypeId) -> bool
        requires a { a.index < total self.now }
        requires b { b.index < total self.now }
        ensures { result ≡ form_matches self.now (form_at self.now a.index) (form_at self.now b.index) }
    {
        let first_a = self.first_of(a);
        let first_b = self.first_of(b);
        self.form_matches(&self.get(a).inner, first_a, &self.get(b).inner, first_b)
    }

    /// Whether a type may have this declared supertype. Its position in its group is for the message.
    fn check_super(
        &self,
        id: CoreTypeId,
        parent: CoreTypeId,
        position: u64,
        offset: u64,
    ) -> Result<(), Refusal<'static>>
        requires id { id.index < total self.now }
        requires parent { parent.index < total self.now }
        ensures ok { OnOk result (IsFree (super_checks self.now id.index (Some parent.index))) }
        ensures err { IfErr result (CausedBy (super_checks self.now id.index (Some parent.index)) offset) }
    {
        let kind = ErrorKind::CoreType;
        if self.get(parent).is_final {
            let what = "has a supertype that is final";
            return Err(refused(kind, position, what, offset));
        }
        if self.get(id).shared != self.get(parent).shared {
            let what = "and its supertype are not both shared or both unshared";
            return Err(refused(kind, position, what, offset));
        }
        if !self.type_matches(id, parent) {
            let what = "has a form that does not match the form of its supertype";
            return Err(refused(kind, position, what, offset));
        }
        if self.depth(id) > MAX_SUPERTYPES {
            let what = "has more than 63 supertypes above it";
            return Err(refused(ErrorKind::Limit, position, what, offset));
        }
        Ok(())
    }

    /// Whether a type keeps the rules.
    #[tactic(auto, using(crate::proofs::Within::parent_within))]
    fn check_type(&self, id: CoreTypeId, position: u64, offset: u64) -> Result<(), Refusal<'static>>
        requires { id.index < total self.now }
        ensures ok { OnOk result (IsFree (type_checks self.now id.index)) }
        ensures err { IfErr result (CausedBy (type_checks self.now id.index) offset) }
    {
        if self.get(id).shared && !self.holds_shared(id) {
            let what = "is shared and holds a reference that is not";
            return Err(refused(ErrorKind::CoreType, position, what, offset));
        }
        match self.parent(id) {
            Some(parent) => { self.check_super(id, CoreTypeId { index: parent }, position, offset) }
            None => Ok(()),
        }
    }

    /// Whether none of so many types, from this id on, has too many supertypes above it. This is looked at before
    /// anything is matched: a walk up from a type is then short, whatever the group has.
    fn check_depths(&self, first: u64, count: u64, offset: u64) -> Result<(), Refusal<'static>>
        requires { first + count ≤ total self.now }
        ensures ok { OnOk result ((k : ℕ) → k < count → get_or (depths_of self.now) (first + k) 0 ≤ max_supertypes) }
        ensures err { IfErr result (CausedBy (all_checks (type_checks self.now) (range_with_len first count)) offset) }
    {
        for position in 0..count {
            if self.depth(self.id_at(first, position)) > MAX_SUPERTYPES {
                let what = "has more than 63 supertypes above it";
                return Err(refused(ErrorKind::Limit, position, what, offset));
            }
        }
        Ok(())
    }

    /// Whether so many types keep the rules, those of a group from its first id on.
    #[tactic(auto, using(crate::proofs::Closing::free_ranged))]
    pub fn check_types(&self, first: u64, count: u64, offset: u64) -> Result<(), Refusal<'static>>
        requires { first + count ≤ total self.now }
        ensures ok { OnOk result (IsFree (all_checks (type_checks self.now) (range_with_len first count))) }
        ensures err { IfErr result (CausedBy (all_checks (type_checks self.now) (range_with_len first count)) offset) }
    {
        self.check_depths(first, count, offset)?;
        for position in 0..count {
            self.check_type(self.id_at(first, position), position, offset)?;
        }
        Ok(())
    }
    /// A group joins the rows where its types keep the rules. Refused, or out of memory, nothing changes.
    pub fn push_checked(&mut self, group: RecGroup, offset: u64) -> Result<(), Refusal<'static>>
        requires { IsClosed (total self.old) (group_form group) }
        ensures ok { OnOk result (self.new ≡ self.old ++ group_form group ∷ []) }
        ensures free { OnOk result (IsFree (all_checks (type_checks (self.old ++ group_form group ∷ [])) (range_with_len (total self.old) (length (group_form group))))) }
        ensures cause { IfErr result (MemoryOrCausedBy (all_checks (type_checks (self.old ++ group_form group ∷ [])) (range_with_len (total self.old) (length (group_form group)))) offset) }
        ensures err { OnErr result (self.new ≡ self.old) }
    {
        let count = group.types.len() as u64;
        let first = self.len() as u64;
        match self.push(group) {
            Ok(()) => {}
            Err(_) => return Err(Refusal::from(OutOfMemory)),
        }
        match self.check_types(first, count, offset) {
            Ok(()) => Ok(()),
            Err(err) => {
                self.pop();
                Err(err)
            }
        }
    }
}
