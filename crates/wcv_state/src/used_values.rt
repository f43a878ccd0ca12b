// Values of a state, each of which is used once.
ghost use Rattle.std.specs.Prelude.{◌≡◌, ◌∷◌, [], Some, false, slice_get, OnOk, OnErr, IfOk, IfErr};
ghost use Rattle.wcv_lower.specs.Checks.{IsFree};
ghost use Rattle.wcv_lower.specs.Marks.{value_index};
ghost use Rattle.wcv_spaces.specs.Contents.{with_uses, spent};
ghost use Rattle.wcv_spaces.specs.Promises.{CausedBy};
ghost use Rattle.wcv_spaces.specs.Values as marks;
ghost use Rattle.wcv_spaces.specs.Values.{value_at_checks, uses_id_checks};

use crate::state::ComponentState;
use wcv_core::Refusal;
use wcv_spaces::values::{first_unused, use_value};
use wcv_syntax::ComponentExternalKind;
use wcv_types::ComponentValType;

impl ComponentState {
    /// The type of the value at that index, which is used from here on. Refuses an index that is not below the
    /// length as `OutOfBounds`, and a value that is used as `Value`. It takes no memory.
    pub fn value_at(&mut self, idx: u32, offset: u64) -> Result<ComponentValType, Refusal<'static>>
        requires live { self.old.spent ≡ false }
        ensures ok { IfOk result (λ v. slice_get self.old.spaces.values idx ≡ Some (v, false)) }
        ensures marked { OnOk result (self.new ≡ with_uses (idx ∷ []) self.old) }
        ensures err { IfErr result (CausedBy (value_at_checks self.old.spaces.values idx) offset) }
        ensures left { OnErr result (self.new ≡ spent self.old) }
    {
        match use_value(&mut self.spaces.values, idx, offset) {
            Ok(ty) => Ok(ty),
            Err(error) => {
                self.spent = true;
                Err(error)
            }
        }
    }

    /// The item of that sort at the index is used from here on, where it is a value. Refuses what `value_at` refuses,
    /// and takes no memory.
    pub fn use_item(
        &mut self,
        kind: ComponentExternalKind,
        idx: u32,
        offset: u64,
    ) -> Result<(), Refusal<'static>>
        requires live { self.old.spent ≡ false }
        ensures ok { OnOk result (self.new ≡ with_uses (value_index kind idx) self.old) }
        ensures free { OnOk result (IsFree (uses_id_checks self.old.spaces.values (value_index kind idx))) }
        ensures err { IfErr result (CausedBy (uses_id_checks self.old.spaces.values (value_index kind idx)) offset) }
        ensures left { OnErr result (self.new ≡ spent self.old) }
    {
        match kind {
            ComponentExternalKind::Value => match self.value_at(idx, offset) {
                Ok(_) => Ok(()),
                Err(error) => Err(error),
            },
            _ => Ok(()),
        }
    }

    /// The position of the first value that is not used yet.
    pub fn unused_value(&self) -> Option<usize>
        ensures { result ≡ marks.first_unused 0 self.now.spaces.values }
    {
        first_unused(&self.spaces.values)
    }
}
