// Names of imports and exports.
ghost use Rattle.std.specs.Prelude.{◌≡◌, ◌⊎◌, Some, None, IfOk, IfErr};
ghost use Rattle.wcv_core.specs.Refusal.{error_kind, error_offset};
ghost use Rattle.wcv_core.specs.declared.error.ErrorKind.TheVariants as kind;
ghost use Rattle.std.specs.Option.{option_map};
ghost use Rattle.wcv_syntax.specs.ExternName.{set, access_of, getter_of, spelled};
ghost use Rattle.wcv_syntax.specs.FormOf.{form_of};
ghost use Rattle.wcv_syntax.specs.Keys.{key_of};
ghost use Rattle.wcv_syntax.specs.NameFaults.{form_fault, name_fault};
ghost use Rattle.wcv_syntax.specs.NameViews.{kind_view};

use crate::key::NameKey;
use crate::name_kind::ComponentNameKind;
use crate::name_slip::NameSlip;
use bitflags::Flags;
use std::alloc::Global;
use std::marker::Model;
use wcv_core::{Error, ErrorKind, Excerpt, OutOfMemory, Text, WasmFeatures, missing_feature};

/// A name that has a form. Contracts see it as its text.
#[derive(Drop)]
pub struct ComponentName {
    text: Text,
}

impl Model for ComponentName {
    ghost use Rattle.std.specs.Prelude.{ℕ, List, ◌≡◌, true, is_some};
    ghost use Rattle.wcv_syntax.specs.FormOf.{form_of};

    ghost Value = { List ℕ };

    ghost view = { λ n. n.text };

    ghost invariant = { λ n. is_some (form_of n.text) ≡ true };
}

/// The form of the name. Refuses as `Name` a text that has none, and as `Feature` a getter or a setter
/// where the feature for them is missing.
pub fn checked_kind<'a>(
    name: &'a str,
    offset: u64,
    features: &WasmFeatures,
) -> Result<ComponentNameKind<'a>, Error>
    ensures ok { IfOk result (λ k. (Some (kind_view k) ≡ form_of name.now) × (name_fault features.now name.now ≡ None)) }
    ensures err { IfErr result (λ e. (name_fault features.now name.now ≡ Some (error_kind e)) × (error_offset e ≡ offset)) }
{
    match ComponentNameKind::read(name) {
        None => {
            let excerpt = Excerpt(name);
            let slip = NameSlip(name);
            Err(Error::told(
                ErrorKind::Name,
                offset,
                format_args!("`{excerpt}` is not a name of an import or an export: {slip}"),
            ))
        }
        Some(kind) => {
            if kind.is_accessor() && !features.contains(WasmFeatures::CM_ACCESSORS) {
                let by = "the name `%n`";
                let refusal = missing_feature(by, name, WasmFeatures::CM_ACCESSORS, offset);
                return Err(Error::from(refusal));
            }
            Ok(kind)
        }
    }
}

impl ComponentName {
    /// The text as a name. Refuses as `Name` a text that has no form of names, and as `Feature` a getter or
    /// a setter where the feature for them is missing.
    pub fn new_with_features(
        alloc: Global,
        name: &str,
        offset: u64,
        features: WasmFeatures,
    ) -> Result<ComponentName, Error>
        ensures ok { IfOk result (λ n. (n ≡ name.now) × (name_fault features name.now ≡ None)) }
        ensures err { IfErr result (λ e. (error_kind e ≡ kind.OutOfMemory) ⊎ ((name_fault features name.now ≡ Some (error_kind e)) × (error_offset e ≡ offset))) }
    {
        match checked_kind(name, offset, &features) {
            Err(error) => Err(error),
            Ok(_) => {
                let text = Text::new(alloc, name)?;
                Ok(ComponentName { text })
            }
        }
    }

    /// The name, as it is written.
    pub fn as_str(&self) -> &str
        ensures { result.now ≡ self.now }
    {
        self.text.as_str()
    }

    /// The form of the name.
    pub fn kind(&self) -> ComponentNameKind<'_>
        ensures { Some (kind_view result) ≡ form_of self.now }
    {
        match ComponentNameKind::read(self.text.as_str()) {
            Some(kind) => kind,
            None => unreachable!(),
        }
    }
    /// The key of the name.
    pub fn uniqueness_key(&self, alloc: Global) -> Result<NameKey, OutOfMemory>
        ensures { IfOk result (λ k. option_map key_of (form_of self.now) ≡ Some k) }
    {
        self.kind().uniqueness_key(alloc)
    }

    /// The name of the getter of a setter, of the same spelling.
    pub fn getter_for_setter(&self, alloc: Global) -> Result<Text, OutOfMemory>
        requires { option_map access_of (form_of self.now) ≡ Some set }
        ensures { IfOk result (λ t. option_map (λ f. spelled (getter_of f)) (form_of self.now) ≡ Some t) }
    {
        self.kind().getter_for_setter(alloc)
    }
}
