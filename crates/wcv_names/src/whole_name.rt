// Whole names: a name and what stands beside it.
ghost use Rattle.std.specs.Prelude.{◌≡◌, ◌⊎◌, true, false, Some, None, option_copied, OnOk, IfOk, IfErr};
ghost use Rattle.std.specs.Option.{option_map};
ghost use Rattle.wcv_core.specs.Refusal.{error_kind, error_offset};
ghost use Rattle.wcv_core.specs.declared.error.ErrorKind.TheVariants as kinds;
ghost use Rattle.wcv_syntax.specs.FormOf.{form_of};
ghost use Rattle.wcv_syntax.specs.NameViews.{kind_view};
ghost use Rattle.wcv_syntax.specs.Versions.{is_versioned};
ghost use Rattle.wcv_names.specs.WholeNames as rules;
ghost use Rattle.wcv_names.specs.WholeNames.{extern_name, NameRefused};

use bitflags::Flags;
use std::alloc::Global;
use std::fmt;
use wcv_core::{Error, ErrorKind, Excerpt, WasmFeatures, missing_feature};
use wcv_syntax::{ComponentExternName, ComponentNameKind, InterfaceName, checked_kind};

fn is_interface(kind: &ComponentNameKind<'_>) -> bool
    ensures { result ≡ rules.is_interface (Some (kind_view kind.now)) }
{
    match kind {
        ComponentNameKind::Interface(_) => true,
        _ => false,
    }
}

/// Whether the name is a label with no mark.
fn is_bare(kind: &ComponentNameKind<'_>) -> bool
    ensures { result ≡ rules.is_bare (Some (kind_view kind.now)) }
{
    match kind {
        ComponentNameKind::Label(_) => true,
        _ => false,
    }
}

/// A refusal of a name.
fn bad_name<D: fmt::Display>(offset: u64, message: D) -> Error
where
    D: Drop,
    ensures kind { error_kind result ≡ kinds.Name }
    ensures offset { error_offset result ≡ offset }
{
    Error::told(ErrorKind::Name, offset, message)
}

/// A refusal of what needs a feature that is missing.
fn missing(feature: WasmFeatures, needed_by: &'static str, offset: u64) -> Error
    ensures kind { error_kind result ≡ kinds.Feature }
    ensures offset { error_offset result ≡ offset }
{
    Error::from(missing_feature(needed_by, "", feature, offset))
}

/// The rest of the version that stands beside the name.
fn suffix_of(name: &ComponentExternName) -> Option<&str>
    ensures { option_copied result ≡ name.now.version_suffix }
{
    match &name.version_suffix {
        Some(suffix) => Some(suffix.as_str()),
        None => None,
    }
}

/// Whether the rest of a version may stand beside the name.
#[tactic(auto, using(crate::proofs::NameRules::by_suffix, crate::proofs::NameRules::by_canon_names))]
fn check_suffix(
    name: &ComponentExternName,
    kind: &ComponentNameKind<'_>,
    is_instance: bool,
    offset: u64,
    features: &WasmFeatures,
) -> Result<(), Error>
    requires { Some (kind_view kind.now) ≡ form_of name.now.name }
    ensures rule { OnOk result (rules.bad_suffix is_instance (extern_name name.now) ≡ false) }
    ensures feature { OnOk result (rules.lacks_canon_names features.now (extern_name name.now) ≡ false) }
    ensures err { IfErr result (NameRefused is_instance features.now (extern_name name.now) offset) }
{
    let suffix = match suffix_of(name) {
        Some(suffix) => suffix,
        None => return Ok(()),
    };
    if !features.contains(WasmFeatures::CM_CANON_NAMES) {
        return Err(missing(WasmFeatures::CM_CANON_NAMES, "a version suffix", offset));
    }
    if !is_instance {
        return Err(bad_name(offset, "a version suffix stands at instances alone"));
    }
    if suffix.is_empty() {
        return Err(bad_name(offset, "a version suffix must not be empty"));
    }
    if name.implements.is_none() && !is_interface(kind) {
        return Err(bad_name(
            offset,
            "a version suffix stands beside the name of an interface, or beside `implements`",
        ));
    }
    Ok(())
}

/// Whether the name has nothing beside it that needs the feature of names that implement an interface.
fn check_plain(name: &ComponentExternName, offset: u64) -> Result<(), Error>
    ensures ok { OnOk result (rules.says_more (extern_name name.now) ≡ false) }
    ensures err { IfErr result (λ e. (error_kind e ≡ kinds.Feature) × (error_offset e ≡ offset) × (rules.says_more (extern_name name.now) ≡ true)) }
{
    if name.external_id.is_some() {
        return Err(missing(WasmFeatures::CM_IMPLEMENTS, "an external id", offset));
    }
    if name.implements.is_some() {
        return Err(missing(WasmFeatures::CM_IMPLEMENTS, "`implements`", offset));
    }
    Ok(())
}

/// Whether a name of that form may say that it implements what the text names.
fn check_implemented(
    text: &str,
    kind: &ComponentNameKind<'_>,
    is_instance: bool,
    offset: u64,
) -> Result<(), Error>
    ensures ok { OnOk result (rules.bad_interface is_instance (Some (kind_view kind.now)) text.now ≡ false) }
    ensures err { IfErr result (λ e. (error_kind e ≡ kinds.Name) × (error_offset e ≡ offset) × (rules.bad_interface is_instance (Some (kind_view kind.now)) text.now ≡ true)) }
{
    if !is_instance {
        return Err(bad_name(offset, "`implements` stands at instances alone"));
    }
    if !is_bare(kind) {
        return Err(bad_name(
            offset,
            "`implements` stands beside a label alone, with no mark and no version",
        ));
    }
    match ComponentNameKind::read(text) {
        Some(ComponentNameKind::Interface(_)) => Ok(()),
        _ => {
            let excerpt = Excerpt(text);
            Err(bad_name(
                offset,
                format_args!(
                    "what is implemented, `{excerpt}`, is not the name of an interface, as `my-namespace:my-package/my-interface`"
                ),
            ))
        }
    }
}

/// Whether the name may say that it implements an interface, and have an id from outside.
#[tactic(auto, using(crate::proofs::NameRules::by_implemented, crate::proofs::NameRules::by_more, crate::proofs::NameRules::good_interface, crate::proofs::NameRules::lacks_nothing, crate::proofs::NameRules::says_nothing))]
fn check_implements(
    name: &ComponentExternName,
    kind: &ComponentNameKind<'_>,
    is_instance: bool,
    offset: u64,
    features: &WasmFeatures,
) -> Result<(), Error>
    requires { Some (kind_view kind.now) ≡ form_of name.now.name }
    ensures rule { OnOk result (rules.bad_implements is_instance (extern_name name.now) ≡ false) }
    ensures feature { OnOk result (rules.lacks_implements features.now (extern_name name.now) ≡ false) }
    ensures err { IfErr result (NameRefused is_instance features.now (extern_name name.now) offset) }
{
    if !features.contains(WasmFeatures::CM_IMPLEMENTS) {
        return check_plain(name, offset);
    }
    match &name.implements {
        Some(text) => check_implemented(text.as_str(), kind, is_instance, offset),
        None => Ok(()),
    }
}

/// The form of the interface whose version is looked at: what is implemented, or else the name.
fn versioned_kind<'a>(
    name: &'a ComponentExternName,
    kind: &ComponentNameKind<'a>,
) -> Option<ComponentNameKind<'a>>
    requires { Some (kind_view kind.now) ≡ form_of name.now.name }
    ensures { option_map kind_view result ≡ form_of (rules.text_or name.now.implements name.now.name) }
{
    match &name.implements {
        Some(text) => ComponentNameKind::read(text.as_str()),
        None => Some(*kind),
    }
}

/// Whether what there is of the version of an interface makes one.
fn check_interface(
    alloc: Global,
    interface: &InterfaceName<'_>,
    suffix: Option<&str>,
    offset: u64,
) -> Result<(), Error>
    ensures ok { OnOk result (is_versioned (option_copied interface.now.version) (option_copied suffix.entry) ≡ true) }
    ensures err { IfErr result (λ e. (error_kind e ≡ kinds.OutOfMemory) ⊎ ((error_kind e ≡ kinds.Name) × (error_offset e ≡ offset) × (is_versioned (option_copied interface.now.version) (option_copied suffix.entry) ≡ false))) }
{
    let _ = interface.version(alloc, suffix, offset)?;
    Ok(())
}

/// Whether a rest of a version stands where there is no version.
fn check_no_suffix(suffix: Option<&str>, offset: u64) -> Result<(), Error>
    ensures ok { OnOk result (is_versioned None (option_copied suffix.entry) ≡ true) }
    ensures err { IfErr result (λ e. (error_kind e ≡ kinds.Name) × (error_offset e ≡ offset) × (is_versioned None (option_copied suffix.entry) ≡ false)) }
{
    match suffix {
        Some(_) => Err(bad_name(offset, "a version suffix stands behind a version")),
        None => Ok(()),
    }
}

/// Whether the version is one.
#[tactic(auto, using(crate::proofs::NameRules::by_version, crate::proofs::NameRules::by_version_or_memory))]
fn check_version<'a>(
    alloc: Global,
    name: &'a ComponentExternName,
    kind: &ComponentNameKind<'a>,
    is_instance: bool,
    offset: u64,
    features: &WasmFeatures,
) -> Result<(), Error>
    requires { Some (kind_view kind.now) ≡ form_of name.now.name }
    ensures rule { OnOk result (rules.bad_version (extern_name name.now) ≡ false) }
    ensures err { IfErr result (NameRefused is_instance features.now (extern_name name.now) offset) }
{
    let _ = features;
    let suffix = suffix_of(name);
    match versioned_kind(name, kind) {
        Some(ComponentNameKind::Interface(interface)) => {
            check_interface(alloc, &interface, suffix, offset)
        }
        _ => check_no_suffix(suffix, offset),
    }
}

/// The form of the name, whose rules and features are all looked at: of the name and of what stands beside
/// it. An entry is an instance or is none.
#[tactic(auto, using(crate::proofs::NameRules::by_checked, crate::proofs::NameRules::has_accessors_for, crate::proofs::NameRules::no_bad_name, crate::proofs::NameRules::no_lack))]
pub fn check_whole_name<'a>(
    alloc: Global,
    name: &'a ComponentExternName,
    is_instance: bool,
    offset: u64,
    features: &WasmFeatures,
) -> Result<ComponentNameKind<'a>, Error>
    ensures kind { IfOk result (λ k. Some (kind_view k) ≡ form_of name.now.name) }
    ensures rule { OnOk result (rules.is_bad_name is_instance (extern_name name.now) ≡ false) }
    ensures feature { OnOk result (rules.lacks_feature features.now (extern_name name.now) ≡ false) }
    ensures err { IfErr result (NameRefused is_instance features.now (extern_name name.now) offset) }
{
    let kind = match checked_kind(name.name.as_str(), offset, features) {
        Ok(kind) => kind,
        Err(error) => return Err(error),
    };
    if let Err(error) = check_suffix(name, &kind, is_instance, offset, features) {
        return Err(error);
    }
    if let Err(error) = check_implements(name, &kind, is_instance, offset, features) {
        return Err(error);
    }
    if let Err(error) = check_version(alloc, name, &kind, is_instance, offset, features) {
        return Err(error);
    }
    Ok(kind)
}
