// Keys of names.
ghost use Rattle.std.specs.Prelude.{◌≡◌, ◌++◌, string_bytes, IfOk, Some, None};
ghost use Rattle.wcv_core.specs.Label.{lower_case};
ghost use Rattle.wcv_syntax.specs.ExternName.{joined, dot, set, access_of, getter_of, spelled};
ghost use Rattle.wcv_syntax.specs.Keys.{member_key as member_key_of, key_of, key_text as key_text_of};
ghost use Rattle.wcv_syntax.specs.NameViews.{kind_view};
ghost use Rattle.wcv_syntax.specs.declared.key.NameKey.TheVariants as key;

use crate::key::NameKey;
use crate::name_kind::ComponentNameKind;
use std::alloc::Global;
use wcv_core::{OutOfMemory, Text};

/// A label behind its mark.
fn marked_label(alloc: Global, mark: &str, label: &str) -> Result<String, OutOfMemory>
    ensures { IfOk result (λ s. string_bytes s ≡ mark.now ++ label.now) }
{
    let mut text = String::with_capacity(alloc, mark.len().saturating_add(label.len()))?;
    text.push_str(mark)?;
    text.push_str(label)?;
    Ok(text)
}

/// A resource and its function behind a mark.
fn marked_member(
    alloc: Global,
    mark: &str,
    resource: &str,
    function: &str,
) -> Result<String, OutOfMemory>
    ensures { IfOk result (λ s. string_bytes s ≡ mark.now ++ joined dot resource.now function.now) }
{
    let room = mark.len().saturating_add(resource.len());
    let room = room.saturating_add(function.len()).saturating_add(1);
    let mut text = String::with_capacity(alloc, room)?;
    text.push_str(mark)?;
    text.push_str(resource)?;
    text.push('.')?;
    text.push_str(function)?;
    Ok(text)
}

fn lower_label(alloc: Global, mark: &str, label: &str) -> Result<String, OutOfMemory>
    ensures { IfOk result (λ s. string_bytes s ≡ lower_case mark.now ++ lower_case label.now) }
{
    let mut text = marked_label(alloc, mark, label)?;
    text.make_ascii_lowercase();
    Ok(text)
}

fn lower_member(
    alloc: Global,
    mark: &str,
    resource: &str,
    function: &str,
) -> Result<String, OutOfMemory>
    ensures { IfOk result (λ s. string_bytes s ≡ lower_case mark.now ++ joined dot (lower_case resource.now) (lower_case function.now)) }
{
    let mut text = marked_member(alloc, mark, resource, function)?;
    text.make_ascii_lowercase();
    Ok(text)
}

/// The text of the key of a member.
fn member_text(alloc: Global, resource: &str, function: &str) -> Result<String, OutOfMemory>
    ensures { IfOk result (λ s. string_bytes s ≡ key_text_of (member_key_of (lower_case resource.now) (lower_case function.now))) }
{
    if resource.eq_ignore_ascii_case(function) {
        lower_label(alloc, "", resource)
    } else {
        lower_member(alloc, "[method]", resource, function)
    }
}

fn copied(alloc: Global, text: &str) -> Result<String, OutOfMemory>
    ensures { IfOk result (λ s. string_bytes s ≡ text.now) }
{
    match String::from_str(alloc, text) {
        Ok(copy) => Ok(copy),
        Err(_) => Err(OutOfMemory),
    }
}

/// The label in lower case.
fn lower(alloc: Global, label: &str) -> Result<Text, OutOfMemory>
    ensures { IfOk result (λ t. t ≡ lower_case label.now) }
{
    match label.to_ascii_lowercase(alloc) {
        Ok(text) => Ok(Text::from(text)),
        Err(_) => Err(OutOfMemory),
    }
}

/// Two labels in lower case.
fn lower_both(alloc: Global, a: &str, b: &str) -> Result<(Text, Text), OutOfMemory>
    ensures { IfOk result (λ ts. (ts.0 ≡ lower_case a.now) × (ts.1 ≡ lower_case b.now)) }
{
    match lower(alloc, a) {
        Ok(first) => match lower(alloc, b) {
            Ok(second) => Ok((first, second)),
            Err(err) => Err(err),
        },
        Err(err) => Err(err),
    }
}

fn item_key(alloc: Global, label: &str) -> Result<NameKey, OutOfMemory>
    ensures { IfOk result (λ k. k ≡ key.Item (lower_case label.now)) }
{
    match lower(alloc, label) {
        Ok(text) => Ok(NameKey::Item(text)),
        Err(err) => Err(err),
    }
}

fn constructor_key(alloc: Global, label: &str) -> Result<NameKey, OutOfMemory>
    ensures { IfOk result (λ k. k ≡ key.Constructor (lower_case label.now)) }
{
    match lower(alloc, label) {
        Ok(text) => Ok(NameKey::Constructor(text)),
        Err(err) => Err(err),
    }
}

fn setter_key(alloc: Global, label: &str) -> Result<NameKey, OutOfMemory>
    ensures { IfOk result (λ k. k ≡ key.Setter None (lower_case label.now)) }
{
    match lower(alloc, label) {
        Ok(text) => Ok(NameKey::Setter(None, text)),
        Err(err) => Err(err),
    }
}

fn interface_key(alloc: Global, name: &str) -> Result<NameKey, OutOfMemory>
    ensures { IfOk result (λ k. k ≡ key.Interface name.now) }
{
    match Text::new(alloc, name) {
        Ok(text) => Ok(NameKey::Interface(text)),
        Err(err) => Err(err),
    }
}

fn member_key(alloc: Global, resource: &str, function: &str) -> Result<NameKey, OutOfMemory>
    ensures { IfOk result (λ k. k ≡ member_key_of (lower_case resource.now) (lower_case function.now)) }
{
    if resource.eq_ignore_ascii_case(function) {
        return item_key(alloc, resource);
    }
    match lower_both(alloc, resource, function) {
        Ok((of, member)) => Ok(NameKey::Member(of, member)),
        Err(err) => Err(err),
    }
}

fn member_setter_key(alloc: Global, resource: &str, function: &str) -> Result<NameKey, OutOfMemory>
    ensures { IfOk result (λ k. k ≡ key.Setter (Some (lower_case resource.now)) (lower_case function.now)) }
{
    match lower_both(alloc, resource, function) {
        Ok((of, member)) => Ok(NameKey::Setter(Some(of), member)),
        Err(err) => Err(err),
    }
}

impl ComponentNameKind<'_> {
    /// The key of the name.
    pub fn uniqueness_key(&self, alloc: Global) -> Result<NameKey, OutOfMemory>
        ensures { IfOk result (λ k. k ≡ key_of (kind_view self.now)) }
    {
        match self {
            ComponentNameKind::Label(label) | ComponentNameKind::Getter(label) => {
                item_key(alloc, label)
            }
            ComponentNameKind::Setter(label) => setter_key(alloc, label),
            ComponentNameKind::Constructor(label) => constructor_key(alloc, label),
            ComponentNameKind::Method(resource, function)
            | ComponentNameKind::MethodGetter(resource, function)
            | ComponentNameKind::Static(resource, function)
            | ComponentNameKind::StaticGetter(resource, function) => {
                member_key(alloc, resource, function)
            }
            ComponentNameKind::MethodSetter(resource, function)
            | ComponentNameKind::StaticSetter(resource, function) => {
                member_setter_key(alloc, resource, function)
            }
            ComponentNameKind::Interface(interface) => interface_key(alloc, interface.text),
        }
    }

    /// The key of the name, as a text.
    pub fn key_text(&self, alloc: Global) -> Result<String, OutOfMemory>
        ensures { IfOk result (λ s. string_bytes s ≡ key_text_of (key_of (kind_view self.now))) }
    {
        match self {
            ComponentNameKind::Label(label) | ComponentNameKind::Getter(label) => {
                lower_label(alloc, "", label)
            }
            ComponentNameKind::Setter(label) => lower_label(alloc, "[set]", label),
            ComponentNameKind::Constructor(label) => lower_label(alloc, "[constructor]", label),
            ComponentNameKind::Method(resource, function)
            | ComponentNameKind::MethodGetter(resource, function)
            | ComponentNameKind::Static(resource, function)
            | ComponentNameKind::StaticGetter(resource, function) => {
                member_text(alloc, resource, function)
            }
            ComponentNameKind::MethodSetter(resource, function)
            | ComponentNameKind::StaticSetter(resource, function) => {
                lower_member(alloc, "[method][set]", resource, function)
            }
            ComponentNameKind::Interface(interface) => copied(alloc, interface.text),
        }
    }

    /// The text of the name of the getter of a setter, of the same spelling.
    pub fn getter_text(&self, alloc: Global) -> Result<String, OutOfMemory>
        requires { access_of (kind_view self.now) ≡ set }
        ensures { IfOk result (λ s. string_bytes s ≡ spelled (getter_of (kind_view self.now))) }
    {
        match self {
            ComponentNameKind::Setter(label) => marked_label(alloc, "[get]", label),
            ComponentNameKind::MethodSetter(resource, function) => {
                marked_member(alloc, "[method][get]", resource, function)
            }
            ComponentNameKind::StaticSetter(resource, function) => {
                marked_member(alloc, "[static][get]", resource, function)
            }
            _ => unreachable!(),
        }
    }

    /// The name of the getter of a setter, of the same spelling.
    pub fn getter_for_setter(&self, alloc: Global) -> Result<Text, OutOfMemory>
        requires { access_of (kind_view self.now) ≡ set }
        ensures { IfOk result (λ t. t ≡ spelled (getter_of (kind_view self.now))) }
    {
        let text = self.getter_text(alloc)?;
        Ok(Text::from(text))
    }
}
