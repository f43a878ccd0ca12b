// The forms of names of imports and exports.
ghost use Rattle.std.specs.Prelude.{◌≡◌, ◌<◌, IfSome};
ghost use Rattle.std.specs.Option.{option_map, option_copied};
ghost use Rattle.std.specs.List.{list_any};
ghost use Rattle.std.specs.Char.{is_ascii_uppercase};
ghost use Rattle.wcv_syntax.specs.ExternName.{is_lower_label as is_lower_label_text, is_some_text as is_some_text_of, method as methods, static as statics, joined, colon, with_version, is_accessor as is_accessor_form, access_of};
ghost use Rattle.wcv_syntax.specs.FormOf as forms;
ghost use Rattle.wcv_syntax.specs.NameViews.{use_view, kind_view, parts_view, member_view};

use crate::interface_name::InterfaceName;
use wcv_core::is_label;

/// What a name is, with its labels.
#[derive(Clone, Copy)]
pub enum ComponentNameKind<'a> {
    /// `l`
    Label(&'a str),
    /// `[get]l`
    Getter(&'a str),
    /// `[set]l`
    Setter(&'a str),
    /// `[constructor]r`
    Constructor(&'a str),
    /// `[method]r.f`
    Method(&'a str, &'a str),
    /// `[method][get]r.f`
    MethodGetter(&'a str, &'a str),
    /// `[method][set]r.f`
    MethodSetter(&'a str, &'a str),
    /// `[static]r.f`
    Static(&'a str, &'a str),
    /// `[static][get]r.f`
    StaticGetter(&'a str, &'a str),
    /// `[static][set]r.f`
    StaticSetter(&'a str, &'a str),
    /// `n:p/i` or `n:p/i@v`
    Interface(InterfaceName<'a>),
}

/// How a name uses what it names.
#[derive(Clone, Copy)]
enum Use {
    Call,
    Get,
    Set,
}

/// What follows the mark in a text that begins with it.
pub fn behind<'a>(text: &'a str, mark: &str) -> Option<&'a str>
    ensures { option_copied result ≡ forms.behind mark.now text.now }
{
    text.strip_prefix(mark)
}

/// What stands before the first of these bytes, and what stands after it.
pub fn around(text: &str, byte: char) -> Option<(&str, &str)>
    requires { byte < 128 }
    ensures cut { parts_view result ≡ forms.around byte text.now }
    ensures whole { IfSome result (λ p. text.now ≡ joined byte p.0.now p.1.now) }
{
    text.split_once(byte)
}

/// How the name is used, and the text behind the mark of that.
fn used(text: &str) -> (Use, &str)
    ensures { (use_view result.0, result.1.now) ≡ forms.used text.now }
{
    if let Some(rest) = behind(text, "[get]") {
        return (Use::Get, rest);
    }
    if let Some(rest) = behind(text, "[set]") {
        return (Use::Set, rest);
    }
    (Use::Call, text)
}

/// Whether a letter is in upper case.
fn has_upper(bytes: &[u8]) -> bool
    ensures { result ≡ list_any is_ascii_uppercase bytes.now }
{
    bytes.iter().any(|b| b.is_ascii_uppercase())
}

/// Whether the text is a label without upper case.
fn is_lower_label(text: &str) -> bool
    ensures { result ≡ is_lower_label_text text.now }
{
    is_label(text) && !has_upper(text.as_bytes())
}

/// A label, and the mark of its use before it.
fn item(text: &str) -> Option<ComponentNameKind<'_>>
    ensures { option_map kind_view result ≡ forms.item_in text.now }
{
    let (usage, label) = used(text);
    if !is_label(label) {
        return None;
    }
    match usage {
        Use::Call => Some(ComponentNameKind::Label(label)),
        Use::Get => Some(ComponentNameKind::Getter(label)),
        Use::Set => Some(ComponentNameKind::Setter(label)),
    }
}

fn constructor(label: &str) -> Option<ComponentNameKind<'_>>
    ensures { option_map kind_view result ≡ forms.constructor_in label.now }
{
    if is_label(label) {
        Some(ComponentNameKind::Constructor(label))
    } else {
        None
    }
}

/// A resource and its function, with the use of it.
fn member(text: &str) -> Option<(Use, &str, &str)>
    ensures { option_map member_view result ≡ forms.member_parts text.now }
{
    let (usage, rest) = used(text);
    let (resource, function) = around(rest, '.')?;
    if is_label(resource) && is_label(function) {
        Some((usage, resource, function))
    } else {
        None
    }
}

fn method(text: &str) -> Option<ComponentNameKind<'_>>
    ensures { option_map kind_view result ≡ forms.member_in methods text.now }
{
    let (usage, resource, function) = member(text)?;
    match usage {
        Use::Call => Some(ComponentNameKind::Method(resource, function)),
        Use::Get => Some(ComponentNameKind::MethodGetter(resource, function)),
        Use::Set => Some(ComponentNameKind::MethodSetter(resource, function)),
    }
}

fn static_function(text: &str) -> Option<ComponentNameKind<'_>>
    ensures { option_map kind_view result ≡ forms.member_in statics text.now }
{
    let (usage, resource, function) = member(text)?;
    match usage {
        Use::Call => Some(ComponentNameKind::Static(resource, function)),
        Use::Get => Some(ComponentNameKind::StaticGetter(resource, function)),
        Use::Set => Some(ComponentNameKind::StaticSetter(resource, function)),
    }
}

/// An interface, and maybe its version.
fn versioned(text: &str) -> (&str, Option<&str>)
    ensures cut { (result.0.now, option_copied result.1) ≡ forms.versioned text.now }
    ensures whole { with_version result.0.now (option_copied result.1) ≡ text.now }
{
    match around(text, '@') {
        Some((interface, version)) => (interface, Some(version)),
        None => (text, None),
    }
}

/// Whether no version is left empty.
fn is_some_text(text: Option<&str>) -> bool
    ensures { result ≡ is_some_text_of (option_copied text.entry) }
{
    match text {
        Some(version) => !version.is_empty(),
        None => true,
    }
}

/// The name of an interface, from what stands around its colon.
fn interface<'a>(text: &'a str, namespace: &'a str, rest: &'a str) -> Option<ComponentNameKind<'a>>
    requires { text.now ≡ joined colon namespace.now rest.now }
    ensures { option_map kind_view result ≡ forms.interface_in namespace.now rest.now }
{
    let (package, rest) = around(rest, '/')?;
    let (interface, version) = versioned(rest);
    if is_lower_label(namespace)
        && is_lower_label(package)
        && is_label(interface)
        && is_some_text(version)
    {
        Some(ComponentNameKind::Interface(InterfaceName {
            text,
            namespace,
            package,
            interface,
            version,
        }))
    } else {
        None
    }
}

/// The form of a name that begins with no mark of a resource.
fn unmarked(name: &str) -> Option<ComponentNameKind<'_>>
    ensures { option_map kind_view result ≡ forms.unmarked name.now }
{
    match around(name, ':') {
        Some((namespace, rest)) => interface(name, namespace, rest),
        None => item(name),
    }
}

impl<'a> ComponentNameKind<'a> {
    /// The form of the name, or `None` exactly where it has none.
    pub fn read(name: &'a str) -> Option<ComponentNameKind<'a>>
        ensures { option_map kind_view result ≡ forms.form_of name.now }
    {
        if let Some(label) = behind(name, "[constructor]") {
            return constructor(label);
        }
        if let Some(rest) = behind(name, "[method]") {
            return method(rest);
        }
        if let Some(rest) = behind(name, "[static]") {
            return static_function(rest);
        }
        unmarked(name)
    }
    /// Whether it reads or writes a value, in place of a call.
    pub fn is_accessor(&self) -> bool
        ensures { result ≡ is_accessor_form (access_of (kind_view self.now)) }
    {
        match self {
            ComponentNameKind::Getter(_)
            | ComponentNameKind::Setter(_)
            | ComponentNameKind::MethodGetter(_, _)
            | ComponentNameKind::MethodSetter(_, _)
            | ComponentNameKind::StaticGetter(_, _)
            | ComponentNameKind::StaticSetter(_, _) => true,
            _ => false,
        }
    }
}
