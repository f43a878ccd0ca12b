// What is wrong with a text that is no name, for messages.
use crate::name_kind::{around, behind};
use std::fmt;
use wcv_core::{Excerpt, Slip, is_label};

/// Shows which rule of names a text breaks that has none of their forms.
#[derive(Clone, Copy)]
pub struct NameSlip<'a>(pub &'a str);

/// Shows why a part is no label.
fn write_part<W: fmt::Write>(f: &mut fmt::Formatter<W>, part: &str, text: &str) -> fmt::Result {
    let excerpt = Excerpt(text);
    let slip = Slip(text);
    write!(f, "{part} `{excerpt}` is not a label: {slip}")
}

/// Shows what is wrong behind a mark of a member.
fn write_member<W: fmt::Write>(f: &mut fmt::Formatter<W>, text: &str) -> fmt::Result {
    let rest = match behind(text, "[get]") {
        Some(rest) => rest,
        None => behind(text, "[set]").unwrap_or(text),
    };
    match around(rest, '.') {
        None => f.write_str("a resource, `.` and a function follow the mark"),
        Some((resource, function)) => {
            if is_label(resource) {
                write_part(f, "the function", function)
            } else {
                write_part(f, "the resource", resource)
            }
        }
    }
}

/// Shows what is wrong with a label in lower case.
fn write_lower<W: fmt::Write>(f: &mut fmt::Formatter<W>, part: &str, text: &str) -> fmt::Result {
    if is_label(text) {
        let excerpt = Excerpt(text);
        return write!(f, "{part} `{excerpt}` must be in lower case");
    }
    write_part(f, part, text)
}

/// Whether the text is a label with no letter in upper case.
fn is_low(text: &str) -> bool {
    is_label(text) && !text.as_bytes().iter().any(|b| b.is_ascii_uppercase())
}

/// Shows what is wrong with the name of an interface.
fn write_interface<W: fmt::Write>(
    f: &mut fmt::Formatter<W>,
    namespace: &str,
    rest: &str,
) -> fmt::Result {
    let Some((package, interface)) = around(rest, '/') else {
        return f.write_str(
            "a `:` stands in names of interfaces, as `my-namespace:my-package/my-interface`",
        );
    };
    if !is_low(namespace) {
        return write_lower(f, "the namespace", namespace);
    }
    if !is_low(package) {
        return write_lower(f, "the package", package);
    }
    let name = match around(interface, '@') {
        Some((name, _)) => name,
        None => interface,
    };
    if !is_label(name) {
        return write_part(f, "the interface", name);
    }
    f.write_str("a version must follow the `@`")
}

/// Shows what is wrong with a name that begins with no mark of a resource.
fn write_unmarked<W: fmt::Write>(f: &mut fmt::Formatter<W>, text: &str) -> fmt::Result {
    if let Some((namespace, rest)) = around(text, ':') {
        return write_interface(f, namespace, rest);
    }
    if let Some(label) = behind(text, "[get]") {
        return write_part(f, "the value", label);
    }
    if let Some(label) = behind(text, "[set]") {
        return write_part(f, "the value", label);
    }
    if text.as_bytes().first() == Some(&b'[') {
        return f.write_str(
            "names may begin with `[constructor]`, `[method]`, `[static]`, `[get]` and `[set]`, and with no other mark",
        );
    }
    let slip = Slip(text);
    write!(f, "it is not a label: {slip}")
}

impl fmt::Display for NameSlip<'_> {
    fn fmt<W: fmt::Write>(&self, f: &mut fmt::Formatter<W>) -> fmt::Result {
        let text = self.0;
        if let Some(label) = behind(text, "[constructor]") {
            return write_part(f, "the resource", label);
        }
        if let Some(rest) = behind(text, "[method]") {
            return write_member(f, rest);
        }
        if let Some(rest) = behind(text, "[static]") {
            return write_member(f, rest);
        }
        write_unmarked(f, text)
    }
}
