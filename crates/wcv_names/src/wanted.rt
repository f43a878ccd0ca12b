// What an entity would have to look like to have its name, for messages.
use std::fmt;
use wcv_core::Excerpt;
use wcv_syntax::ComponentNameKind;

/// Shows what has a name of that form.
#[derive(Clone, Copy)]
pub struct Wanted<'a, 'b>(pub &'a ComponentNameKind<'b>);

/// What a getter and a setter look like besides `self`.
const GETTER: &str = "no parameter and a result that is a value, or a `result` with an ok type";

const SETTER: &str =
    "one parameter and no result, or a `result` with no ok type; the getter of the same spelling stands before it and gives the parameter's type";

fn write_method<W: fmt::Write>(
    f: &mut fmt::Formatter<W>,
    resource: &str,
    besides: &str,
) -> fmt::Result {
    let excerpt = Excerpt(resource);
    write!(
        f,
        "a function whose first parameter is `self`, a borrow of the resource that is named `{excerpt}` here{besides}"
    )
}

fn write_static<W: fmt::Write>(
    f: &mut fmt::Formatter<W>,
    resource: &str,
    besides: &str,
) -> fmt::Result {
    let excerpt = Excerpt(resource);
    write!(
        f,
        "a function, where a resource is named `{excerpt}` here{besides}"
    )
}

impl fmt::Display for Wanted<'_, '_> {
    fn fmt<W: fmt::Write>(&self, f: &mut fmt::Formatter<W>) -> fmt::Result {
        match self.0 {
            ComponentNameKind::Label(_) | ComponentNameKind::Interface(_) => {
                f.write_str("an item")
            }
            ComponentNameKind::Getter(_) => write!(f, "a function, not async, with {GETTER}"),
            ComponentNameKind::Setter(_) => write!(f, "a function, not async, with {SETTER}"),
            ComponentNameKind::Constructor(resource) => {
                let excerpt = Excerpt(resource);
                write!(
                    f,
                    "a function, not async, whose result owns the resource that is named `{excerpt}` here, or is a `result` with that as its ok type"
                )
            }
            ComponentNameKind::Method(resource, _) => write_method(f, resource, ""),
            ComponentNameKind::MethodGetter(resource, _) => {
                write_method(
                    f,
                    resource,
                    "; besides it the function has no parameter and gives a value, and is not async",
                )
            }
            ComponentNameKind::MethodSetter(resource, _) => {
                write_method(
                    f,
                    resource,
                    "; besides it the function takes the value that the getter before it gives, gives none, and is not async",
                )
            }
            ComponentNameKind::Static(resource, _) => write_static(f, resource, ""),
            ComponentNameKind::StaticGetter(resource, _) => {
                write_static(
                    f,
                    resource,
                    "; it has no parameter and gives a value, and is not async",
                )
            }
            ComponentNameKind::StaticSetter(resource, _) => {
                write_static(
                    f,
                    resource,
                    "; it takes the value that the getter before it gives, gives none, and is not async",
                )
            }
        }
    }
}
