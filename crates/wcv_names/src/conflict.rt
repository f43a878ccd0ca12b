// The refusal of a name whose key another entry has.
ghost use Rattle.std.specs.Prelude.{◌≡◌};
ghost use Rattle.wcv_core.specs.Refusal.{error_kind, error_offset};

use crate::name_set::NameSet;
use wcv_core::{Error, ErrorKind, Excerpt, ExternKind};
use wcv_types::ItemMap;

/// The refusal of a name whose key stands at this position of the keys. So does the entry that has it, where the
/// list grew with the keys.
pub fn conflict(
    name: &str,
    list: ExternKind,
    names: &NameSet,
    items: &ItemMap,
    position: usize,
    offset: u64,
) -> Error
    ensures kind { error_kind result ≡ ErrorKind.Conflict }
    ensures offset { error_offset result ≡ offset }
{
    let word = list.desc();
    let later = Excerpt(name);
    match items.get_index(position) {
        Some(entry) if names.len() == items.len() => {
            let earlier = Excerpt(entry.0.as_str());
            let why = if entry.0.as_str().eq_ignore_ascii_case(name) {
                "names must differ in more than case"
            } else {
                "a getter has the key of its item, and a function of a resource one key with its getter"
            };
            Error::told(
                ErrorKind::Conflict,
                offset,
                format_args!(
                    "{word} name `{later}` conflicts with {word} {position}, `{earlier}`: {why}"
                ),
            )
        }
        _ => Error::told(
            ErrorKind::Conflict,
            offset,
            format_args!(
                "{word} name `{later}` conflicts with an earlier {word}: both have one key"
            ),
        ),
    }
}
