// Labels that are to join a set of keys.
ghost use Rattle.std.specs.Prelude.{◌≡◌, ◌<◌, List, [], ◌∷◌, ◌++◌, length, slice_get, option_copied, Some, OnOk, IfErr};
ghost use Rattle.wcv_core.specs.Label.{lower_case};
ghost use Rattle.wcv_types.specs.Tree.{Text};
ghost use Rattle.wcv_lower.specs.Checks.{IsFree, bad_label};
ghost use Rattle.wcv_spaces.specs.Parts.{AreKeys};
ghost use Rattle.wcv_spaces.specs.NameLists.{list_names};
ghost use Rattle.wcv_spaces.specs.Promises.{MemoryOrCausedBy};

use std::fmt;
use wcv_core::{Error, ErrorKind, Excerpt, LabelSet, Slip, Text, is_label};
use wcv_syntax::{ComponentValType, VariantCase};

/// The names among which a label must be new, for messages.
#[derive(Clone, Copy)]
pub enum NameList<'a> {
    /// All parameters of a function type, the later ones too.
    Params(&'a [(Text, ComponentValType)]),
    /// All fields of a record.
    Fields(&'a [(Text, ComponentValType)]),
    /// All cases of a variant.
    Cases(&'a [VariantCase]),
    Flags(&'a [Text]),
    /// All cases of an enum.
    EnumCases(&'a [Text]),
}

/// Whether the names differ at most in case.
pub fn are_alike(a: &str, b: &str) -> bool {
    a.len() == b.len()
        && a.as_bytes()
            .iter()
            .zip(b.as_bytes())
            .all(|(x, y)| x.eq_ignore_ascii_case(y))
}

impl<'a> NameList<'a> {
    /// The word for an entry of the list.
    pub fn word(&self) -> &'static str {
        match self {
            NameList::Params(_) => "parameter",
            NameList::Fields(_) => "field",
            NameList::Cases(_) => "case",
            NameList::Flags(_) => "flag",
            NameList::EnumCases(_) => "enum case",
        }
    }

    /// The name at that position.
    fn name_at(&self, position: usize) -> Option<&'a Text>
        ensures { option_copied result ≡ slice_get (list_names self.now) position }
    {
        match self {
            NameList::Params(params) | NameList::Fields(params) => {
                params.get(position).map(|param| &param.0)
            }
            NameList::Cases(cases) => cases.get(position).map(|case| &case.name),
            NameList::Flags(names) | NameList::EnumCases(names) => names.get(position),
        }
    }

    /// How many names there are.
    pub fn len(&self) -> usize
        ensures { result ≡ length (list_names self.now) }
    {
        match self {
            NameList::Params(params) | NameList::Fields(params) => params.len(),
            NameList::Cases(cases) => cases.len(),
            NameList::Flags(names) | NameList::EnumCases(names) => names.len(),
        }
    }

    /// The name at a position of the list.
    pub fn text_at(&self, position: usize) -> &'a Text
        requires { position < length (list_names self.now) }
        ensures { slice_get (list_names self.now) position ≡ Some result.now }
    {
        match self.name_at(position) {
            Some(name) => name,
            None => unreachable!(),
        }
    }
}

/// Shows the first name of a list that differs from another at most in case, and its position.
#[derive(Clone, Copy)]
struct Alike<'a> {
    list: NameList<'a>,
    name: &'a str,
}

impl fmt::Display for Alike<'_> {
    fn fmt<W: fmt::Write>(&self, f: &mut fmt::Formatter<W>) -> fmt::Result {
        let word = self.list.word();
        for position in 0..self.list.len() {
            if let Some(name) = self.list.name_at(position) {
                if are_alike(name.as_str(), self.name) {
                    let excerpt = Excerpt(name.as_str());
                    return write!(f, "{word} {position}, `{excerpt}`");
                }
            }
        }
        write!(f, "an earlier {word}")
    }
}

/// A label joins those of its list, which differ in more than case. Refuses as `Name` a text that is no
/// label in kebab case, as `Conflict` one that is there already, and as `OutOfMemory` when out of memory
/// alone. The list is for messages.
pub fn insert_label(
    keys: &mut LabelSet,
    name: &Text,
    list: NameList<'_>,
    offset: u64,
) -> Result<(), Error>
    ensures keys { OnOk result ((ks : List Text) → AreKeys keys.old ks → AreKeys keys.new (ks ++ lower_case name.now ∷ [])) }
    ensures ok { OnOk result (IsFree (bad_label keys.old name.now)) }
    ensures err { IfErr result (MemoryOrCausedBy (bad_label keys.old name.now) offset) }
{
    let text = name.as_str();
    let word = list.word();
    if !is_label(text) {
        let excerpt = Excerpt(text);
        let slip = Slip(text);
        return Err(Error::told(
            ErrorKind::Name,
            offset,
            format_args!("{word} name `{excerpt}` is not a label: {slip}"),
        ));
    }
    if !keys.insert(text)? {
        let excerpt = Excerpt(text);
        let alike = Alike { list, name: text };
        return Err(Error::told(
            ErrorKind::Conflict,
            offset,
            format_args!(
                "{word} name `{excerpt}` conflicts with {alike}: names must differ in more than case"
            ),
        ));
    }
    Ok(())
}
