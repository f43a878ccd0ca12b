// What stands in a list of options.
ghost use Rattle.std.specs.Prelude.{◌≡◌, ◌<◌, ◌||◌, [], map, is_some};
ghost use Rattle.std.specs.Option.{option_map, unwrap_or};
ghost use Rattle.wcv_syntax.specs.View.{canon_view};
ghost use Rattle.wcv_lower.specs.CanonOptions as spec;
ghost use Rattle.wcv_lower.specs.CanonOptions.{first, encoding_in, repeats};
ghost use Rattle.wcv_flat.specs.CodeRows.{name_of};
ghost use Rattle.wcv_flat.specs.Rows.{options_in};
ghost use Rattle.wcv_canon.specs.Options.{index_in};

use wcv_flat::{OptionName, StringEncoding};
use wcv_syntax::{CanonicalFunction, CanonicalOption};

/// The list of options of a canonical function that has one.
pub fn list_of(func: &CanonicalFunction) -> Option<&Vec<CanonicalOption>>
    ensures { option_map (λ list. list.now.items) result ≡ options_in (canon_view func.now) }
{
    match func {
        CanonicalFunction::Lift { options, .. }
        | CanonicalFunction::Lower { options, .. }
        | CanonicalFunction::TaskReturn { options, .. }
        | CanonicalFunction::StreamRead { options, .. }
        | CanonicalFunction::StreamWrite { options, .. }
        | CanonicalFunction::FutureRead { options, .. }
        | CanonicalFunction::FutureWrite { options, .. }
        | CanonicalFunction::ErrorContextNew { options }
        | CanonicalFunction::ErrorContextDebugMessage { options } => Some(options),
        _ => None,
    }
}

/// The options of a canonical function, none where it has no list of them.
pub fn listed(func: &CanonicalFunction) -> &[CanonicalOption]
    ensures { result.now ≡ unwrap_or (options_in (canon_view func.now)) [] }
{
    match list_of(func) {
        Some(list) => list.as_slice(),
        None => &[],
    }
}

/// The word for an option beside the encoding, as in a listing.
pub fn name_word(name: OptionName) -> &'static str {
    match name {
        OptionName::Memory => "memory",
        OptionName::Realloc => "realloc",
        OptionName::PostReturn => "post-return",
        OptionName::Async => "async",
        OptionName::Callback => "callback",
    }
}

/// The name of an option, as in a listing.
pub fn option_word(option: CanonicalOption) -> &'static str {
    match option {
        CanonicalOption::UTF8 => "utf8",
        CanonicalOption::UTF16 => "utf16",
        CanonicalOption::CompactUTF16 => "latin1-utf16",
        CanonicalOption::Memory(_) => "memory",
        CanonicalOption::Realloc(_) => "realloc",
        CanonicalOption::PostReturn(_) => "post-return",
        CanonicalOption::Async => "async",
        CanonicalOption::Callback(_) => "callback",
        CanonicalOption::CoreType(_) => "core-type",
        CanonicalOption::Gc => "gc",
    }
}

/// Whether the option has the name.
fn has_name(name: OptionName, option: CanonicalOption) -> bool
    ensures { result ≡ spec.has_name (name_of name) option }
{
    match (name, option) {
        (OptionName::Memory, CanonicalOption::Memory(_)) => true,
        (OptionName::Realloc, CanonicalOption::Realloc(_)) => true,
        (OptionName::PostReturn, CanonicalOption::PostReturn(_)) => true,
        (OptionName::Async, CanonicalOption::Async) => true,
        (OptionName::Callback, CanonicalOption::Callback(_)) => true,
        _ => false,
    }
}

/// Whether an option of that name stands in the list.
pub fn stands(name: OptionName, options: &[CanonicalOption]) -> bool
    ensures { result ≡ spec.stands (name_of name) options.now }
{
    options.iter().any(|option| has_name(name, *option))
}

/// The index that an option has under that name.
fn index_in(name: OptionName, option: CanonicalOption) -> Option<u32>
    ensures { result ≡ index_in (name_of name) option }
{
    match (name, option) {
        (OptionName::Memory, CanonicalOption::Memory(index)) => Some(index),
        (OptionName::Realloc, CanonicalOption::Realloc(index)) => Some(index),
        (OptionName::PostReturn, CanonicalOption::PostReturn(index)) => Some(index),
        (OptionName::Callback, CanonicalOption::Callback(index)) => Some(index),
        _ => None,
    }
}

/// The first index under that name.
#[tactic(auto, using(crate::proofs::OptionLists::first_goes, crate::proofs::OptionLists::first_found, crate::proofs::OptionLists::first_none))]
pub fn first_index(name: OptionName, options: &[CanonicalOption]) -> Option<u32>
    ensures { result ≡ first (index_in (name_of name)) options.now }
{
    for option in options {
        if let Some(index) = index_in(name, *option) {
            return Some(index);
        }
    }
    None
}

/// The encoding that an option is.
fn encoding_in(option: CanonicalOption) -> Option<StringEncoding>
    ensures { result ≡ encoding_in option }
{
    match option {
        CanonicalOption::UTF8 => Some(StringEncoding::Utf8),
        CanonicalOption::UTF16 => Some(StringEncoding::Utf16),
        CanonicalOption::CompactUTF16 => Some(StringEncoding::CompactUtf16),
        _ => None,
    }
}

/// Whether the option is an encoding.
pub fn is_encoding(option: CanonicalOption) -> bool {
    encoding_in(option).is_some()
}

/// The first encoding.
#[tactic(auto, using(crate::proofs::OptionLists::first_goes, crate::proofs::OptionLists::first_found, crate::proofs::OptionLists::first_none))]
pub fn first_encoding(options: &[CanonicalOption]) -> Option<StringEncoding>
    ensures { result ≡ first encoding_in options.now }
{
    for option in options {
        if let Some(encoding) = encoding_in(*option) {
            return Some(encoding);
        }
    }
    None
}

/// The number of an option: encodings have one.
fn number_of(option: CanonicalOption) -> usize
    ensures number { result ≡ spec.number_of option }
    ensures within { result < 8 }
{
    match option {
        CanonicalOption::Memory(_) => 1,
        CanonicalOption::Realloc(_) => 2,
        CanonicalOption::PostReturn(_) => 3,
        CanonicalOption::Async => 4,
        CanonicalOption::Callback(_) => 5,
        CanonicalOption::CoreType(_) => 6,
        CanonicalOption::Gc => 7,
        _ => 0,
    }
}

/// The option, where it stands again, or the one before it that does.
fn once_more(
    option: CanonicalOption,
    again: bool,
    before: Option<CanonicalOption>,
) -> Option<CanonicalOption>
    ensures { is_some result ≡ (is_some before || again) }
{
    if again {
        return Some(option);
    }
    before
}

/// An option that stands once more, where there is one. One encoding is as good as another.
pub fn repeated(options: &[CanonicalOption]) -> Option<CanonicalOption>
    ensures { is_some result ≡ repeats (map spec.number_of options.now) }
{
    let mut seen = [false; 8];
    let mut repeated = None;
    for option in options {
        let number = number_of(*option);
        repeated = once_more(*option, seen[number], repeated);
        seen[number] = true;
    }
    repeated
}
