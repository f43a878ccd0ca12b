// What stands under the keys of an object, of which each member is read once.
ghost use Rattle.std.specs.Prelude.{◌≡◌, ◌∷◌, [], Some, IfSome, is_some, option_map, if◌then◌else◌};
ghost use Rattle.std.specs.Str.{bytes_eq};
ghost use Rattle.serde_json.specs.Find.{get};
ghost use Rattle.wcv_listing.specs.Fields.{has_only};
ghost use Rattle.wcv_listing.specs.Seen.{view};

use crate::node::Node;
use crate::value::is_one_of;

// The value of a member of this key where that is the key that is asked for, or else what was found before.
fn later<'t, 'a>(
    key: &str,
    value: Node<'t, 'a>,
    asked: &str,
    found: Option<Node<'t, 'a>>,
) -> Option<Node<'t, 'a>>
    ensures { option_map view result ≡ (if bytes_eq key.now asked.now then Some (view value.entry) else option_map view found.entry) }
{
    if key == asked { Some(value) } else { found }
}

/// What an object with no key but this one has under it.
pub fn one_field<'t, 'a>(value: Node<'t, 'a>, name: &str) -> Option<Option<Node<'t, 'a>>>
    ensures only { is_some result ≡ has_only (name.now ∷ []) (view value.entry) }
    ensures found { IfSome result (λ found. option_map view found ≡ get name.now (view value.entry)) }
{
    let Some(mut members) = value.members() else {
        return None;
    };
    let mut found = None;
    while let Some((member, rest)) = members.next() {
        let (key, node) = member;
        if key != name {
            return None;
        }
        found = Some(node);
        members = rest;
    }
    Some(found)
}

/// What an object with no keys but these two has under each of them.
pub fn two_fields<'t, 'a>(
    value: Node<'t, 'a>,
    first: &str,
    second: &str,
) -> Option<(Option<Node<'t, 'a>>, Option<Node<'t, 'a>>)>
    ensures only { is_some result ≡ has_only (first.now ∷ second.now ∷ []) (view value.entry) }
    ensures found { IfSome result (λ p. (option_map view p.0 ≡ get first.now (view value.entry)) × (option_map view p.1 ≡ get second.now (view value.entry))) }
{
    let Some(mut members) = value.members() else {
        return None;
    };
    let mut at_first = None;
    let mut at_second = None;
    while let Some((member, rest)) = members.next() {
        let (key, node) = member;
        if !is_one_of(key, &[first, second]) {
            return None;
        }
        at_first = later(key, node, first, at_first);
        at_second = later(key, node, second, at_second);
        members = rest;
    }
    Some((at_first, at_second))
}

/// What an object with no keys but these three has under each of them.
pub fn three_fields<'t, 'a>(
    value: Node<'t, 'a>,
    first: &str,
    second: &str,
    third: &str,
) -> Option<
    (
        Option<Node<'t, 'a>>,
        Option<Node<'t, 'a>>,
        Option<Node<'t, 'a>>,
    ),
>
    ensures only { is_some result ≡ has_only (first.now ∷ second.now ∷ third.now ∷ []) (view value.entry) }
    ensures found { IfSome result (λ p. (option_map view p.0 ≡ get first.now (view value.entry)) × (option_map view p.1 ≡ get second.now (view value.entry)) × (option_map view p.2 ≡ get third.now (view value.entry))) }
{
    let Some(mut members) = value.members() else {
        return None;
    };
    let mut at_first = None;
    let mut at_second = None;
    let mut at_third = None;
    while let Some((member, rest)) = members.next() {
        let (key, node) = member;
        if !is_one_of(key, &[first, second, third]) {
            return None;
        }
        at_first = later(key, node, first, at_first);
        at_second = later(key, node, second, at_second);
        at_third = later(key, node, third, at_third);
        members = rest;
    }
    Some((at_first, at_second, at_third))
}

/// What an object with no keys but these four has under each of them.
pub fn four_fields<'t, 'a>(
    value: Node<'t, 'a>,
    first: &str,
    second: &str,
    third: &str,
    fourth: &str,
) -> Option<
    (
        Option<Node<'t, 'a>>,
        Option<Node<'t, 'a>>,
        Option<Node<'t, 'a>>,
        Option<Node<'t, 'a>>,
    ),
>
    ensures only { is_some result ≡ has_only (first.now ∷ second.now ∷ third.now ∷ fourth.now ∷ []) (view value.entry) }
    ensures found { IfSome result (λ p. (option_map view p.0 ≡ get first.now (view value.entry)) × (option_map view p.1 ≡ get second.now (view value.entry)) × (option_map view p.2 ≡ get third.now (view value.entry)) × (option_map view p.3 ≡ get fourth.now (view value.entry))) }
{
    let Some(mut members) = value.members() else {
        return None;
    };
    let mut at_first = None;
    let mut at_second = None;
    let mut at_third = None;
    let mut at_fourth = None;
    while let Some((member, rest)) = members.next() {
        let (key, node) = member;
        if !is_one_of(key, &[first, second, third, fourth]) {
            return None;
        }
        at_first = later(key, node, first, at_first);
        at_second = later(key, node, second, at_second);
        at_third = later(key, node, third, at_third);
        at_fourth = later(key, node, fourth, at_fourth);
        members = rest;
    }
    Some((at_first, at_second, at_third, at_fourth))
}

/// What an object with no keys but these five has under each of them.
pub fn five_fields<'t, 'a>(
    value: Node<'t, 'a>,
    first: &str,
    second: &str,
    third: &str,
    fourth: &str,
    fifth: &str,
) -> Option<
    (
        Option<Node<'t, 'a>>,
        Option<Node<'t, 'a>>,
        Option<Node<'t, 'a>>,
        Option<Node<'t, 'a>>,
        Option<Node<'t, 'a>>,
    ),
>
    ensures only { is_some result ≡ has_only (first.now ∷ second.now ∷ third.now ∷ fourth.now ∷ fifth.now ∷ []) (view value.entry) }
    ensures found { IfSome result (λ p. (option_map view p.0 ≡ get first.now (view value.entry)) × (option_map view p.1 ≡ get second.now (view value.entry)) × (option_map view p.2 ≡ get third.now (view value.entry)) × (option_map view p.3 ≡ get fourth.now (view value.entry)) × (option_map view p.4 ≡ get fifth.now (view value.entry))) }
{
    let Some(mut members) = value.members() else {
        return None;
    };
    let mut at_first = None;
    let mut at_second = None;
    let mut at_third = None;
    let mut at_fourth = None;
    let mut at_fifth = None;
    while let Some((member, rest)) = members.next() {
        let (key, node) = member;
        if !is_one_of(key, &[first, second, third, fourth, fifth]) {
            return None;
        }
        at_first = later(key, node, first, at_first);
        at_second = later(key, node, second, at_second);
        at_third = later(key, node, third, at_third);
        at_fourth = later(key, node, fourth, at_fourth);
        at_fifth = later(key, node, fifth, at_fifth);
        members = rest;
    }
    Some((at_first, at_second, at_third, at_fourth, at_fifth))
}
