// The root object of a listing. Its items are made one after another, on one tape.
ghost use Rattle.std.specs.Prelude.{◌≡◌, ◌≢◌, ◌<◌, [], length, true, false, is_some, None, Some, Err, OnOk, codes};
ghost use Rattle.json.specs.Json as json;
ghost use Rattle.std.specs.Str.{bytes_eq};
ghost use Rattle.serde_json.specs.Data.{Data, Members, no_members, put};
ghost use Rattle.serde_json.specs.Read.{read};
ghost use Rattle.wcv_listing.specs.Answers.{AnswersListing};
ghost use Rattle.wcv_listing.specs.Listing.{root_of};
ghost use Rattle.wcv_listing.specs.Parsed.{data_of, value_in_range};
ghost use Rattle.wcv_listing.specs.Root.{HasItem, IsSeen, ReadsItems, ReadsMember, ReadsMembers, ReadsRoot, SeenOf};
ghost use Rattle.wcv_listing.specs.Seen.{view};
ghost use Rattle.wcv_listing.specs.Tape.{value_here, json_of};

use crate::features::read_features;
use crate::item::read_item;
use crate::listing::{Listing, ListingError};
use crate::node::Node;
use crate::read::ParseError;
use crate::tape::Tape;
use crate::value::natural_of;
use json::{Reader, Scratch, Token};
use std::alloc::Global;
use wcv_core::WasmFeatures;
use wcv_syntax::Item;

/// How deep arrays and objects may nest, the root among them.
const MAX_NESTING: usize = 127;

/// What the members of a root object have said so far. Of a key that stands twice the last value counts.
#[derive(Drop)]
pub struct RootSeen {
    version: Option<u64>,
    end: Option<u64>,
    features: Option<WasmFeatures>,
    /// Whether the items are a list.
    is_list: bool,
    /// The items before the first that has no form.
    items: Vec<Item>,
    /// The position of the first item that has no form.
    bad: Option<u64>,
    /// Whether some key is none of these four.
    other: bool,
}

impl RootSeen {
    /// What no member says.
    pub fn new(alloc: Global) -> RootSeen
        ensures { IsSeen result no_members }
    {
        RootSeen {
            version: None,
            end: None,
            features: Some(WasmFeatures::default()),
            is_list: false,
            items: Vec::new(alloc),
            bad: None,
            other: false,
        }
    }

    /// The listing that a root stands for which says this.
    pub fn into_listing(self) -> Result<Listing, ListingError>
        ensures { (d : Data) → SeenOf self d → AnswersListing result (root_of d) }
    {
        if self.other || !self.is_list {
            return Err(ListingError::BadShape { at: 0 });
        }
        match (self.version, self.end, self.features, self.bad) {
            (Some(1), Some(end), Some(features), None) => Ok(Listing {
                features,
                items: self.items,
                end,
            }),
            (Some(1), Some(_), Some(_), Some(at)) => Err(ListingError::BadShape { at }),
            _ => Err(ListingError::BadShape { at: 0 }),
        }
    }
}

// One item more, which stands on the tape.
fn make_item(alloc: Global, tape: &Tape<'_>, seen: &mut RootSeen) -> Result<(), ParseError>
    requires { is_some (value_here tape.now) ≡ true }
    ensures ok { OnOk result (HasItem seen.old seen.new (data_of (json_of tape.now))) }
    ensures err { result ≢ Err ParseError.NotJson }
{
    if seen.bad.is_none() {
        let position = seen.items.len() as u64;
        match read_item(alloc, Node::root(tape))? {
            Some(item) => seen.items.push(item)?,
            None => seen.bad = Some(position),
        }
    }
    Ok(())
}

// The items of the root behind their opening bracket.
fn read_items<'a>(
    alloc: Global,
    tape: &mut Tape<'a>,
    reader: &mut Reader<'a>,
    seen: &mut RootSeen,
) -> Result<(), ParseError>
    ensures ok { OnOk result (ReadsItems reader.old reader.new seen.old seen.new) }
    ensures shorter { OnOk result (length reader.new < length reader.old) }
    ensures err { result ≡ Err ParseError.NotJson → json.items (value_in_range 125) (length reader.old) reader.old ≡ None }
{
    seen.items.clear();
    seen.bad = None;
    seen.is_list = true;
    while !reader.take_end_array() {
        tape.read(reader, MAX_NESTING - 2)?;
        make_item(alloc, tape, seen)?;
    }
    Ok(())
}

// What stands under the key `items`.
fn read_list_of_items<'a>(
    alloc: Global,
    tape: &mut Tape<'a>,
    reader: &mut Reader<'a>,
    seen: &mut RootSeen,
) -> Result<(), ParseError>
    ensures ok { OnOk result (ReadsMember (codes "items") reader.old reader.new seen.old seen.new) }
    ensures shorter { OnOk result (length reader.new < length reader.old) }
    ensures err { result ≡ Err ParseError.NotJson → value_in_range 126 reader.old ≡ None }
{
    let Some(token) = reader.next() else {
        return Err(ParseError::NotJson);
    };
    match token {
        Token::BeginArray => read_items(alloc, tape, reader, seen),
        other => {
            seen.is_list = false;
            tape.read_behind(other, reader, MAX_NESTING - 1)
        }
    }
}

// What a value says that stands under this key, which is not `items`.
fn see_value(key: &str, value: Node<'_, '_>, seen: &mut RootSeen)
    requires { bytes_eq key.now (codes "items") ≡ false }
    ensures { (ms : Members) → IsSeen seen.old ms → IsSeen seen.new (put key.now (view value.entry) ms) }
{
    match key {
        "version" => seen.version = natural_of(value),
        "end" => seen.end = natural_of(value),
        "features" => seen.features = read_features(value),
        _ => seen.other = true,
    }
}

// What stands under a key of the root.
fn read_member<'a>(
    alloc: Global,
    key: &str,
    tape: &mut Tape<'a>,
    reader: &mut Reader<'a>,
    seen: &mut RootSeen,
) -> Result<(), ParseError>
    ensures ok { OnOk result (ReadsMember key.now reader.old reader.new seen.old seen.new) }
    ensures shorter { OnOk result (length reader.new < length reader.old) }
    ensures err { result ≡ Err ParseError.NotJson → value_in_range 126 reader.old ≡ None }
{
    if key == "items" {
        return read_list_of_items(alloc, tape, reader, seen);
    }
    tape.read(reader, MAX_NESTING - 1)?;
    see_value(key, Node::root(tape), seen);
    Ok(())
}

// The members of the root behind their opening brace.
fn read_members<'a>(
    alloc: Global,
    tape: &mut Tape<'a>,
    reader: &mut Reader<'a>,
    seen: &mut RootSeen,
) -> Result<(), ParseError>
    requires { IsSeen seen.old no_members }
    ensures ok { OnOk result (ReadsMembers reader.old reader.new seen.new) }
    ensures err { result ≡ Err ParseError.NotJson → json.members (value_in_range 126) (length reader.old) reader.old ≡ None }
{
    while let Some(key) = reader.next_key()? {
        read_member(alloc, key, tape, reader, seen)?;
    }
    Ok(())
}

// The root.
fn read_root<'a>(
    alloc: Global,
    tape: &mut Tape<'a>,
    reader: &mut Reader<'a>,
    seen: &mut RootSeen,
) -> Result<(), ParseError>
    requires { IsSeen seen.old no_members }
    ensures ok { OnOk result (ReadsRoot reader.old reader.new seen.new) }
    ensures err { result ≡ Err ParseError.NotJson → value_in_range 127 reader.old ≡ None }
{
    let Some(token) = reader.next() else {
        return Err(ParseError::NotJson);
    };
    match token {
        Token::BeginObject => read_members(alloc, tape, reader, seen),
        other => {
            seen.other = true;
            tape.read_behind(other, reader, MAX_NESTING)
        }
    }
}

// The root, behind which nothing stands.
fn read_whole<'a>(
    alloc: Global,
    tape: &mut Tape<'a>,
    reader: &mut Reader<'a>,
    seen: &mut RootSeen,
) -> Result<(), ParseError>
    requires { IsSeen seen.old no_members }
    ensures ok { OnOk result (ReadsRoot reader.old [] seen.new) }
    ensures err { result ≡ Err ParseError.NotJson → (j : json.Json) → value_in_range 127 reader.old ≢ Some (j, []) }
{
    read_root(alloc, tape, reader, seen)?;
    match reader.next() {
        None => Ok(()),
        Some(_) => Err(ParseError::NotJson),
    }
}

/// Reads the text, and what its root says.
pub fn read_text(alloc: Global, text: &str, seen: &mut RootSeen) -> Result<(), ParseError>
    requires { IsSeen seen.old no_members }
    ensures ok { OnOk result ((d : Data) × (read text.now ≡ Some d) × SeenOf seen.new d) }
    ensures err { result ≡ Err ParseError.NotJson → read text.now ≡ None }
{
    let mut scratch = Scratch::new(alloc);
    let mut reader = Reader::new(text, &mut scratch)?;
    let mut tape = Tape::new(alloc);
    read_whole(alloc, &mut tape, &mut reader, seen)
}
