// From a reader's tokens to nodes.
ghost use Rattle.std.specs.Prelude.{◌≡◌, ◌<◌, ◌≤◌, ◌∷◌, option_map, length, Some, None, Err, OnOk};
ghost use Rattle.json.specs.Json.{items, members};
ghost use Rattle.json.specs.Token.{begin_array, begin_object};
ghost use Rattle.json.specs.Reads.{token_of};
ghost use Rattle.wcv_listing.specs.Grown.{Grown};
ghost use Rattle.wcv_listing.specs.Parsed.{value_in_range};

use crate::ranges::is_number_in_range;
use crate::tape_node::TapeNode;
use json::{Invalid, Reader, Token};
use std::alloc::{AllocError, AllocFailed};
use wcv_core::OutOfMemory;

/// Why a text was not parsed: it is no JSON, or it ran out of memory.
#[derive(Clone, Copy, Drop)]
pub enum ParseError {
    NotJson,
    OutOfMemory,
}

impl From<Invalid> for ParseError {
    ghost use Rattle.std.specs.Prelude.{◌≡◌};
    ghost use Rattle.wcv_listing.specs.declared.read.ParseError.TheVariants.{NotJson};

    ghost from_gives = { λ _ e. e ≡ NotJson };

    fn from(_: Invalid) -> ParseError {
        ParseError::NotJson
    }
}

impl From<AllocError> for ParseError {
    ghost use Rattle.std.specs.Prelude.{◌≡◌};
    ghost use Rattle.wcv_listing.specs.declared.read.ParseError.TheVariants.{OutOfMemory};

    ghost from_gives = { λ _ e. e ≡ OutOfMemory };

    fn from(_: AllocError) -> ParseError {
        ParseError::OutOfMemory
    }
}

impl From<OutOfMemory> for ParseError {
    ghost use Rattle.std.specs.Prelude.{◌≡◌};
    ghost use Rattle.wcv_listing.specs.declared.read.ParseError.TheVariants as error;

    ghost from_gives = { λ _ e. e ≡ error.OutOfMemory };

    fn from(_: OutOfMemory) -> ParseError {
        ParseError::OutOfMemory
    }
}

impl<T: Drop> From<AllocFailed<T>> for ParseError {
    ghost use Rattle.std.specs.Prelude.{◌≡◌};
    ghost use Rattle.wcv_listing.specs.declared.read.ParseError.TheVariants.{OutOfMemory};

    ghost from_gives = { λ _ e. e ≡ OutOfMemory };

    fn from(_: AllocFailed<T>) -> ParseError {
        ParseError::OutOfMemory
    }
}

/// The next value of the reader behind the nodes, with each number in range. Arrays and objects may
/// nest `depth` deep.
#[cycle(read)]
#[inline(always)]
fn read_value<'a>(
    nodes: &mut Vec<TapeNode<'a>>,
    reader: &mut Reader<'a>,
    depth: usize,
) -> Result<(), ParseError>
    ensures grown { OnOk result (Grown nodes.old.items reader.old nodes.new.items reader.new) }
    ensures ok { OnOk result (option_map (λ p. p.1) (value_in_range depth reader.old) ≡ Some reader.new) }
    ensures shorter { OnOk result (length reader.new < length reader.old) }
    ensures err { result ≡ Err ParseError.NotJson → value_in_range depth reader.old ≡ None }
{
    let token = reader.next().ok_or(ParseError::NotJson)?;
    read_behind(nodes, token, reader, depth)
}

/// So of a value whose first token was taken.
#[cycle(read)]
#[inline(always)]
pub fn read_behind<'a>(
    nodes: &mut Vec<TapeNode<'a>>,
    token: Token<'a>,
    reader: &mut Reader<'a>,
    depth: usize,
) -> Result<(), ParseError>
    ensures grown { OnOk result (Grown nodes.old.items (token_of token.entry ∷ reader.old) nodes.new.items reader.new) }
    ensures ok { OnOk result (option_map (λ p. p.1) (value_in_range depth (token_of token.entry ∷ reader.old)) ≡ Some reader.new) }
    ensures shorter { OnOk result (length reader.new ≤ length reader.old) }
    ensures err { result ≡ Err ParseError.NotJson → value_in_range depth (token_of token.entry ∷ reader.old) ≡ None }
{
    match token {
        Token::String(text) => nodes.push(TapeNode::String(text))?,
        Token::Number(text) => {
            if !is_number_in_range(text) {
                return Err(ParseError::NotJson);
            }
            nodes.push(TapeNode::Number(text))?
        }
        Token::Bool(b) => nodes.push(TapeNode::Bool(b))?,
        Token::Null => nodes.push(TapeNode::Null)?,
        Token::BeginArray => {
            if depth == 0 {
                return Err(ParseError::NotJson);
            }
            read_items(nodes, reader, depth - 1)?
        }
        Token::BeginObject => {
            if depth == 0 {
                return Err(ParseError::NotJson);
            }
            read_members(nodes, reader, depth - 1)?
        }
        Token::EndObject | Token::EndArray | Token::Key(_) | Token::Bad => {
            return Err(ParseError::NotJson);
        }
    }
    Ok(())
}

// An array behind its opening bracket.
#[cycle(read)]
#[inline(never)]
fn read_items<'a>(
    nodes: &mut Vec<TapeNode<'a>>,
    reader: &mut Reader<'a>,
    depth: usize,
) -> Result<(), ParseError>
    ensures grown { OnOk result (Grown nodes.old.items (begin_array ∷ reader.old) nodes.new.items reader.new) }
    ensures ok { OnOk result (option_map (λ p. p.1) (items (value_in_range depth) (length reader.old) reader.old) ≡ Some reader.new) }
    ensures shorter { OnOk result (length reader.new < length reader.old) }
    ensures err { result ≡ Err ParseError.NotJson → items (value_in_range depth) (length reader.old) reader.old ≡ None }
{
    let at = nodes.len();
    nodes.push(TapeNode::Array { end: 0, count: 0 })?;
    let mut count = 0usize;
    while !reader.take_end_array() {
        read_value(nodes, reader, depth)?;
        count += 1;
    }
    nodes.push(TapeNode::EndArray)?;
    nodes[at] = TapeNode::Array {
        end: nodes.len(),
        count,
    };
    Ok(())
}

// An object behind its opening brace.
#[cycle(read)]
#[inline(never)]
fn read_members<'a>(
    nodes: &mut Vec<TapeNode<'a>>,
    reader: &mut Reader<'a>,
    depth: usize,
) -> Result<(), ParseError>
    ensures grown { OnOk result (Grown nodes.old.items (begin_object ∷ reader.old) nodes.new.items reader.new) }
    ensures ok { OnOk result (option_map (λ p. p.1) (members (value_in_range depth) (length reader.old) reader.old) ≡ Some reader.new) }
    ensures shorter { OnOk result (length reader.new < length reader.old) }
    ensures err { result ≡ Err ParseError.NotJson → members (value_in_range depth) (length reader.old) reader.old ≡ None }
{
    let at = nodes.len();
    nodes.push(TapeNode::Object(0))?;
    while let Some(key) = reader.next_key()? {
        nodes.push(TapeNode::Key(key))?;
        read_value(nodes, reader, depth)?;
    }
    nodes.push(TapeNode::EndObject)?;
    nodes[at] = TapeNode::Object(nodes.len());
    Ok(())
}
