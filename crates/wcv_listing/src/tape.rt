// The nodes of a value in the order of the text, one for each token.
ghost use Rattle.std.specs.Prelude.{◌≡◌, None, ◌+◌, ◌^◌, ◌<◌, ◌≤◌, [], ◌∷◌, drop, length, Some, true, is_some, Err, OnOk};
ghost use Rattle.json.specs.Reads.{token_of};
ghost use Rattle.wcv_listing.specs.Grown.{node_token};
ghost use Rattle.wcv_listing.specs.Parsed.{value_in_range};
ghost use Rattle.wcv_listing.specs.Tape.{value_here, json_of, array_count};

use crate::read::{ParseError, read_behind};
use crate::tape_node::TapeNode;
use json::{Reader, Token};
use std::alloc::Global;
use std::marker::Model;

/// The nodes of a value. A clause sees its tokens.
#[derive(Drop)]
pub struct Tape<'a> {
    nodes: Vec<TapeNode<'a>>,
}

impl<'a> Model for Tape<'a> {
    ghost use Rattle.std.specs.Prelude.{List, map};
    ghost use Rattle.json.specs.Token.{Token as SpecToken, tokens_code};

    ghost Value = { List SpecToken };

    ghost coded = { tokens_code };

    ghost use Rattle.wcv_listing.specs.Grown.{node_token};
    ghost use Rattle.wcv_listing.specs.Tape.{Linked};

    ghost view = { λ a. map node_token a.nodes.items };

    ghost invariant = { λ a. Linked (map node_token a.nodes.items) a.nodes.items };
}

impl<'a> Tape<'a> {
    pub fn new(alloc: Global) -> Tape<'a>
        ensures { result ≡ [] }
    {
        Tape {
            nodes: Vec::new(alloc),
        }
    }

    /// The next value of the reader, in the place of what stood here. The room is kept.
    pub fn read(&mut self, reader: &mut Reader<'a>, depth: usize) -> Result<(), ParseError>
        requires { depth ≤ 127 }
        ensures ok { OnOk result (value_in_range depth reader.old ≡ Some (json_of self.new, reader.new)) }
        ensures stands { OnOk result (is_some (value_here self.new) ≡ true) }
        ensures shorter { OnOk result (length reader.new < length reader.old) }
        ensures err { result ≡ Err ParseError.NotJson → value_in_range depth reader.old ≡ None }
    {
        let token = reader.next().ok_or(ParseError::NotJson)?;
        self.read_behind(token, reader, depth)
    }

    /// So of a value whose first token was taken.
    pub fn read_behind(
        &mut self,
        token: Token<'a>,
        reader: &mut Reader<'a>,
        depth: usize,
    ) -> Result<(), ParseError>
        requires { depth ≤ 127 }
        ensures ok { OnOk result (value_in_range depth (token_of token.entry ∷ reader.old) ≡ Some (json_of self.new, reader.new)) }
        ensures stands { OnOk result (is_some (value_here self.new) ≡ true) }
        ensures shorter { OnOk result (length reader.new ≤ length reader.old) }
        ensures err { result ≡ Err ParseError.NotJson → value_in_range depth (token_of token.entry ∷ reader.old) ≡ None }
    {
        self.nodes.clear();
        match read_behind(&mut self.nodes, token, reader, depth) {
            Ok(()) => Ok(()),
            Err(e) => {
                self.nodes.clear();
                Err(e)
            }
        }
    }

    /// The node at that place.
    #[inline(always)]
    pub(crate) fn node_at(&self, at: usize) -> TapeNode<'a>
        requires { at < length self.now }
        ensures small { at + 1 < 2 ^ 64 }
        ensures first { drop at self.now ≡ node_token result ∷ drop (at + 1) self.now }
    {
        self.nodes[at]
    }

    /// The place after the value that begins at that place.
    #[inline(always)]
    pub(crate) fn after(&self, at: usize) -> usize
        requires { is_some (value_here (drop at self.now)) ≡ true }
        ensures { value_here (drop at self.now) ≡ Some (json_of (drop at self.now), drop result self.now) }
    {
        match self.nodes[at] {
            TapeNode::Object(end) => end,
            TapeNode::Array { end, .. } => end,
            _ => at + 1,
        }
    }

    /// How many items the array has that begins at that place, or 0 where none does.
    #[inline(always)]
    pub(crate) fn count_at(&self, at: usize) -> usize
        requires { is_some (value_here (drop at self.now)) ≡ true }
        ensures { result ≡ array_count (json_of (drop at self.now)) }
    {
        match self.nodes[at] {
            TapeNode::Array { count, .. } => count,
            _ => 0,
        }
    }
}
