// Places of a tape, from which values are looked up with no further reading of the text.
ghost use Rattle.std.specs.Prelude.{◌≡◌, ◌∷◌, drop, true, is_some};
ghost use Rattle.json.specs.Token.{begin_array, begin_object};
ghost use Rattle.wcv_listing.specs.Tape.{value_here};

use crate::tape::Tape;
use crate::tape_node::TapeNode;

/// A value.
#[derive(Clone, Copy, Drop)]
pub struct Node<'t, 'a> {
    pub(crate) tape: &'t Tape<'a>,
    pub(crate) at: usize,
    ghost stands: { is_some (value_here (drop at tape.now)) ≡ true },
}

/// The items of an array that are still to come.
#[derive(Clone, Copy, Drop)]
pub struct List<'t, 'a> {
    pub(crate) tape: &'t Tape<'a>,
    pub(crate) at: usize,
    ghost stand: { is_some (value_here (begin_array ∷ drop at tape.now)) ≡ true },
}

/// The members of an object that are still to come.
#[derive(Clone, Copy, Drop)]
pub struct Members<'t, 'a> {
    pub(crate) tape: &'t Tape<'a>,
    pub(crate) at: usize,
    ghost stand: { is_some (value_here (begin_object ∷ drop at tape.now)) ≡ true },
}

impl<'t, 'a> Node<'t, 'a> {
    ghost use Rattle.std.specs.Prelude.{◌+◌, ◌^◌, ◌<◌, None, MatchOption};
    ghost use Rattle.wcv_listing.specs.Grown.{node_token};
    ghost use Rattle.json.specs.Json.{array, object};
    ghost use Rattle.json.specs.Find.{as_array, as_object};
    ghost use Rattle.wcv_listing.specs.Tape.{items_of, members_of};
    ghost use Rattle.wcv_listing.specs.Seen.{json_view};

    /// The root of a tape.
    pub fn root(tape: &'t Tape<'a>) -> Node<'t, 'a>
        requires { is_some (value_here tape.now) ≡ true }
        ensures { (result.tape.now ≡ tape.now) × (result.at ≡ 0) }
    {
        Node { tape, at: 0 }
    }

    #[inline(always)]
    pub(crate) fn node(self) -> TapeNode<'a>
        ensures small { self.entry.at + 1 < 2 ^ 64 }
        ensures first { drop self.entry.at self.entry.tape.now ≡ node_token result ∷ drop (self.entry.at + 1) self.entry.tape.now }
    {
        self.tape.node_at(self.at)
    }

    /// The items of an array.
    #[inline(always)]
    pub fn items(self) -> Option<List<'t, 'a>>
        ensures { MatchOption result (as_array (json_view self.entry) ≡ None)
            (λ l. json_view self.entry ≡ array (items_of (drop l.at l.tape.now))) }
    {
        if let TapeNode::Array { .. } = self.node() {
            Some(List {
                tape: self.tape,
                at: self.at + 1,
            })
        } else {
            None
        }
    }

    /// The members of an object.
    #[inline(always)]
    pub fn members(self) -> Option<Members<'t, 'a>>
        ensures { MatchOption result (as_object (json_view self.entry) ≡ None)
            (λ m. json_view self.entry ≡ object (members_of (drop m.at m.tape.now))) }
    {
        if let TapeNode::Object(_) = self.node() {
            Some(Members {
                tape: self.tape,
                at: self.at + 1,
            })
        } else {
            None
        }
    }
}

impl<'t, 'a> List<'t, 'a> {
    ghost use Rattle.std.specs.Prelude.{◌<◌, length, MatchOption, IfSome};
    ghost use Rattle.json.specs.Json.{no_items, item};
    ghost use Rattle.wcv_listing.specs.Tape.{items_of};
    ghost use Rattle.wcv_listing.specs.Seen.{json_view};

    /// The next item, and those behind it.
    #[inline(always)]
    pub fn next(self) -> Option<(Node<'t, 'a>, List<'t, 'a>)>
        ensures value { MatchOption result (items_of (drop self.entry.at self.entry.tape.now) ≡ no_items)
            (λ p. items_of (drop self.entry.at self.entry.tape.now) ≡ item (json_view p.0) (items_of (drop p.1.at p.1.tape.now))) }
        ensures shorter { IfSome result (λ p. length (drop p.1.at p.1.tape.now) < length (drop self.entry.at self.entry.tape.now)) }
    {
        if let TapeNode::EndArray = self.tape.node_at(self.at) {
            return None;
        }
        let tape = self.tape;
        let at = self.at;
        Some((
            Node { tape, at },
            List {
                tape,
                at: tape.after(at),
            },
        ))
    }
}

impl<'t, 'a> Members<'t, 'a> {
    ghost use Rattle.std.specs.Prelude.{◌<◌, length, MatchOption, IfSome};
    ghost use Rattle.json.specs.Json.{no_members, member};
    ghost use Rattle.wcv_listing.specs.Tape.{members_of};
    ghost use Rattle.wcv_listing.specs.Seen.{json_view, members_view};

    /// The next member, and those behind it.
    #[inline(always)]
    pub fn next(self) -> Option<((&'a str, Node<'t, 'a>), Members<'t, 'a>)>
        ensures value { MatchOption result (members_view self.entry ≡ no_members)
            (λ p. members_view self.entry ≡ member p.0.0.now (json_view p.0.1) (members_view p.1)) }
        ensures shorter { IfSome result (λ p. length (drop p.1.at p.1.tape.now) < length (drop self.entry.at self.entry.tape.now)) }
    {
        let tape = self.tape;
        let TapeNode::Key(key) = tape.node_at(self.at) else {
            return None;
        };
        let at = self.at + 1;
        Some((
            (key, Node { tape, at }),
            Members {
                tape,
                at: tape.after(at),
            },
        ))
    }
}
