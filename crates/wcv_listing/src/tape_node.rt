// One node of a tape.

/// A token of a value. An object and an array hold the place behind their closing bracket, and an
/// array how many items it has.
#[derive(Clone, Copy, Drop)]
pub enum TapeNode<'a> {
    Object(usize),
    EndObject,
    Array { end: usize, count: usize },
    EndArray,
    Key(&'a str),
    String(&'a str),
    Number(&'a str),
    Bool(bool),
    Null,
}

// A tape takes its nodes' size for each token, so a node is no larger than its largest part, a text.
const _: () = prove!(size_of::<TapeNode<'static>>() == 24);
