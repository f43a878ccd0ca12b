// What a fault asks for, and what was expected there.
ghost use Rattle.std.specs.Prelude.{◌≡◌};
ghost use Rattle.wcv_bytes.specs.Faults.{class_of};

use crate::fault::Why;

/// What a fault asks for: a file that is whole, a reader that knows more, or fewer bytes.
#[derive(Clone, Copy)]
pub enum Class {
    /// The bytes are no component.
    Malformed,
    /// A part that no listing says, or that is not read.
    Unsupported,
    /// More bytes are to be kept than the limit.
    TooMuch,
}

impl Why {
    /// What the fault asks for.
    pub fn class(self) -> Class
        ensures { result ≡ class_of self }
    {
        match self {
            Why::UnsupportedName
            | Why::TooDeep
            | Why::UnsupportedExact
            | Why::UnsupportedContinuation
            | Why::UnsupportedDescriptor
            | Why::UnsupportedImports
            | Why::UnsupportedAsyncDrop
            | Why::UnsupportedInstruction => Class::Unsupported,
            Why::TooMuch => Class::TooMuch,
            _ => Class::Malformed,
        }
    }

    /// What was expected where the fault stands, as words behind "expected".
    pub fn expected(self) -> &'static str {
        match self {
            Why::Short => "more bytes",
            Why::TooLong => "the end of a number",
            Why::TooLarge => "a number that fits its type",
            Why::Negative => "an index",
            Why::NotUtf8 => "a text in UTF-8",
            Why::NotFlag => "a byte 0 or 1",
            Why::NotZero => "a byte 0",
            Why::NotSort => "the sort of an item",
            Why::NotCoreSort => "the sort of a core item",
            Why::NotMagic => "the first four bytes of a binary",
            Why::NotVersion => "the version and the layer of a component or a core module",
            Why::IsModule => "a component, and not a core module",
            Why::UnknownSection => "a section that is known",
            Why::TooDeep => "fewer components or types in one another",
            Why::NotName => "the name of an import or an export",
            Why::NotAlias => "what an alias is of",
            Why::NotOuter => "a sort that can be aliased from further out",
            Why::NotType => "a type",
            Why::NotDeclaration => "a declaration",
            Why::Surplus => "the end of the section",
            Why::NotOption => "an option of a canonical function",
            Why::NotCanon => "a canonical function",
            Why::NotCoreType => "a core type",
            Why::ManySupertypes => "at most one supertype",
            Why::NotOpenType => "a core type that is open",
            Why::NotCoreInstance => "the sort of core instances",
            Why::NotCoreValue => "a core value type",
            Why::NotHeap => "a heap type",
            Why::UnknownMark => "no marks but those that are known",
            Why::UnsupportedName => "a name with nothing beside it",
            Why::UnsupportedExact => "a reference or a function that is not exact",
            Why::UnsupportedContinuation => "no type of continuations",
            Why::UnsupportedAsyncDrop => "no function that drops a resource asynchronously",
            Why::UnsupportedInstruction => "an instruction of a constant expression that is known",
            Why::UnsupportedDescriptor => "a core type without a descriptor",
            Why::SectionOrder => "a section of a core module in its place",
            Why::UnknownIndex => "the index of an item of the core module",
            Why::CodeCount => "as many bodies as functions",
            Why::TooMuch => "no more than 8388608 bytes to keep",
            Why::UnsupportedImports => "imports of a core module one by one",
        }
    }
}
