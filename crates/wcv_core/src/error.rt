// Refusals: their kind, their place and their message.
ghost use Rattle.std.specs.Prelude.{◌≡◌, Some};
ghost use Rattle.wcv_core.specs.Kinds.{kind_name};
ghost use Rattle.wcv_core.specs.Refusal.{error_message};

use crate::excerpt::Excerpt;
use crate::memory::OutOfMemory;
use crate::slip::Slip;
use arrayvec::ArrayString;
use std::alloc::{AllocError, AllocFailed};
use std::fmt;
use std::fmt::Write;

/// Why a listing is refused, or that it ran out of memory.
#[derive(Clone, Copy, PartialEq, Eq)]
pub enum ErrorKind {
    OutOfBounds,
    WrongSort,
    UnknownExport,
    Feature,
    Limit,
    CoreType,
    Name,
    Conflict,
    MethodName,
    Options,
    Signature,
    Shape,
    Borrow,
    Mismatch,
    Unnamed,
    ResourceScope,
    AliasKind,
    Value,
    StartTwice,
    Context,
    OutOfMemory,
}

impl ErrorKind {
    /// The name of the kind.
    fn name(&self) -> &'static str
        ensures { result.now ≡ kind_name self.now }
    {
        match self {
            ErrorKind::OutOfBounds => "OutOfBounds",
            ErrorKind::WrongSort => "WrongSort",
            ErrorKind::UnknownExport => "UnknownExport",
            ErrorKind::Feature => "Feature",
            ErrorKind::Limit => "Limit",
            ErrorKind::CoreType => "CoreType",
            ErrorKind::Name => "Name",
            ErrorKind::Conflict => "Conflict",
            ErrorKind::MethodName => "MethodName",
            ErrorKind::Options => "Options",
            ErrorKind::Signature => "Signature",
            ErrorKind::Shape => "Shape",
            ErrorKind::Borrow => "Borrow",
            ErrorKind::Mismatch => "Mismatch",
            ErrorKind::Unnamed => "Unnamed",
            ErrorKind::ResourceScope => "ResourceScope",
            ErrorKind::AliasKind => "AliasKind",
            ErrorKind::Value => "Value",
            ErrorKind::StartTwice => "StartTwice",
            ErrorKind::Context => "Context",
            ErrorKind::OutOfMemory => "OutOfMemory",
        }
    }
}

impl fmt::Display for ErrorKind {
    ghost output = { λ kind. Some (kind_name kind) };

    fn fmt<W: fmt::Write>(&self, f: &mut fmt::Formatter<W>) -> fmt::Result {
        f.write_str(self.name())
    }
}

impl fmt::Debug for ErrorKind {
    fn fmt<W: fmt::Write>(&self, f: &mut fmt::Formatter<W>) -> fmt::Result {
        f.write_str(self.name())
    }
}

/// How many bytes of a message are kept.
const MESSAGE: usize = 288;

/// What a message is made from: its words, and what stands in them. `%w` is the word, `%n` the name as
/// `Excerpt` shows it, `%s` what is wrong with the name where it is no label, and `%1`, `%2` and `%3` are the
/// numbers. Where a feature is needed, this is said behind them.
#[derive(Clone, Copy)]
pub struct Why<'a> {
    words: &'static str,
    word: &'static str,
    name: &'a str,
    numbers: [u64; 3],
    needs: bool,
}

impl<'a> Why<'a> {
    /// A message of words in which nothing stands.
    pub fn new(words: &'static str) -> Why<'a> {
        Why {
            words,
            word: "",
            name: "",
            numbers: [0; 3],
            needs: false,
        }
    }

    /// The message with this word in it.
    pub fn word(self, word: &'static str) -> Why<'a> {
        Why { word, ..self }
    }

    /// The message with this name in it.
    pub fn name(self, name: &'a str) -> Why<'a> {
        Why { name, ..self }
    }

    /// The message that says behind its words that the feature is needed.
    pub fn needs(self, feature: &'static str) -> Why<'a> {
        Why {
            needs: true,
            word: feature,
            ..self
        }
    }

    /// The message with these numbers in it.
    pub fn numbers(self, numbers: [u64; 3]) -> Why<'a> {
        Why { numbers, ..self }
    }

    /// Shows what the sign stands for, where it is one of the signs.
    fn fmt_sign<W: fmt::Write>(&self, sign: char, f: &mut fmt::Formatter<W>) -> fmt::Result {
        let name = self.name;
        let [first, second, third] = self.numbers;
        match sign {
            'w' => f.write_str(self.word),
            'n' => write!(f, "{}", Excerpt(name)),
            's' => write!(f, "{}", Slip(name)),
            '1' => write!(f, "{first}"),
            '2' => write!(f, "{second}"),
            '3' => write!(f, "{third}"),
            _ => Ok(()),
        }
    }
}

impl fmt::Display for Why<'_> {
    fn fmt<W: fmt::Write>(&self, f: &mut fmt::Formatter<W>) -> fmt::Result {
        let mut is_sign = false;
        for c in self.words.chars() {
            if is_sign {
                self.fmt_sign(c, f)?;
                is_sign = false;
            } else if c == '%' {
                is_sign = true;
            } else {
                f.write_char(c)?;
            }
        }
        if self.needs {
            let feature = self.word;
            write!(
                f,
                " needs the feature `{feature}`, which the listing does not name"
            )?;
        }
        Ok(())
    }
}

/// A refusal of an item or of the end of a component: its kind, its offset and a message for people.
/// It takes no memory. The words of the message are not promised; a name in it is cut by `Excerpt`.
///
/// An `Error` owns the text of its message. A `Refusal` has what the text is made from, and is a few words wide:
/// checks inside a crate answer with it, and it becomes an `Error` where a public call answers.
#[derive(Drop)]
pub struct Error<M = ArrayString<MESSAGE>> {
    kind: ErrorKind,
    offset: u64,
    message: M,
}

/// A refusal whose message is not made yet.
pub type Refusal<'a> = Error<Why<'a>>;

impl<M> Error<M> {
    ghost use Rattle.wcv_core.specs.Refusal.{error_kind, error_offset};

    /// A refusal of this kind at this offset.
    pub fn new(kind: ErrorKind, offset: u64, message: M) -> Error<M>
        ensures kind { error_kind result ≡ kind }
        ensures offset { error_offset result ≡ offset }
    {
        Error {
            kind,
            offset,
            message,
        }
    }

    /// The kind of the refusal.
    pub fn kind(&self) -> ErrorKind
        ensures { result ≡ error_kind self.now }
    {
        self.kind
    }

    /// The offset of the item, or of the end of the component, that is refused.
    pub fn offset(&self) -> u64
        ensures { result ≡ error_offset self.now }
    {
        self.offset
    }
}

impl Error {
    ghost use Rattle.wcv_core.specs.Refusal.{error_kind, error_offset};

    /// A refusal of this kind at this offset, with its message made. A message that is too long is cut.
    pub fn told<D: fmt::Display>(kind: ErrorKind, offset: u64, message: D) -> Error
    where
        D: Drop,
        ensures kind { error_kind result ≡ kind }
        ensures offset { error_offset result ≡ offset }
    {
        let mut text = ArrayString::new();
        let _ = write!(text, "{message}");
        Error {
            kind,
            offset,
            message: text,
        }
    }
}

impl fmt::Display for Error {
    ghost output = { λ e. Some (error_message e) };

    fn fmt<W: fmt::Write>(&self, f: &mut fmt::Formatter<W>) -> fmt::Result {
        f.write_str(self.message.as_str())
    }
}

impl From<Refusal<'_>> for Error {
    ghost use Rattle.std.specs.Prelude.{◌≡◌};
    ghost use Rattle.wcv_core.specs.Refusal.{error_kind, error_offset};

    ghost from_gives = { λ r e. (error_kind e ≡ error_kind r) × (error_offset e ≡ error_offset r) };

    fn from(refusal: Refusal<'_>) -> Error {
        Error::told(refusal.kind, refusal.offset, refusal.message)
    }
}

impl From<OutOfMemory> for Error {
    ghost use Rattle.std.specs.Prelude.{◌≡◌};
    ghost use Rattle.wcv_core.specs.declared.error.ErrorKind.TheVariants as kind;
    ghost use Rattle.wcv_core.specs.Refusal.{error_kind};

    ghost from_gives = { λ _ e. error_kind e ≡ kind.OutOfMemory };

    fn from(_: OutOfMemory) -> Error {
        Error::told(ErrorKind::OutOfMemory, 0, "out of memory")
    }
}

impl<'a> From<OutOfMemory> for Refusal<'a> {
    ghost use Rattle.std.specs.Prelude.{◌≡◌};
    ghost use Rattle.wcv_core.specs.declared.error.ErrorKind.TheVariants as kind;
    ghost use Rattle.wcv_core.specs.Refusal.{error_kind};

    ghost from_gives = { λ _ e. error_kind e ≡ kind.OutOfMemory };

    fn from(_: OutOfMemory) -> Refusal<'a> {
        Error::new(ErrorKind::OutOfMemory, 0, Why::new("out of memory"))
    }
}

impl From<AllocError> for Error {
    ghost use Rattle.std.specs.Prelude.{◌≡◌};
    ghost use Rattle.wcv_core.specs.declared.error.ErrorKind.TheVariants as kind;
    ghost use Rattle.wcv_core.specs.Refusal.{error_kind};

    ghost from_gives = { λ _ e. error_kind e ≡ kind.OutOfMemory };

    fn from(_: AllocError) -> Error {
        Error::from(OutOfMemory)
    }
}

impl<T: Drop> From<AllocFailed<T>> for Error {
    ghost use Rattle.std.specs.Prelude.{◌≡◌};
    ghost use Rattle.wcv_core.specs.declared.error.ErrorKind.TheVariants as kind;
    ghost use Rattle.wcv_core.specs.Refusal.{error_kind};

    ghost from_gives = { λ _ e. error_kind e ≡ kind.OutOfMemory };

    fn from(_: AllocFailed<T>) -> Error {
        Error::from(OutOfMemory)
    }
}

impl<'a> From<AllocError> for Refusal<'a> {
    ghost use Rattle.std.specs.Prelude.{◌≡◌};
    ghost use Rattle.wcv_core.specs.declared.error.ErrorKind.TheVariants as kind;
    ghost use Rattle.wcv_core.specs.Refusal.{error_kind};

    ghost from_gives = { λ _ e. error_kind e ≡ kind.OutOfMemory };

    fn from(_: AllocError) -> Refusal<'a> {
        Refusal::from(OutOfMemory)
    }
}

impl<'a, T: Drop> From<AllocFailed<T>> for Refusal<'a> {
    ghost use Rattle.std.specs.Prelude.{◌≡◌};
    ghost use Rattle.wcv_core.specs.declared.error.ErrorKind.TheVariants as kind;
    ghost use Rattle.wcv_core.specs.Refusal.{error_kind};

    ghost from_gives = { λ _ e. error_kind e ≡ kind.OutOfMemory };

    fn from(_: AllocFailed<T>) -> Refusal<'a> {
        Refusal::from(OutOfMemory)
    }
}
