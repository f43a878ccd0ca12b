// Why bytes stand for nothing.
ghost use Rattle.std.specs.Prelude.{◌≡◌, length};
ghost use Rattle.wcv_bytes.specs.declared.fault.ReadError.TheVariants.{Memory};
ghost use Rattle.wcv_bytes.specs.declared.fault.ReadError.TheVariants as errors;

use std::alloc::{AllocError, AllocFailed};
use wcv_core::OutOfMemory;

/// What stands where reading does not go on.
#[derive(Clone, Copy)]
pub enum Why {
    /// The bytes end here, and more are asked for.
    Short,
    /// A number that goes on behind its last possible byte.
    TooLong,
    /// A number that is larger than its type allows.
    TooLarge,
    /// A negative number where an index is asked for.
    Negative,
    /// A text that is no UTF-8.
    NotUtf8,
    /// A byte that is neither 0 nor 1.
    NotFlag,
    /// A byte that has to be 0 and is not.
    NotZero,
    /// What is no sort of an item.
    NotSort,
    /// A byte that is no sort of a core item.
    NotCoreSort,
    /// Four bytes that do not begin a binary of WebAssembly.
    NotMagic,
    /// A version or a layer that is none of components, or none of core modules where one of these has to stand.
    NotVersion,
    /// The version of a core module where a component has to stand.
    IsModule,
    /// The contents of a section whose byte stands for nothing.
    UnknownSection,
    /// Components or types in one another, more than are read.
    TooDeep,
    /// A byte that begins no name of an import or an export.
    NotName,
    /// What no alias is of.
    NotAlias,
    /// A sort that no alias takes from further out.
    NotOuter,
    /// A byte that begins no type.
    NotType,
    /// A byte that begins no declaration of the type around it.
    NotDeclaration,
    /// Bytes behind the last entry of a section.
    Surplus,
    /// A byte that begins no canonical option.
    NotOption,
    /// A byte that begins no canonical function.
    NotCanon,
    /// A byte that begins no core type.
    NotCoreType,
    /// A list of more than one supertype.
    ManySupertypes,
    /// A byte behind 0 that begins no core type which is open.
    NotOpenType,
    /// A byte that is not the sort of core instances.
    NotCoreInstance,
    /// A byte that begins no core value type, or no reference type where only one may stand.
    NotCoreValue,
    /// A byte that names no heap type where no index may stand.
    NotHeap,
    /// A byte of marks with a bit that stands for nothing.
    UnknownMark,
    /// A name of the kind 2, with more beside it, which is not read.
    UnsupportedName,
    /// An exact reference or an exact function, which no listing says.
    UnsupportedExact,
    /// A type or a heap type of continuations, which no listing says.
    UnsupportedContinuation,
    /// A canonical function that drops a resource asynchronously, which no listing says.
    UnsupportedAsyncDrop,
    /// An instruction in a constant expression that is not known.
    UnsupportedInstruction,
    /// The descriptor of a core type, or what the type describes, which no listing says.
    UnsupportedDescriptor,
    /// The contents of a section of a core module that stands twice, or behind one that has to follow it.
    SectionOrder,
    /// An index under which a core module has no item of that sort.
    UnknownIndex,
    /// A number of bodies of functions that is not the number of functions, or the end of a module without any.
    CodeCount,
    /// The contents of a section with which too many bytes are to be kept.
    TooMuch,
    /// Imports of one core module that are written together, which are not read.
    UnsupportedImports,
}

/// The first fault from left to right, and how many bytes are left from it on.
#[derive(Clone, Copy)]
pub struct Fault {
    pub why: Why,
    pub left: usize,
}

/// Why nothing was read: the bytes stand for nothing, or it ran out of memory.
#[derive(Drop)]
pub enum ReadError {
    Memory,
    Fault(Fault),
}

/// The fault that stands at the front of these bytes.
#[inline(always)]
pub fn fault_at(why: Why, bytes: &[u8]) -> ReadError
    ensures { result ≡ errors.Fault (record { why = why; left = length bytes.now }) }
{
    ReadError::Fault(Fault {
        why,
        left: bytes.len(),
    })
}

impl From<AllocError> for ReadError {
    ghost from_gives = { λ _ e. e ≡ Memory };

    fn from(_e: AllocError) -> ReadError {
        ReadError::Memory
    }
}

impl<T: Drop> From<AllocFailed<T>> for ReadError {
    ghost from_gives = { λ _ e. e ≡ Memory };

    fn from(_e: AllocFailed<T>) -> ReadError {
        ReadError::Memory
    }
}

impl From<OutOfMemory> for ReadError {
    ghost from_gives = { λ _ e. e ≡ Memory };

    fn from(_e: OutOfMemory) -> ReadError {
        ReadError::Memory
    }
}

/// A fault at its offset.
#[derive(Clone, Copy)]
pub struct BinaryFault {
    pub at: u64,
    pub why: Why,
}

/// Why no binary was read, or no section of one: the bytes stand for nothing, or it ran out of memory.
#[derive(Drop)]
pub enum BinaryError {
    OutOfMemory,
    Fault(BinaryFault),
}

impl From<AllocError> for BinaryError {
    ghost use Rattle.std.specs.Prelude.{◌≡◌};
    ghost use Rattle.wcv_bytes.specs.declared.fault.BinaryError.TheVariants.{OutOfMemory};

    ghost from_gives = { λ _ e. e ≡ OutOfMemory };

    fn from(_e: AllocError) -> BinaryError {
        BinaryError::OutOfMemory
    }
}

impl<T: Drop> From<AllocFailed<T>> for BinaryError {
    ghost use Rattle.std.specs.Prelude.{◌≡◌};
    ghost use Rattle.wcv_bytes.specs.declared.fault.BinaryError.TheVariants.{OutOfMemory};

    ghost from_gives = { λ _ e. e ≡ OutOfMemory };

    fn from(_e: AllocFailed<T>) -> BinaryError {
        BinaryError::OutOfMemory
    }
}
