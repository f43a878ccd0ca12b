// How a function is lifted or lowered.
ghost use Rattle.std.specs.Prelude.{◌≡◌, ◌⊎◌, true, false, not, Some, OnOk, IfErr};
ghost use Rattle.wcv_core.specs.Checks.{IsFree, CausedBy};
ghost use Rattle.wcv_core.specs.Refusal.{error_kind, error_offset};
ghost use Rattle.wcv_flat.specs.Flat.{as_core, pointer_type};
ghost use Rattle.wcv_flat.specs.Options as spec;

use std::fmt;
use wcv_core::{Error, ErrorKind, Refusal, ValType, Why};
use wcv_types::FlatType;

/// How texts are written in memory.
#[derive(Clone, Copy, Debug, PartialEq, Eq)]
pub enum StringEncoding {
    Utf8,
    Utf16,
    CompactUtf16,
}

impl StringEncoding {
    /// The word for the encoding.
    fn word(&self) -> &'static str
        ensures { result.now ≡ spec.encoding_word self.now }
    {
        match self {
            StringEncoding::Utf8 => "utf8",
            StringEncoding::Utf16 => "utf16",
            StringEncoding::CompactUtf16 => "latin1-utf16",
        }
    }
}

impl Default for StringEncoding {
    ghost use Rattle.std.specs.Prelude.{◌≡◌};
    ghost use Rattle.wcv_flat.specs.declared.options.StringEncoding.TheVariants as encoding;

    ghost is_default = { λ e. e ≡ encoding.Utf8 };

    /// UTF-8, which stands where no option names an encoding.
    fn default() -> StringEncoding {
        StringEncoding::Utf8
    }
}

impl fmt::Display for StringEncoding {
    ghost output = { λ encoding. Some (spec.encoding_word encoding) };

    fn fmt<W: fmt::Write>(&self, f: &mut fmt::Formatter<W>) -> fmt::Result {
        f.write_str(self.word())
    }
}

/// Whether a call waits for its result, or what is called back when there is one.
#[derive(Clone, Copy, Debug, PartialEq, Eq)]
pub enum Concurrency {
    Sync,
    Async { callback: Option<u32> },
}

impl Default for Concurrency {
    ghost use Rattle.std.specs.Prelude.{◌≡◌};
    ghost use Rattle.wcv_flat.specs.declared.options.Concurrency.TheVariants as concurrency;

    ghost is_default = { λ c. c ≡ concurrency.Sync };

    /// A call that waits, which is one without the option `async`.
    fn default() -> Concurrency {
        Concurrency::Sync
    }
}

impl Concurrency {
    /// Whether it waits.
    pub fn is_sync(&self) -> bool
        ensures { result ≡ not (spec.is_async self.now) }
    {
        !self.is_async()
    }

    /// Whether it does not.
    pub fn is_async(&self) -> bool
        ensures { result ≡ spec.is_async self.now }
    {
        matches!(self, Concurrency::Async { .. })
    }

    /// The core function that is called back.
    fn callback(&self) -> Option<u32>
        ensures { result ≡ spec.callback_of self.now }
    {
        match self {
            Concurrency::Async { callback } => *callback,
            Concurrency::Sync => None,
        }
    }
}

/// The size of pointers.
#[derive(Clone, Copy)]
pub enum PtrSize {
    Ptr32,
    Ptr64,
}

impl PtrSize {
    /// The core type of a pointer.
    pub fn core_type(&self) -> ValType
        ensures { result ≡ pointer_type self.now }
    {
        match self {
            PtrSize::Ptr32 => ValType::I32,
            PtrSize::Ptr64 => ValType::I64,
        }
    }
}

/// The core type of a flat type, where a pointer has that size.
pub fn core_type(ty: FlatType, size: PtrSize) -> ValType
    ensures { result ≡ as_core size ty }
{
    match ty {
        FlatType::I32 => ValType::I32,
        FlatType::I64 => ValType::I64,
        FlatType::F32 => ValType::F32,
        FlatType::F64 => ValType::F64,
        FlatType::Pointer => size.core_type(),
    }
}

/// Whether core code is given to components, or they are called by it.
#[derive(Clone, Copy)]
pub enum Abi {
    Lift,
    Lower,
}

/// The options with which a function is lifted or lowered. Indices are those of core memories and core functions.
#[derive(Clone, Copy)]
pub struct CanonicalOptions {
    pub string_encoding: StringEncoding,
    pub memory: Option<(u32, PtrSize)>,
    pub realloc: Option<u32>,
    pub post_return: Option<u32>,
    pub concurrency: Concurrency,
}

/// The refusal of options.
fn refusal<'a>(why: Why<'a>, offset: u64) -> Refusal<'a>
    ensures kind { error_kind result ≡ ErrorKind.Options }
    ensures offset { error_offset result ≡ offset }
{
    Error::new(ErrorKind::Options, offset, why)
}

impl CanonicalOptions {
    /// The size of pointers in the memory. Without one they are of 32 bits.
    pub fn pointer_size(&self) -> PtrSize
        ensures { result ≡ spec.pointer_size self.now }
    {
        match self.memory {
            Some((_, size)) => size,
            None => PtrSize::Ptr32,
        }
    }

    /// The core type of pointers in the memory.
    pub fn ptr_type(&self) -> ValType
        ensures { result ≡ pointer_type (spec.pointer_size self.now) }
    {
        self.pointer_size().core_type()
    }

    /// Refuses `async`, where the text says.
    pub fn require_sync<'a>(&self, offset: u64, place: &'a str) -> Result<(), Refusal<'a>>
        ensures ok { OnOk result (IsFree (spec.sync_checks self.now)) }
        ensures err { IfErr result (CausedBy (spec.sync_checks self.now) offset) }
    {
        if self.concurrency.is_async() {
            let why = Why::new("option `async` may not stand for %n").name(place);
            return Err(refusal(why, offset));
        }
        Ok(())
    }

    /// Refuses that no memory is given.
    pub fn require_memory(&self, offset: u64) -> Result<(), Refusal<'static>>
        ensures ok { OnOk result (IsFree (spec.needs true self.now.memory)) }
        ensures err { IfErr result (CausedBy (spec.needs true self.now.memory) offset) }
    {
        if self.memory.is_none() {
            let why = Why::new("option `memory` is needed");
            return Err(refusal(why, offset));
        }
        Ok(())
    }

    /// Refuses that no memory, or no `realloc` is given.
    pub fn require_realloc(&self, offset: u64) -> Result<(), Refusal<'static>>
        ensures ok { OnOk result (IsFree (spec.realloc_checks self.now)) }
        ensures err { IfErr result (CausedBy (spec.realloc_checks self.now) offset) }
    {
        self.require_memory(offset)?;
        if self.realloc.is_none() {
            let why = Why::new("option `realloc` is needed");
            return Err(refusal(why, offset));
        }
        Ok(())
    }

    /// Refuses that no memory is given, where one is needed. This is asked only where none is given.
    pub fn require_memory_if<F: Fn() -> bool>(
        &self,
        offset: u64,
        when: F,
    ) -> Result<(), Refusal<'static>>
    where
        F: Drop,
        requires { F.pre when }
        ensures ok { OnOk result ((spec.is_some self.now.memory ≡ true) ⊎ F.post when false) }
        ensures err { IfErr result (λ e. F.post when true × CausedBy (spec.needs true self.now.memory) offset e) }
    {
        if self.memory.is_none() && when() {
            let why = Why::new("option `memory` is needed");
            return Err(refusal(why, offset));
        }
        Ok(())
    }

    /// Refuses that no `realloc` is given, where one is needed. This is asked only where none is given.
    pub fn require_realloc_if<F: Fn() -> bool>(
        &self,
        offset: u64,
        when: F,
    ) -> Result<(), Refusal<'static>>
    where
        F: Drop,
        requires { F.pre when }
        ensures ok { OnOk result ((spec.is_some self.now.realloc ≡ true) ⊎ F.post when false) }
        ensures err { IfErr result (λ e. F.post when true × CausedBy (spec.needs true self.now.realloc) offset e) }
    {
        if self.realloc.is_none() && when() {
            let why = Why::new("option `realloc` is needed");
            return Err(refusal(why, offset));
        }
        Ok(())
    }

    /// Refuses what may not stand where a function is lowered: `post-return` and `callback`.
    pub fn check_lower(&self, offset: u64) -> Result<(), Refusal<'static>>
        ensures ok { OnOk result (IsFree (spec.lower_checks self.now)) }
        ensures err { IfErr result (CausedBy (spec.lower_checks self.now) offset) }
    {
        if self.post_return.is_some() {
            let why = Why::new("option `post-return` may not stand where a function is lowered");
            return Err(refusal(why, offset));
        }
        if self.concurrency.callback().is_some() {
            let why = Why::new("option `callback` may not stand where a function is lowered");
            return Err(refusal(why, offset));
        }
        Ok(())
    }
}
