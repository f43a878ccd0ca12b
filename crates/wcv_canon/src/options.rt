// The options of a canonical function.
ghost use Rattle.std.specs.Prelude.{◌≡◌, List, OnOk, IfOk, IfErr};
ghost use Rattle.std.specs.Option.{option_map};
ghost use Rattle.wcv_core.specs.Checks.{all_checks};
ghost use Rattle.wcv_core.specs.Refusal.{error_kind, error_offset};
ghost use Rattle.wcv_lower.specs.CanonOptions as spec;
ghost use Rattle.wcv_lower.specs.CanonOptions.{first, memory_in, memory_pointers, concurrency_of, list_rules, options_read, options_checks};
ghost use Rattle.wcv_lower.specs.Checks.{IsFree};
ghost use Rattle.wcv_lower.specs.Trees.{Tree_context};
ghost use Rattle.wcv_spaces.specs.Contents.{StateStands, context_of, stack_of};
ghost use Rattle.wcv_spaces.specs.Promises.{MemoryOrCausedBy};
ghost use Rattle.wcv_canon.specs.Options.{option_asked};

use crate::items::{check_core_func, check_memory, require};
use crate::lists::{first_encoding, first_index, is_encoding, option_word, repeated, stands};
use wcv_core::{Error, ErrorKind, ValType, WasmFeatures, Why};
use wcv_flat::{CanonicalOptions, Concurrency, OptionName, PtrSize, StringEncoding};
use wcv_state::ComponentState;
use wcv_syntax::CanonicalOption;
use wcv_types::TypeAlloc;

/// The refusal of options, by words in which the name of one stands.
pub fn refused(words: &'static str, option: &'static str, offset: u64) -> Error
    ensures kind { error_kind result ≡ ErrorKind.Options }
    ensures offset { error_offset result ≡ offset }
{
    Error::from(Error::new(ErrorKind::Options, offset, Why::new(words).word(option)))
}

/// The refusal of an option that stands once more, or of a second encoding, where that one is the first.
fn repeats(option: CanonicalOption, first: Option<StringEncoding>, offset: u64) -> Error
    ensures kind { error_kind result ≡ ErrorKind.Options }
    ensures offset { error_offset result ≡ offset }
{
    let word = option_word(option);
    match (first, is_encoding(option)) {
        (Some(first), true) => Error::told(
            ErrorKind::Options,
            offset,
            format_args!("canonical encoding option `{first}` conflicts with option `{word}`"),
        ),
        _ => refused("option `%w` stands twice", word, offset),
    }
}

/// The rules on what stands beside what in a list.
fn check_list(options: &[CanonicalOption], offset: u64) -> Result<(), Error>
    ensures ok { OnOk result (IsFree (list_rules options.now)) }
    ensures err { IfErr result (MemoryOrCausedBy (list_rules options.now) offset) }
{
    if let Some(option) = repeated(options) {
        return Err(repeats(option, first_encoding(options), offset));
    }
    if stands(OptionName::Realloc, options) && !stands(OptionName::Memory, options) {
        return Err(refused("option `realloc` needs the option `%w`", "memory", offset));
    }
    let is_async = stands(OptionName::Async, options);
    if stands(OptionName::Callback, options) && !is_async {
        return Err(refused("option `callback` needs the option `%w`", "async", offset));
    }
    if is_async && stands(OptionName::PostReturn, options) {
        let words = "option `post-return` may not stand beside the option `%w`";
        return Err(refused(words, "async", offset));
    }
    Ok(())
}

/// The size of pointers where they have 64 bits, or not.
fn size_of(wide: bool) -> PtrSize
    ensures { result ≡ spec.size_of wide }
{
    if wide {
        return PtrSize::Ptr64;
    }
    PtrSize::Ptr32
}

/// The size of pointers into the memory at the index.
fn pointers_into(index: u32, state: &ComponentState, types: &TypeAlloc, offset: u64) -> PtrSize
    ensures { result ≡ memory_pointers (context_of types.now state.now) index }
{
    let _ = types;
    match state.memory_at(index, offset) {
        Ok(ty) => size_of(ty.memory64),
        Err(_) => PtrSize::Ptr32,
    }
}

/// The first memory, with the size of pointers into it.
fn first_memory(
    options: &[CanonicalOption],
    state: &ComponentState,
    types: &TypeAlloc,
    offset: u64,
) -> Option<(u32, PtrSize)>
    ensures { result ≡ option_map (λ i. (i, memory_pointers (context_of types.now state.now) i)) (first memory_in options.now) }
{
    match first_index(OptionName::Memory, options) {
        Some(index) => Some((index, pointers_into(index, state, types, offset))),
        None => None,
    }
}

/// Whether a call waits.
fn concurrency(options: &[CanonicalOption]) -> Concurrency
    ensures { result ≡ concurrency_of options.now }
{
    if !stands(OptionName::Async, options) {
        return Concurrency::default();
    }
    Concurrency::Async {
        callback: first_index(OptionName::Callback, options),
    }
}

/// Of each sort of options the first.
fn found_options(
    options: &[CanonicalOption],
    state: &ComponentState,
    types: &TypeAlloc,
    offset: u64,
) -> CanonicalOptions
    ensures { result ≡ options_read (context_of types.now state.now) options.now }
{
    CanonicalOptions {
        string_encoding: first_encoding(options).unwrap_or_default(),
        memory: first_memory(options, state, types, offset),
        realloc: first_index(OptionName::Realloc, options),
        post_return: first_index(OptionName::PostReturn, options),
        concurrency: concurrency(options),
    }
}

/// What `realloc` asks for, where pointers are of that type.
fn realloc_asked(pointer: ValType) -> &'static str {
    match pointer {
        ValType::I64 => { "option `realloc` asks for (func (param i64 i64 i64 i64) (result i64))" }
        _ => "option `realloc` asks for (func (param i32 i32 i32 i32) (result i32))",
    }
}

/// The refusal of an option that no feature brings.
fn unsupported(option: CanonicalOption, offset: u64) -> Error
    ensures kind { error_kind result ≡ ErrorKind.Feature }
    ensures offset { error_offset result ≡ offset }
{
    let why = Why::new("option `%w` is of a feature that is not there").word(option_word(option));
    Error::from(Error::new(ErrorKind::Feature, offset, why))
}

/// What is looked up for one option, and asked of that, where pointers are of the type.
fn check_option(
    option: CanonicalOption,
    pointer: ValType,
    state: &ComponentState,
    types: &TypeAlloc,
    offset: u64,
) -> Result<(), Error>
    requires stands { StateStands types.now state.now }
    ensures ok { OnOk result (IsFree (option_asked types.now state.now pointer option)) }
    ensures err { IfErr result (MemoryOrCausedBy (option_asked types.now state.now pointer option) offset) }
{
    match option {
        CanonicalOption::UTF8 | CanonicalOption::UTF16 | CanonicalOption::CompactUTF16 => Ok(()),
        CanonicalOption::Memory(index) => check_memory(index, state, types, offset),
        CanonicalOption::Realloc(index) => check_core_func(
            realloc_asked(pointer),
            index,
            &[pointer, pointer, pointer, pointer],
            &[pointer],
            state,
            types,
            offset,
        ),
        CanonicalOption::PostReturn(index) => {
            state.core_function_at(index, offset)?;
            Ok(())
        }
        CanonicalOption::Callback(index) => check_core_func(
            "option `callback` asks for (func (param i32 i32 i32) (result i32))",
            index,
            &[ValType::I32, ValType::I32, ValType::I32],
            &[ValType::I32],
            state,
            types,
            offset,
        ),
        CanonicalOption::Async => require(
            state.features(),
            WasmFeatures::CM_ASYNC,
            true,
            "option `async`",
            offset,
        ),
        CanonicalOption::CoreType(_) | CanonicalOption::Gc => Err(unsupported(option, offset)),
    }
}

/// What is looked up for each option, and asked of that.
#[tactic(auto, using(wcv_core::proofs::Closing::free_next))]
fn check_each(
    options: &[CanonicalOption],
    pointer: ValType,
    state: &ComponentState,
    types: &TypeAlloc,
    offset: u64,
) -> Result<(), Error>
    requires stands { StateStands types.now state.now }
    ensures ok { OnOk result (IsFree (all_checks (option_asked types.now state.now pointer) options.now)) }
    ensures err { IfErr result (MemoryOrCausedBy (all_checks (option_asked types.now state.now pointer) options.now) offset) }
{
    for option in options {
        check_option(*option, pointer, state, types, offset)?;
    }
    Ok(())
}

/// The options of a list, where the list breaks no rule on options.
pub fn read_options(
    options: &[CanonicalOption],
    state: &ComponentState,
    types: &TypeAlloc,
    offset: u64,
) -> Result<CanonicalOptions, Error>
    requires stands { StateStands types.now state.now }
    ensures ok { IfOk result (λ read. read ≡ options_read (context_of types.now state.now) options.now) }
    ensures free { OnOk result ((outer : List Tree_context) → IsFree (options_checks state.now.features (stack_of types.now state.now outer) options.now)) }
    ensures err { IfErr result (λ e. (outer : List Tree_context) → MemoryOrCausedBy (options_checks state.now.features (stack_of types.now state.now outer) options.now) offset e) }
{
    check_list(options, offset)?;
    let read = found_options(options, state, types, offset);
    check_each(options, read.ptr_type(), state, types, offset)?;
    Ok(read)
}
