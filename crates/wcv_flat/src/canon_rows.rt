// The rows of canonical functions: what each asks of its operands, and what it appends.
ghost use Rattle.std.specs.Prelude.{◌≡◌, [], false};
ghost use Rattle.std.specs.Option.{unwrap_or};
ghost use Rattle.wcv_syntax.specs.View.{canon_view};
ghost use Rattle.wcv_flat.specs.CodeRows.{row_view, is_lift};
ghost use Rattle.wcv_flat.specs.Rows.{canon_row, options_in};

use wcv_core::{ValType, WasmFeatures};
use wcv_syntax::{CanonicalFunction, ComponentValType};

/// An option beside the encoding.
#[derive(Clone, Copy)]
pub enum OptionName {
    Memory,
    Realloc,
    PostReturn,
    Async,
    Callback,
}

/// Options that may not stand.
#[derive(Clone, Copy)]
pub enum Barred {
    /// `post-return` and `callback`, which stand where a function is lifted alone.
    OfLifting,
    /// `async`, `post-return` and `callback`.
    Waiting,
    /// `realloc`, `async`, `post-return` and `callback`.
    Returning,
}

/// What carries values from one end to the other.
#[derive(Clone, Copy)]
pub enum CarrierSort {
    Stream,
    Future,
}

/// Where an option has to stand.
#[derive(Clone, Copy)]
pub enum Needed {
    InAnyCase,
    /// Where the stream, or the future, at the index carries something.
    WithPayload(CarrierSort, u32),
    /// Where a pointer stands in what the stream, or the future, at the index carries.
    WithPointer(CarrierSort, u32),
}

/// One thing that a row asks. What is said of options is asked of the list of them.
#[derive(Clone, Copy)]
pub enum Ask {
    Feature(WasmFeatures),
    /// More built-ins of `async`, where that is true.
    MoreWhere(bool),
    /// More built-ins of `async`, where the options have no `async`.
    MoreWithoutAsync,
    Bars(Barred),
    Needs(OptionName, Needed),
    /// The function at the index is async, where the options have `async`.
    AsyncFunc(u32),
    Resource(u32),
    /// A resource that the component defines, with a representation.
    LocalResource(u32),
    Stream(u32),
    Future(u32),
    Memory(u32),
    /// No borrowed handle stands in the result.
    NoBorrow(Option<ComponentValType>),
    /// The slot is there, with the type.
    Slot(ValType, u32),
    /// A core type of functions that are spawned.
    SpawnType(u32),
    /// A core type of functions that start a thread.
    StartType(u32),
    /// A table of functions that are spawned.
    SpawnTable(u32),
    /// A table of functions that start a thread.
    StartTable(u32),
}

/// A type of a parameter or of a result.
#[derive(Clone, Copy)]
pub enum Word {
    Type(ValType),
    /// A pointer into the memory.
    Pointer,
    /// What represents the resource.
    Rep,
    /// A number of an element in the table.
    Element,
    /// What a function takes that starts a thread.
    Start,
    /// A reference to what is spawned, or none.
    Spawned,
}

/// What a canonical function appends, but for `lift`: a core function.
#[derive(Clone, Copy)]
pub enum Appends {
    /// One with these parameters and that result.
    Core {
        params: [Option<Word>; 3],
        results: [Option<Word>; 1],
    },
    /// A shared one with these parameters and that result.
    Shared {
        params: [Option<Word>; 3],
        results: [Option<Word>; 1],
    },
    /// One of the type of the function at the index, lowered.
    Lowered(u32),
    /// One that takes the result of a task, and gives none.
    Returning(Option<ComponentValType>),
}

/// The row of a canonical function.
#[derive(Clone, Copy)]
pub struct Row {
    pub asks: [Option<Ask>; 6],
    pub appends: Appends,
}

const INT: Word = Word::Type(ValType::I32);

const LONG: Word = Word::Type(ValType::I64);

const ASYNC: Ask = Ask::Feature(WasmFeatures::CM_ASYNC);

const FORWARD: Ask = Ask::Feature(WasmFeatures::CM_FORWARD);

const THREADING: Ask = Ask::Feature(WasmFeatures::CM_THREADING);

const SHARED: Ask = Ask::Feature(WasmFeatures::SHARED_EVERYTHING_THREADS);

const ERROR_CONTEXT: Ask = Ask::Feature(WasmFeatures::CM_ERROR_CONTEXT);

// What is asked, in its order.
macro_rules! asks {
    ($a:expr) => { [Some($a), None, None, None, None, None] };
    ($a:expr, $b:expr) => { [Some($a), Some($b), None, None, None, None] };
    ($a:expr, $b:expr, $c:expr) => { [Some($a), Some($b), Some($c), None, None, None] };
    ($a:expr, $b:expr, $c:expr, $d:expr) => { [Some($a), Some($b), Some($c), Some($d), None, None] };
    ($a:expr, $b:expr, $c:expr, $d:expr, $e:expr) => {
        [Some($a), Some($b), Some($c), Some($d), Some($e), None]
    };
    ($a:expr, $b:expr, $c:expr, $d:expr, $e:expr, $f:expr) => {
        [Some($a), Some($b), Some($c), Some($d), Some($e), Some($f)]
    };
}

// Parameters in their order.
macro_rules! params {
    () => { [None, None, None] };
    ($a:expr) => { [Some($a), None, None] };
    ($a:expr, $b:expr) => { [Some($a), Some($b), None] };
    ($a:expr, $b:expr, $c:expr) => { [Some($a), Some($b), Some($c)] };
}

// A result, where there is one.
macro_rules! results {
    () => { [None] };
    ($a:expr) => { [Some($a)] };
}

// What is asked, and the core function of these parameters and that result.
macro_rules! row {
    ($kind:ident [$($ask:expr),*] [$($param:expr),*] [$($result:expr)?]) => {
        Row {
            asks: asks!($($ask),*),
            appends: Appends::$kind {
                params: params!($($param),*),
                results: results!($($result)?),
            },
        }
    };
}

/// The row of a canonical function other than `lift`.
pub fn row_of(func: &CanonicalFunction) -> Row
    requires { is_lift (canon_view func.now) ≡ false }
    ensures { row_view (unwrap_or (options_in (canon_view func.now)) []) result ≡ canon_row (canon_view func.now) }
{
    match func {
        CanonicalFunction::Lift { .. } => unreachable!(),
        CanonicalFunction::Lower { func_index, .. } => Row {
            asks: asks!(Ask::Bars(Barred::OfLifting), Ask::AsyncFunc(*func_index)),
            appends: Appends::Lowered(*func_index),
        },
        CanonicalFunction::ResourceNew { resource } => {
            row!(Core[Ask::LocalResource(*resource)][Word::Rep][INT])
        }
        CanonicalFunction::ResourceDrop { resource } => {
            row!(Core [Ask::Resource(*resource)] [INT] [])
        }
        CanonicalFunction::ResourceRep { resource } => {
            row!(Core[Ask::LocalResource(*resource)][INT][Word::Rep])
        }
        CanonicalFunction::ThreadSpawnRef { func_ty_index } => {
            row!(Shared [SHARED, Ask::SpawnType(*func_ty_index)] [Word::Spawned, INT] [INT])
        }
        CanonicalFunction::ThreadSpawnIndirect {
            func_ty_index: ty,
            table_index: table,
        } => {
            row!(Shared [SHARED, Ask::SpawnType(*ty), Ask::SpawnTable(*table)] [INT, INT] [INT])
        }
        CanonicalFunction::ThreadAvailableParallelism => row!(Shared [SHARED] [] [INT]),
        CanonicalFunction::BackpressureInc
        | CanonicalFunction::BackpressureDec
        | CanonicalFunction::TaskCancel => row!(Core [ASYNC] [] []),
        CanonicalFunction::TaskReturn { result: ty, .. } => Row {
            asks: asks!(ASYNC, Ask::NoBorrow(*ty), Ask::Bars(Barred::Returning)),
            appends: Appends::Returning(*ty),
        },
        CanonicalFunction::ContextGet { ty, slot } => {
            row!(Core [ASYNC, Ask::Slot(*ty, *slot)] [] [Word::Type(*ty)])
        }
        CanonicalFunction::ContextSet { ty, slot } => {
            row!(Core [ASYNC, Ask::Slot(*ty, *slot)] [Word::Type(*ty)] [])
        }
        CanonicalFunction::SubtaskDrop | CanonicalFunction::WaitableSetDrop => {
            row!(Core [ASYNC] [INT] [])
        }
        CanonicalFunction::SubtaskCancel { async_ } => {
            row!(Core [ASYNC, Ask::MoreWhere(*async_)] [INT] [INT])
        }
        CanonicalFunction::StreamNew { ty } => row!(Core [ASYNC, Ask::Stream(*ty)] [] [LONG]),
        CanonicalFunction::StreamRead { ty, .. } => {
            let payload = Needed::WithPayload(CarrierSort::Stream, *ty);
            let pointer = Needed::WithPointer(CarrierSort::Stream, *ty);
            row!(Core
                [
                    ASYNC,
                    Ask::MoreWithoutAsync,
                    Ask::Stream(*ty),
                    Ask::Bars(Barred::OfLifting),
                    Ask::Needs(OptionName::Memory, payload),
                    Ask::Needs(OptionName::Realloc, pointer)
                ]
                [INT, Word::Pointer, Word::Pointer] [Word::Pointer])
        }
        CanonicalFunction::StreamWrite { ty, .. } => {
            let payload = Needed::WithPayload(CarrierSort::Stream, *ty);
            row!(Core
                [
                    ASYNC,
                    Ask::MoreWithoutAsync,
                    Ask::Stream(*ty),
                    Ask::Bars(Barred::OfLifting),
                    Ask::Needs(OptionName::Memory, payload)
                ]
                [INT, Word::Pointer, Word::Pointer] [Word::Pointer])
        }
        CanonicalFunction::StreamForward { ty } => {
            row!(Core [ASYNC, FORWARD, Ask::Stream(*ty)] [INT, INT] [])
        }
        CanonicalFunction::StreamCancelRead { ty, async_ }
        | CanonicalFunction::StreamCancelWrite { ty, async_ } => {
            row!(Core [ASYNC, Ask::MoreWhere(*async_), Ask::Stream(*ty)] [INT] [INT])
        }
        CanonicalFunction::StreamDropReadable { ty }
        | CanonicalFunction::StreamDropWritable { ty } => {
            row!(Core [ASYNC, Ask::Stream(*ty)] [INT] [])
        }
        CanonicalFunction::FutureNew { ty } => row!(Core [ASYNC, Ask::Future(*ty)] [] [LONG]),
        CanonicalFunction::FutureRead { ty, .. } => {
            let payload = Needed::WithPayload(CarrierSort::Future, *ty);
            let pointer = Needed::WithPointer(CarrierSort::Future, *ty);
            row!(Core
                [
                    ASYNC,
                    Ask::MoreWithoutAsync,
                    Ask::Future(*ty),
                    Ask::Bars(Barred::OfLifting),
                    Ask::Needs(OptionName::Memory, payload),
                    Ask::Needs(OptionName::Realloc, pointer)
                ]
                [INT, Word::Pointer] [INT])
        }
        CanonicalFunction::FutureWrite { ty, .. } => {
            let payload = Needed::WithPayload(CarrierSort::Future, *ty);
            row!(Core
                [
                    ASYNC,
                    Ask::MoreWithoutAsync,
                    Ask::Future(*ty),
                    Ask::Bars(Barred::OfLifting),
                    Ask::Needs(OptionName::Memory, payload)
                ]
                [INT, Word::Pointer] [INT])
        }
        CanonicalFunction::FutureForward { ty } => {
            row!(Core [ASYNC, FORWARD, Ask::Future(*ty)] [INT, INT] [])
        }
        CanonicalFunction::FutureCancelRead { ty, async_ }
        | CanonicalFunction::FutureCancelWrite { ty, async_ } => {
            row!(Core [ASYNC, Ask::MoreWhere(*async_), Ask::Future(*ty)] [INT] [INT])
        }
        CanonicalFunction::FutureDropReadable { ty }
        | CanonicalFunction::FutureDropWritable { ty } => {
            row!(Core [ASYNC, Ask::Future(*ty)] [INT] [])
        }
        CanonicalFunction::ErrorContextNew { .. } => {
            let memory = Ask::Needs(OptionName::Memory, Needed::InAnyCase);
            row!(Core [ERROR_CONTEXT, Ask::Bars(Barred::Waiting), memory]
                [Word::Pointer, Word::Pointer] [INT])
        }
        CanonicalFunction::ErrorContextDebugMessage { .. } => {
            let memory = Ask::Needs(OptionName::Memory, Needed::InAnyCase);
            let realloc = Ask::Needs(OptionName::Realloc, Needed::InAnyCase);
            row!(Core [ERROR_CONTEXT, Ask::Bars(Barred::Waiting), memory, realloc]
                [INT, Word::Pointer] [])
        }
        CanonicalFunction::ErrorContextDrop => row!(Core [ERROR_CONTEXT] [INT] []),
        CanonicalFunction::WaitableSetNew | CanonicalFunction::ThreadYield => {
            row!(Core [ASYNC] [] [INT])
        }
        CanonicalFunction::WaitableSetWait { memory }
        | CanonicalFunction::WaitableSetPoll { memory } => {
            row!(Core [ASYNC, Ask::Memory(*memory)] [INT, Word::Pointer] [INT])
        }
        CanonicalFunction::WaitableJoin => row!(Core [ASYNC] [INT, INT] []),
        CanonicalFunction::ThreadIndex | CanonicalFunction::ThreadSuspend => {
            row!(Core [THREADING] [] [INT])
        }
        CanonicalFunction::ThreadNewIndirect {
            func_ty_index: ty,
            table_index: table,
        } => {
            row!(Core [THREADING, Ask::StartType(*ty), Ask::StartTable(*table)]
                [Word::Element, Word::Start] [INT])
        }
        CanonicalFunction::ThreadResumeLater => row!(Core [THREADING] [INT] []),
        CanonicalFunction::ThreadSuspendThenResume
        | CanonicalFunction::ThreadYieldThenResume
        | CanonicalFunction::ThreadSuspendThenPromote
        | CanonicalFunction::ThreadYieldThenPromote => row!(Core[THREADING][INT][INT]),
    }
}
