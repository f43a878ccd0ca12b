// The calls that add canonical functions to a state.
ghost use Rattle.std.specs.Prelude.{◌≡◌, List, OnOk, IfOk, IfErr};
ghost use Rattle.wcv_core.specs.Names.{Place};
ghost use Rattle.wcv_syntax.specs.Model.{canon_item};
ghost use Rattle.wcv_syntax.specs.View.{canon_view};
ghost use Rattle.wcv_lower.specs.CanonOptions.{options_read, options_checks};
ghost use Rattle.wcv_lower.specs.Checks.{IsFree};
ghost use Rattle.wcv_lower.specs.Trees.{Tree_context};
ghost use Rattle.wcv_spaces.specs.Contents.{StateStands, context_of, stack_of};
ghost use Rattle.wcv_spaces.specs.Promises.{MemoryOrCausedBy, Keeps, Grew, Refuses};
ghost use Rattle.wcv_state.specs.Stack.{IsOpen};

use crate::functions::add_canonical_function;
use crate::options::read_options;
use wcv_core::Error;
use wcv_flat::CanonicalOptions;
use wcv_state::ComponentState;
use wcv_syntax::{CanonicalFunction, CanonicalOption};
use wcv_types::TypeAlloc;

/// A state to which canonical functions are added.
pub trait Canon: Sized {
    ghost use Rattle.wcv_spaces.specs.Contents.{Contents};

    /// What the state holds.
    ghost contents: { Self → Contents };

    /// The options of a list: of each sort the first, and `utf8` where no encoding is named. Refuses an index that
    /// is not below the length of its space as `OutOfBounds`, a type of a core module where a core type is named as
    /// `WrongSort`, what a feature is missing for as `Feature`, and what the list breaks of the rules on options, a
    /// core function of another type among them, as `Options`. What a canonical function asks of its options beside
    /// these is left to `canonical_function`.
    fn check_options(
        &self,
        types: &TypeAlloc,
        options: &[CanonicalOption],
        offset: u64,
    ) -> Result<CanonicalOptions, Error>
        requires stands { StateStands types.now (contents self.now) }
        ensures ok { IfOk result (λ read. read ≡ options_read (context_of types.now (contents self.now)) options.now) }
        ensures free { OnOk result ((outer : List Tree_context) → IsFree (options_checks (contents self.now).features (stack_of types.now (contents self.now) outer) options.now)) }
        ensures err { IfErr result (λ e. (outer : List Tree_context) → MemoryOrCausedBy (options_checks (contents self.now).features (stack_of types.now (contents self.now) outer) options.now) offset e) };

    /// One more canonical function: `lift` appends a function of the type that it names, every other one a core
    /// function, of the core type that its row in docs/REFERENCE.md has. Refuses an index that is not below the length of its space as
    /// `OutOfBounds`, what is of another sort as `WrongSort`, what a feature is missing for as `Feature`, options
    /// that break a rule as `Options`, a core type that is another than is asked for as `Signature`, a resource that
    /// is not defined here with a representation, where one has to be, as `ResourceScope`, a borrowed handle in what
    /// a task returns as `Borrow`, a slot that is not there or has another type as `Context`, and more functions or
    /// core types than there may be as `Limit`. The length of the list of options is left to the caller. After an
    /// error the state is spent.
    fn canonical_function(
        &mut self,
        func: CanonicalFunction,
        types: &mut TypeAlloc,
        offset: u64,
    ) -> Result<(), Error>
        requires open { IsOpen types.old (contents self.old) }
        ensures ok { OnOk result ((outer : List Tree_context) (p : Place) → Grew types.old types.new outer p (contents self.old) (contents self.new) (canon_item (canon_view func))) }
        ensures err { IfErr result (λ e. (outer : List Tree_context) (p : Place) → Refuses types.old types.new outer p (contents self.old) (contents self.new) (canon_item (canon_view func)) offset e) }
        ensures keeps { Keeps types.old types.new (contents self.old) (contents self.new) };
}

impl Canon for ComponentState {
    ghost use Rattle.wcv_spaces.specs.Contents.{Contents};

    ghost contents = { λ s. s };

    fn check_options(
        &self,
        types: &TypeAlloc,
        options: &[CanonicalOption],
        offset: u64,
    ) -> Result<CanonicalOptions, Error> {
        read_options(options, self, types, offset)
    }

    fn canonical_function(
        &mut self,
        func: CanonicalFunction,
        types: &mut TypeAlloc,
        offset: u64,
    ) -> Result<(), Error> {
        add_canonical_function(func, self, types, offset)
    }
}
