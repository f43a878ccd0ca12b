// Where bytes come from, and where they go.
ghost use Rattle.std.specs.Prelude.{◌<◌, List, ℕ, Option, length, IfOk};
ghost use Rattle.std.specs.Io.{ReadsAtMost, WritesAtMost};
ghost use Rattle.std.specs.Io.KnownBytes.{ReadConsumes, WriteAppends};
ghost use Rattle.wcv_main.specs.Faults.{HasCause};

/// A call failed, and gave or took no byte. The source or the sink may be used again.
#[derive(Clone, Copy, Debug, PartialEq, Eq)]
pub struct Failed;

/// Gives bytes in order, each once, until none are left.
pub trait Source {
    /// The bytes that are left. `None` where the source does not tell them, as standard input.
    ghost left: { Self → Option (List ℕ) };

    /// How many calls have failed. The count never falls, and stays at 2^64 - 1 once it is there.
    ghost faults: { Self → ℕ };

    /// Gives the next bytes. `Ok(n)`: the first `n` bytes of `into` are the next `n` of those that
    /// were left, and the count of faults is as before. `Ok(0)` for a slice with room comes only
    /// at the end, when none are left. `Err(Failed)`: no byte was given, and the count rose.
    fn read(&mut self, into: &mut [u8]) -> Result<usize, Failed>
        ensures bound { ReadsAtMost result into.new }
        ensures bytes { ReadConsumes (left self.old) (left self.new) result into.new }
        ensures cause { HasCause (faults self.old) (faults self.new) result };
}

/// Takes bytes in order.
pub trait Sink {
    /// The bytes that were taken. `None` where the sink does not tell them, as standard output.
    ghost taken: { Self → Option (List ℕ) };

    /// How many calls have failed. The count never falls, and stays at 2^64 - 1 once it is there.
    ghost faults: { Self → ℕ };

    /// Takes the first bytes. `Ok(n)`: the first `n` bytes of `from` were taken, at least one
    /// where `from` has one, and the count of faults is as before. `Err(Failed)`: no byte was
    /// taken, and the count rose.
    fn write(&mut self, from: &[u8]) -> Result<usize, Failed>
        ensures bound { WritesAtMost result from.now }
        ensures bytes { WriteAppends (taken self.old) (taken self.new) result from.now }
        ensures some { IfOk result (λ n. 0 < length from.now → 0 < n) }
        ensures cause { HasCause (faults self.old) (faults self.new) result };
}
