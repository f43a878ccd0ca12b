// The ends that never fail.
ghost use Rattle.std.specs.Prelude.{◌≡◌, ◌≤◌, None, Some, vec_len};

use crate::ends::{Failed, Sink, Source};

/// Gives the bytes of a `Vec`, and never fails.
#[derive(Drop)]
pub struct SteadySource {
    bytes: Vec<u8>,
    at: usize,
    ghost within: { at ≤ vec_len bytes },
}

impl SteadySource {
    ghost use Rattle.wcv_main.specs.Steady.{steady_left};

    /// A source of these bytes.
    pub fn new(bytes: Vec<u8>) -> SteadySource
        ensures { steady_left result ≡ bytes.items }
    {
        SteadySource { bytes, at: 0 }
    }
}

impl Source for SteadySource {
    ghost use Rattle.wcv_main.specs.Steady.{steady_left};

    ghost left = { λ s. Some (steady_left s) };

    ghost faults = { λ _. 0 };

    fn read(&mut self, into: &mut [u8]) -> Result<usize, Failed> {
        let count = into.len().min(self.bytes.len() - self.at);
        into[..count].copy_from_slice(&self.bytes[self.at..self.at + count]);
        self.at += count;
        Ok(count)
    }
}

/// Takes every byte, keeps none and never fails.
#[derive(Drop)]
pub struct SteadySink;

impl SteadySink {
    /// A sink that takes every byte.
    pub fn new() -> SteadySink {
        SteadySink
    }
}

impl Sink for SteadySink {
    ghost taken = { λ _. None };

    ghost faults = { λ _. 0 };

    fn write(&mut self, from: &[u8]) -> Result<usize, Failed> {
        Ok(from.len())
    }
}
