// A run that meets no fault.
ghost use Rattle.std.specs.Prelude.{◌≢◌, Some, None};
ghost use Rattle.wcv_main.specs.Answers.{Answers};

use crate::status::Status;
use crate::steady::{SteadySink, SteadySource};
use crate::top::run;
use crate::words::Words;
use std::alloc::Global;

/// The status with which a run over these bytes ends where nothing fails: no fault of reading or writing
/// is ever answered.
pub fn status_of_bytes(alloc: Global, words: &Words, bytes: Vec<u8>) -> Status
    ensures due { Answers words.now (Some bytes.items) result None None }
    ensures read { result ≢ Status.ReadFault }
    ensures write { result ≢ Status.WriteFault }
{
    let mut source = SteadySource::new(bytes);
    let mut sink = SteadySink::new();
    run(alloc, words, &mut source, &mut sink)
}
