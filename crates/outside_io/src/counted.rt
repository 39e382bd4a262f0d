//! A read or a write of any stream of std, whose failures are counted.
ghost use Rattle.std.specs.Prelude.{◌≡◌, ◌≤◌, length, IfOk};
ghost use Rattle.std.specs.Io.KnownBytes.{ReadConsumes, WriteAppends};
ghost use Rattle.outside_io.specs.Causes.{HasCause, faults_after};
ghost use Rattle.outside_io.specs.Ends.{TakesSome};

use crate::failed::Failed;
use std::io::{Read, Write};

// Reads once from a reader of std, and counts the fault if it fails.
pub fn read_counted<R: Read>(
    input: &mut R,
    buf: &mut [u8],
    faults: &mut u64,
) -> Result<usize, Failed>
    ensures within { IfOk result (λ count. count ≤ length buf.new) }
    ensures consumes { ReadConsumes (R.remaining input.old) (R.remaining input.new) result buf.new }
    ensures cause { HasCause faults.old faults.new result }
    ensures counted { faults.new ≡ faults_after faults.old result }
{
    let before = *faults;
    match input.read(buf) {
        Ok(count) => Ok(count),
        Err(_) => {
            *faults = before.saturating_add(1);
            Err(Failed)
        }
    }
}

// Writes once to a writer of std, and counts the fault if it fails or takes nothing of a piece that is not empty.
pub fn write_counted<W: Write>(
    output: &mut W,
    bytes: &[u8],
    faults: &mut u64,
) -> Result<usize, Failed>
    ensures within { IfOk result (λ count. count ≤ length bytes.now) }
    ensures takes_some { TakesSome result bytes.now }
    ensures appends { WriteAppends (W.contents output.old) (W.contents output.new) result bytes.now }
    ensures cause { HasCause faults.old faults.new result }
    ensures counted { faults.new ≡ faults_after faults.old result }
{
    let before = *faults;
    match output.write(bytes) {
        Ok(count) if count > 0 || bytes.is_empty() => Ok(count),
        _ => {
            *faults = before.saturating_add(1);
            Err(Failed)
        }
    }
}
