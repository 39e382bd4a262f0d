//! The script is read from its source.
ghost use Rattle.std.specs.Prelude.{◌≡◌, ◌+◌, ◌≤◌, ◌++◌, length, IfOk, OnErr, Err, vec_len, vec_capacity};
ghost use Rattle.outside_io.specs.Causes.{Rose};
ghost use Rattle.command_run.specs.Reading.{HasRead, TakesFew};

use crate::running::Trouble;
use ckpt_types::SCRIPT_BYTES_MAX;
use outside_io::{Failed, Source};
use std::alloc::Global;

/// How a reading ends that did not fail.
#[derive(Clone, Copy)]
pub enum Ended {
    /// At the end of the source.
    AtEnd,
    /// At one byte more than a script may have.
    TooLong,
}

const MOST: usize = SCRIPT_BYTES_MAX + 1;

const PIECE: usize = 4096;

/// The bytes of the source, up to one more than a script may have.
pub fn read_all<S: Source>(alloc: Global, source: &mut S) -> Result<(Vec<u8>, Ended), Trouble>
    ensures later { S.faults source.old ≤ S.faults source.new }
    ensures read { IfOk result (λ r. HasRead (S.left source.old) (S.left source.new) r.0.items r.1) }
    ensures few { OnErr result (TakesFew (S.left source.old) (S.left source.new)) }
    ensures failed { result ≡ Err Trouble.Failed → Rose (S.faults source.old) (S.faults source.new) }
{
    let mut bytes = Vec::new(alloc);
    let mut buf = [0u8; PIECE];
    'reading: while bytes.len() < MOST {
        let room = (MOST - bytes.len()).min(PIECE);
        if bytes.reserve(room).is_err() {
            return Err(Trouble::Memory);
        }
        let part = &mut buf[..room];
        let count = match source.read(part) {
            Ok(count) => count,
            Err(Failed) => return Err(Trouble::Failed),
        };
        if count == 0 {
            return Ok((bytes, Ended::AtEnd));
        }
        append(&mut bytes, &part[..count]);
    }
    Ok((bytes, Ended::TooLong))
}

// Appends a piece for which there is room.
fn append(bytes: &mut Vec<u8>, piece: &[u8])
    requires { vec_len bytes.old + length piece.now ≤ vec_capacity bytes.old }
    ensures { bytes.new.items ≡ bytes.old.items ++ piece.now }
{
    bytes.extend_from_slice(piece).unwrap();
}
