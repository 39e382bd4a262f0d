//! The lines of a load, each by its number.
ghost use Rattle.std.specs.Prelude.{◌≡◌, ◌<◌, ◌^◌, IfOk, codes};
ghost use Rattle.load_script.specs.Load.{checkpoint_made as spec_checkpoint_made, checkpoint_opened as spec_checkpoint_opened, client_comes as spec_client_comes, one_written as spec_one_written, section_made as spec_section_made, section_name as spec_section_name, turn_read as spec_turn_read, turn_written as spec_turn_written};

use ckpt_types::{
    Bytes, CallbackSet, CreationAttributes, Elements, IoElement, NEVER, NewId, Op, ReadElement,
    Shared, SharedName, Update, Version, WR_ALL_REPLICAS,
};
use script_lines::Line;
use std::alloc::{AllocError, Global};

const ATTRIBUTES: CreationAttributes = CreationAttributes {
    creation_flags: WR_ALL_REPLICAS,
    checkpoint_size: 65536,
    retention_duration: NEVER,
    max_sections: 64,
    max_section_size: 1024,
    max_section_id_size: 8,
};

/// `client c2 n2 B.2.2 none`: a client becomes live on the node of its number.
pub fn client_comes(client: u8) -> Line
    ensures { result ≡ spec_client_comes client }
{
    let version = Version {
        release: b'B',
        major: 2,
        minor: 2,
    };
    let callbacks = CallbackSet {
        opens: false,
        syncs: false,
    };
    Line::Call(client, Op::Client(client, version, callbacks))
}

/// The first client makes the checkpoint.
pub fn checkpoint_made(alloc: Global) -> Result<Line, AllocError>
    ensures { IfOk result (λ line. line ≡ spec_checkpoint_made) }
{
    let name = checkpoint_name(alloc)?;
    let attributes = Shared::new(alloc, Some(ATTRIBUTES))?;
    Ok(Line::Call(0, Op::Open(0, name, 7, NEVER, attributes)))
}

/// Another client opens it.
pub fn checkpoint_opened(alloc: Global, client: u8) -> Result<Line, AllocError>
    ensures { IfOk result (λ line. line ≡ spec_checkpoint_opened client) }
{
    let name = checkpoint_name(alloc)?;
    let attributes = Shared::new(alloc, None)?;
    Ok(Line::Call(client, Op::Open(0, name, 3, NEVER, attributes)))
}

/// A section is made, empty.
pub fn section_made(alloc: Global, section: u64) -> Result<Line, AllocError>
    requires { section < 32 }
    ensures { IfOk result (λ line. line ≡ spec_section_made section) }
{
    let id = NewId::Given(section_name(alloc, section)?);
    let update = Shared::new(alloc, Update::Create(id, NEVER, Bytes::default()))?;
    Ok(Line::Call(0, Op::Create(0, update)))
}

/// A write of one element: these bytes in a section, from an offset on.
pub fn one_written(alloc: Global, section: u64, offset: u64, bytes: &[u8]) -> Result<Op, AllocError>
    requires { section < 32 }
    ensures { IfOk result (λ op. op ≡ spec_one_written section offset bytes.now) }
{
    let element = IoElement {
        id: section_name(alloc, section)?,
        offset,
        bytes: Bytes::from_slice(alloc, bytes)?,
    };
    let update = Shared::new(alloc, Update::Write(Elements::one(element)))?;
    Ok(Op::Write(0, update))
}

/// A client writes the number of its turn.
pub fn turn_written(alloc: Global, turn: u64) -> Result<Line, AllocError>
    requires { turn < 2 ^ 32 }
    ensures { IfOk result (λ line. line ≡ spec_turn_written turn) }
{
    let client = (turn % 4) as u8;
    let op = one_written(alloc, 7 * turn % 32, 13 * turn % 1000, &turn.to_be_bytes())?;
    Ok(Line::Call(client, op))
}

/// A client reads a section.
pub fn turn_read(alloc: Global, turn: u64) -> Result<Line, AllocError>
    requires { turn < 2 ^ 32 }
    ensures { IfOk result (λ line. line ≡ spec_turn_read turn) }
{
    let element = ReadElement {
        id: section_name(alloc, 5 * turn % 32)?,
        offset: 0,
        len: 1024,
    };
    let client = 1 + (turn % 3) as u8;
    let elements = Shared::new(alloc, Elements::one(element))?;
    Ok(Line::Call(client, Op::Read(0, elements)))
}

/// The name of the checkpoint.
fn checkpoint_name(alloc: Global) -> Result<SharedName, AllocError>
    ensures { IfOk result (λ name. name ≡ codes "all") }
{
    Shared::new(alloc, Bytes::from_slice(alloc, b"all")?)
}

/// The name of a section, with two digits.
fn section_name(alloc: Global, section: u64) -> Result<Bytes, AllocError>
    requires { section < 32 }
    ensures { IfOk result (λ name. name ≡ spec_section_name section) }
{
    let tens = b'0' + (section / 10) as u8;
    let ones = b'0' + (section % 10) as u8;
    Bytes::from_slice(alloc, &[b's', tens, ones])
}
