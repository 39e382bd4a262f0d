//! The writer of each class of words.
ghost use Rattle.std.specs.Prelude.{◌≡◌, ◌++◌, ◌∷◌, [], OnOk, decimal};
ghost use Rattle.ckpt_types.specs.Spelling.{bytes_text, time_text, actor_text};
ghost use Rattle.script_words.specs.Spelling.{spell};
ghost use Rattle.script_words.specs.Words.{a_client, a_node, a_place, an_iteration, a_ckpt, a_time, some_bytes, an_id, a_new_id, a_version, the_callbacks, a_who};

use ckpt_types::{
    ActorName, Bytes, CallId, CallbackSet, CkptId, Moment, NEVER, NewId, NodeId, Version, Who,
};
use itoa::Buffer;
use std::alloc::{AllocError, Global};

/// Writes a number in decimal digits.
pub fn write_decimal(out: &mut Vec<u8>, n: u64) -> Result<(), AllocError>
    ensures { OnOk result (out.new.items ≡ out.old.items ++ decimal n) }
{
    let mut buffer = Buffer::new();
    out.extend_from_slice(buffer.format(n).as_bytes())
}

/// Writes a space and a number.
pub fn write_number(out: &mut Vec<u8>, n: u64) -> Result<(), AllocError>
    ensures { OnOk result (out.new.items ≡ out.old.items ++ 32 ∷ decimal n) }
{
    out.extend_from_slice(b" ")?;
    write_decimal(out, n)
}

/// Writes a space and a client.
pub fn write_client(out: &mut Vec<u8>, client: u8) -> Result<(), AllocError>
    ensures { OnOk result (out.new.items ≡ out.old.items ++ 32 ∷ spell a_client client) }
{
    out.extend_from_slice(b" c")?;
    write_decimal(out, client as u64)
}

/// Writes a space and a node.
pub fn write_node(out: &mut Vec<u8>, node: NodeId) -> Result<(), AllocError>
    ensures { OnOk result (out.new.items ≡ out.old.items ++ 32 ∷ spell a_node node) }
{
    out.extend_from_slice(b" n")?;
    write_decimal(out, node as u64)
}

/// Writes a space and the place of a handle.
pub fn write_place(out: &mut Vec<u8>, place: u8) -> Result<(), AllocError>
    ensures { OnOk result (out.new.items ≡ out.old.items ++ 32 ∷ spell a_place place) }
{
    out.extend_from_slice(b" h")?;
    write_decimal(out, place as u64)
}

/// Writes a space and the place of an iteration.
pub fn write_iteration(out: &mut Vec<u8>, place: u8) -> Result<(), AllocError>
    ensures { OnOk result (out.new.items ≡ out.old.items ++ 32 ∷ spell an_iteration place) }
{
    out.extend_from_slice(b" i")?;
    write_decimal(out, place as u64)
}

/// Writes a space and a checkpoint.
pub fn write_ckpt(out: &mut Vec<u8>, ckpt: CkptId) -> Result<(), AllocError>
    ensures { OnOk result (out.new.items ≡ out.old.items ++ 32 ∷ spell a_ckpt ckpt) }
{
    out.extend_from_slice(b" K")?;
    write_decimal(out, ckpt as u64)
}

/// Writes a space and a time.
pub fn write_time(out: &mut Vec<u8>, time: Moment) -> Result<(), AllocError>
    ensures { OnOk result (out.new.items ≡ out.old.items ++ 32 ∷ time_text time) }
{
    if time == NEVER {
        return out.extend_from_slice(b" end");
    }
    out.extend_from_slice(b" ")?;
    let mut buffer = Buffer::new();
    out.extend_from_slice(buffer.format(time).as_bytes())
}

/// Writes a space and bytes.
pub fn write_bytes(alloc: Global, out: &mut Vec<u8>, bytes: &[u8]) -> Result<(), AllocError>
    ensures { OnOk result (out.new.items ≡ out.old.items ++ 32 ∷ bytes_text bytes.now) }
{
    out.extend_from_slice(b" x")?;
    let text = hex::encode(alloc, bytes)?;
    out.extend_from_slice(text.as_bytes())
}

/// Writes a space and an identifier.
pub fn write_id(alloc: Global, out: &mut Vec<u8>, id: &Bytes) -> Result<(), AllocError>
    ensures { OnOk result (out.new.items ≡ out.old.items ++ 32 ∷ spell an_id id.now) }
{
    write_bytes(alloc, out, id.as_slice())
}

/// Writes a space and the identifier of a new section.
pub fn write_new_id(alloc: Global, out: &mut Vec<u8>, id: &NewId) -> Result<(), AllocError>
    ensures { OnOk result (out.new.items ≡ out.old.items ++ 32 ∷ spell a_new_id id.now) }
{
    match id {
        NewId::Given(id) => write_bytes(alloc, out, id.as_slice()),
        NewId::Generated => out.extend_from_slice(b" gen"),
    }
}

/// Writes a space and a version.
pub fn write_version(out: &mut Vec<u8>, version: Version) -> Result<(), AllocError>
    ensures { OnOk result (out.new.items ≡ out.old.items ++ 32 ∷ spell a_version version) }
{
    out.extend_from_slice(b" ")?;
    out.push(version.release)?;
    out.push(b'.')?;
    write_decimal(out, version.major as u64)?;
    out.push(b'.')?;
    write_decimal(out, version.minor as u64)
}

/// Writes a space and the callbacks that are registered.
pub fn write_callbacks(out: &mut Vec<u8>, set: CallbackSet) -> Result<(), AllocError>
    ensures { OnOk result (out.new.items ≡ out.old.items ++ 32 ∷ spell the_callbacks set) }
{
    if set.opens {
        if set.syncs {
            out.extend_from_slice(b" both")
        } else {
            out.extend_from_slice(b" open")
        }
    } else if set.syncs {
        out.extend_from_slice(b" sync")
    } else {
        out.extend_from_slice(b" none")
    }
}

/// Writes a space and whose call is stepped.
pub fn write_who(out: &mut Vec<u8>, who: Who) -> Result<(), AllocError>
    ensures { OnOk result (out.new.items ≡ out.old.items ++ 32 ∷ spell a_who who) }
{
    match who {
        Who::Actor(name) => write_actor(out, name),
        Who::Call(call) => {
            write_actor(out, call.actor)?;
            out.extend_from_slice(b".")?;
            write_decimal(out, call.number as u64)
        }
    }
}

// Writes a space and who begins calls.
fn write_actor(out: &mut Vec<u8>, name: ActorName) -> Result<(), AllocError>
    ensures { OnOk result (out.new.items ≡ out.old.items ++ 32 ∷ actor_text name) }
{
    match name {
        ActorName::Client(client) => write_client(out, client),
        ActorName::Node(node) => write_node(out, node),
    }
}
