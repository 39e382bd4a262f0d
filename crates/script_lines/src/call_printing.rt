//! How each call line is spelled.
ghost use Rattle.std.specs.Prelude.{◌≡◌, ◌++◌, ◌∷◌, [], OnOk, codes, decimal, map, option_map, flat_map};
ghost use Rattle.script_lines.specs.Spelling.{spell_all, spell_more, tail_text, with_spaces, written_update, written_call, attributes_values, io_values, read_values};
ghost use Rattle.ckpt_types.specs.declared.words.OpWord.TheVariants as calls;
ghost use Rattle.ckpt_types.specs.OpWord.{op_text};
ghost use Rattle.ckpt_types.specs.Spelling.{bytes_text};
ghost use Rattle.script_words.specs.Spelling.{spell};
ghost use Rattle.script_words.specs.Words.{a_client, a_place, a_time, an_iteration};
ghost use Rattle.script_lines.specs.Table.{attributes, io_group, read_group};
ghost use Rattle.ckpt_types.specs.declared.operation.Op.TheVariants as ops;
ghost use Rattle.ckpt_types.specs.declared.update.Update.TheVariants as updates;

use ckpt_types::{
    Bytes, CallbackSet, CreationAttributes, IoElement, Moment, NewId, NodeId, Op, ReadElement,
    Update, Version,
};
use script_words::{
    write_bytes, write_callbacks, write_client, write_id, write_iteration, write_new_id,
    write_node, write_number, write_place, write_time, write_version,
};
use std::alloc::{AllocError, Global};

/// Writes the words of a client's call.
pub fn write_call(alloc: Global, out: &mut Vec<u8>, client: u8, op: &Op) -> Result<(), AllocError>
    ensures { OnOk result (out.new.items ≡ out.old.items ++ written_call client op.now) }
{
    match op {
        Op::Client(node, version, callbacks) => client_call(
            out, client, *node, *version, *callbacks,
        ),
        Op::Finalize => finalize_call(out, client),
        Op::Open(place, name, flags, timeout, attributes) => {
            open_call(
                alloc,
                out,
                client,
                *place,
                name.value(),
                *flags,
                *timeout,
                *attributes.value(),
            )
        }
        Op::OpenAsync(place, invocation, name, flags, attributes) => open_async_call(
            alloc,
            out,
            client,
            *place,
            *invocation,
            name.value(),
            *flags,
            *attributes.value(),
        ),
        Op::Close(place) => handle_call(out, b"close", client, *place),
        Op::Unlink(name) => unlink_call(alloc, out, client, name.value()),
        Op::Retain(place, duration) => timed_call(out, b"retain", client, *place, *duration),
        Op::Active(place) => handle_call(out, b"active", client, *place),
        Op::Status(place) => handle_call(out, b"status", client, *place),
        Op::Create(place, update) => write_update(alloc, out, client, *place, update.value()),
        Op::Delete(place, update) => write_update(alloc, out, client, *place, update.value()),
        Op::Expire(place, update) => write_update(alloc, out, client, *place, update.value()),
        Op::Iter(iteration, place, choice, time) => {
            iter_call(out, client, *iteration, *place, *choice, *time)
        }
        Op::Next(iteration) => iteration_call(out, b"next", client, *iteration),
        Op::EndIter(iteration) => iteration_call(out, b"enditer", client, *iteration),
        Op::Write(place, update) => write_update(alloc, out, client, *place, update.value()),
        Op::Over(place, update) => write_update(alloc, out, client, *place, update.value()),
        Op::Read(place, elements) => {
            read_call(alloc, out, client, *place, elements.value().as_slice())
        }
        Op::Sync(place, timeout) => timed_call(out, b"sync", client, *place, *timeout),
        Op::SyncAsync(place, invocation) => sync_async_call(out, client, *place, *invocation),
        Op::Dispatch(flags) => dispatch_call(out, client, *flags),
        Op::Copy => copy_call(out, client),
    }
}

#[tactic(auto, unfolding(crate::specs::Spelling::written_call))]
fn client_call(
    out: &mut Vec<u8>,
    client: u8,
    node: NodeId,
    version: Version,
    callbacks: CallbackSet,
) -> Result<(), AllocError>
    ensures { OnOk result (out.new.items ≡ out.old.items ++ written_call client (ops.Client node version callbacks)) }
{
    out.extend_from_slice(b"client")?;
    write_client(out, client)?;
    write_node(out, node)?;
    write_version(out, version)?;
    write_callbacks(out, callbacks)
}

#[tactic(auto, unfolding(crate::specs::Spelling::written_call))]
fn finalize_call(out: &mut Vec<u8>, client: u8) -> Result<(), AllocError>
    ensures { OnOk result (out.new.items ≡ out.old.items ++ written_call client (ops.Finalize)) }
{
    out.extend_from_slice(b"finalize")?;
    write_client(out, client)
}

#[tactic(auto, unfolding(crate::specs::Spelling::written_call))]
fn open_call(
    alloc: Global,
    out: &mut Vec<u8>,
    client: u8,
    place: u8,
    name: &Bytes,
    flags: u32,
    timeout: Moment,
    attributes: Option<CreationAttributes>,
) -> Result<(), AllocError>
    ensures { OnOk result (out.new.items ≡ out.old.items ++ written_call client (ops.Open place name.now flags timeout attributes)) }
{
    handle_call(out, b"open", client, place)?;
    write_name_and_flags(alloc, out, name, flags)?;
    write_time(out, timeout)?;
    write_more(out, attributes)
}

#[tactic(auto, using(crate::proofs::Writing::open_async_text))]
fn open_async_call(
    alloc: Global,
    out: &mut Vec<u8>,
    client: u8,
    place: u8,
    invocation: u64,
    name: &Bytes,
    flags: u32,
    attributes: Option<CreationAttributes>,
) -> Result<(), AllocError>
    ensures { OnOk result (out.new.items ≡ out.old.items ++ written_call client (ops.OpenAsync place invocation name.now flags attributes)) }
{
    write_async_front(out, client, place, invocation)?;
    write_opening(alloc, out, name, flags, attributes)
}

// The words of an asynchronous open in front of the name.
fn write_async_front(
    out: &mut Vec<u8>,
    client: u8,
    place: u8,
    invocation: u64,
) -> Result<(), AllocError>
    ensures { OnOk result (out.new.items ≡ out.old.items ++ op_text calls.OpenAsync ++ tail_text (spell a_client client ∷ spell a_place place ∷ decimal invocation ∷ [])) }
{
    handle_call(out, b"openasync", client, place)?;
    write_number(out, invocation)
}

// A name, open flags, and the words of creation attributes, where there are any.
fn write_opening(
    alloc: Global,
    out: &mut Vec<u8>,
    name: &Bytes,
    flags: u32,
    declared: Option<CreationAttributes>,
) -> Result<(), AllocError>
    ensures { OnOk result (out.new.items ≡ out.old.items ++ tail_text (bytes_text name.now ∷ decimal flags ∷ spell_more attributes (option_map attributes_values declared))) }
{
    write_name_and_flags(alloc, out, name, flags)?;
    write_more(out, declared)
}

// A name and open flags.
fn write_name_and_flags(
    alloc: Global,
    out: &mut Vec<u8>,
    name: &Bytes,
    flags: u32,
) -> Result<(), AllocError>
    ensures { OnOk result (out.new.items ≡ out.old.items ++ tail_text (bytes_text name.now ∷ decimal flags ∷ [])) }
{
    write_bytes(alloc, out, name.as_slice())?;
    write_number(out, flags as u64)
}

// The words of creation attributes, where there are any.
fn write_more(out: &mut Vec<u8>, declared: Option<CreationAttributes>) -> Result<(), AllocError>
    ensures { OnOk result (out.new.items ≡ out.old.items ++ tail_text (spell_more attributes (option_map attributes_values declared))) }
{
    match declared {
        None => Ok(()),
        Some(declared) => write_attributes(out, declared),
    }
}

// The six words of creation attributes.
fn write_attributes(out: &mut Vec<u8>, declared: CreationAttributes) -> Result<(), AllocError>
    ensures { OnOk result (out.new.items ≡ out.old.items ++ tail_text (spell_all attributes (attributes_values declared))) }
{
    write_number(out, declared.creation_flags as u64)?;
    write_number(out, declared.checkpoint_size)?;
    write_time(out, declared.retention_duration)?;
    write_number(out, declared.max_sections as u64)?;
    write_number(out, declared.max_section_size)?;
    write_number(out, declared.max_section_id_size)
}

// The first word, the client, and the place of a handle, with which most calls begin.
fn handle_call(out: &mut Vec<u8>, word: &[u8], client: u8, place: u8) -> Result<(), AllocError>
    ensures { OnOk result (out.new.items ≡ out.old.items ++ with_spaces (word.now ∷ spell a_client client ∷ spell a_place place ∷ [])) }
{
    out.extend_from_slice(word)?;
    write_client(out, client)?;
    write_place(out, place)
}

// The same, and a time.
fn timed_call(
    out: &mut Vec<u8>,
    word: &[u8],
    client: u8,
    place: u8,
    time: Moment,
) -> Result<(), AllocError>
    ensures { OnOk result (out.new.items ≡ out.old.items ++ with_spaces (word.now ∷ spell a_client client ∷ spell a_place place ∷ spell a_time time ∷ [])) }
{
    handle_call(out, word, client, place)?;
    write_time(out, time)
}

// The first word, the client, and the place of an iteration.
fn iteration_call(
    out: &mut Vec<u8>,
    word: &[u8],
    client: u8,
    iteration: u8,
) -> Result<(), AllocError>
    ensures { OnOk result (out.new.items ≡ out.old.items ++ with_spaces (word.now ∷ spell a_client client ∷ spell an_iteration iteration ∷ [])) }
{
    out.extend_from_slice(word)?;
    write_client(out, client)?;
    write_iteration(out, iteration)
}

#[tactic(auto, unfolding(crate::specs::Spelling::written_call))]
fn unlink_call(alloc: Global, out: &mut Vec<u8>, client: u8, name: &Bytes) -> Result<(), AllocError>
    ensures { OnOk result (out.new.items ≡ out.old.items ++ written_call client (ops.Unlink name.now)) }
{
    out.extend_from_slice(b"unlink")?;
    write_client(out, client)?;
    write_bytes(alloc, out, name.as_slice())
}

#[tactic(auto, unfolding(crate::specs::Spelling::written_call))]
fn iter_call(
    out: &mut Vec<u8>,
    client: u8,
    iteration: u8,
    place: u8,
    choice: u64,
    time: Moment,
) -> Result<(), AllocError>
    ensures { OnOk result (out.new.items ≡ out.old.items ++ written_call client (ops.Iter iteration place choice time)) }
{
    out.extend_from_slice(b"iter")?;
    write_client(out, client)?;
    write_iteration(out, iteration)?;
    write_place(out, place)?;
    write_number(out, choice)?;
    write_time(out, time)
}

#[tactic(auto, unfolding(crate::specs::Spelling::written_call))]
fn sync_async_call(
    out: &mut Vec<u8>,
    client: u8,
    place: u8,
    invocation: u64,
) -> Result<(), AllocError>
    ensures { OnOk result (out.new.items ≡ out.old.items ++ written_call client (ops.SyncAsync place invocation)) }
{
    handle_call(out, b"syncasync", client, place)?;
    write_number(out, invocation)
}

#[tactic(auto, unfolding(crate::specs::Spelling::written_call))]
fn dispatch_call(out: &mut Vec<u8>, client: u8, flags: u32) -> Result<(), AllocError>
    ensures { OnOk result (out.new.items ≡ out.old.items ++ written_call client (ops.Dispatch flags)) }
{
    out.extend_from_slice(b"dispatch")?;
    write_client(out, client)?;
    write_number(out, flags as u64)
}

#[tactic(auto, unfolding(crate::specs::Spelling::written_call))]
fn copy_call(out: &mut Vec<u8>, client: u8) -> Result<(), AllocError>
    ensures { OnOk result (out.new.items ≡ out.old.items ++ written_call client (ops.Copy)) }
{
    out.extend_from_slice(b"copy")?;
    write_node(out, client)
}

#[tactic(auto, unfolding(crate::specs::Spelling::written_call))]
fn read_call(
    alloc: Global,
    out: &mut Vec<u8>,
    client: u8,
    place: u8,
    elements: &[ReadElement],
) -> Result<(), AllocError>
    ensures { OnOk result (out.new.items ≡ out.old.items ++ written_call client (ops.Read place elements.now)) }
{
    handle_call(out, b"read", client, place)?;
    read_elements(alloc, out, elements)
}

// The words of an update: what it is tells the first.
fn write_update(
    alloc: Global,
    out: &mut Vec<u8>,
    client: u8,
    place: u8,
    update: &Update,
) -> Result<(), AllocError>
    ensures { OnOk result (out.new.items ≡ out.old.items ++ written_update client place update.now) }
{
    match update {
        Update::Write(elements) => elements_update(alloc, out, client, place, elements.as_slice()),
        Update::Overwrite(id, data) => overwrite_update(alloc, out, client, place, id, data),
        Update::Create(id, expiration, data) => {
            create_update(alloc, out, client, place, id, *expiration, data)
        }
        Update::Delete(id) => delete_update(alloc, out, client, place, id),
        Update::SetExpiration(id, expiration) => {
            expiration_update(alloc, out, client, place, id, *expiration)
        }
        Update::Nothing => nothing_update(out, client, place),
    }
}

#[tactic(auto, unfolding(crate::specs::Spelling::written_update))]
fn elements_update(
    alloc: Global,
    out: &mut Vec<u8>,
    client: u8,
    place: u8,
    elements: &[IoElement],
) -> Result<(), AllocError>
    ensures { OnOk result (out.new.items ≡ out.old.items ++ written_update client place (updates.Write elements.now)) }
{
    handle_call(out, b"write", client, place)?;
    io_elements(alloc, out, elements)
}

#[tactic(auto, unfolding(crate::specs::Spelling::written_update))]
fn overwrite_update(
    alloc: Global,
    out: &mut Vec<u8>,
    client: u8,
    place: u8,
    id: &Bytes,
    text: &Bytes,
) -> Result<(), AllocError>
    ensures { OnOk result (out.new.items ≡ out.old.items ++ written_update client place (updates.Overwrite id.now text.now)) }
{
    handle_call(out, b"over", client, place)?;
    write_id(alloc, out, id)?;
    write_bytes(alloc, out, text.as_slice())
}

#[tactic(auto, unfolding(crate::specs::Spelling::written_update))]
fn create_update(
    alloc: Global,
    out: &mut Vec<u8>,
    client: u8,
    place: u8,
    id: &NewId,
    expiration: Moment,
    text: &Bytes,
) -> Result<(), AllocError>
    ensures { OnOk result (out.new.items ≡ out.old.items ++ written_update client place (updates.Create id.now expiration text.now)) }
{
    handle_call(out, b"create", client, place)?;
    write_new_id(alloc, out, id)?;
    write_time(out, expiration)?;
    write_bytes(alloc, out, text.as_slice())
}

#[tactic(auto, unfolding(crate::specs::Spelling::written_update))]
fn delete_update(
    alloc: Global,
    out: &mut Vec<u8>,
    client: u8,
    place: u8,
    id: &Bytes,
) -> Result<(), AllocError>
    ensures { OnOk result (out.new.items ≡ out.old.items ++ written_update client place (updates.Delete id.now)) }
{
    handle_call(out, b"delete", client, place)?;
    write_id(alloc, out, id)
}

#[tactic(auto, unfolding(crate::specs::Spelling::written_update))]
fn expiration_update(
    alloc: Global,
    out: &mut Vec<u8>,
    client: u8,
    place: u8,
    id: &Bytes,
    expiration: Moment,
) -> Result<(), AllocError>
    ensures { OnOk result (out.new.items ≡ out.old.items ++ written_update client place (updates.SetExpiration id.now expiration)) }
{
    handle_call(out, b"expire", client, place)?;
    write_id(alloc, out, id)?;
    write_time(out, expiration)
}

#[tactic(auto, unfolding(crate::specs::Spelling::written_update))]
fn nothing_update(out: &mut Vec<u8>, client: u8, place: u8) -> Result<(), AllocError>
    ensures { OnOk result (out.new.items ≡ out.old.items ++ written_update client place (updates.Nothing)) }
{
    handle_call(out, b"write", client, place)
}

fn io_elements(alloc: Global, out: &mut Vec<u8>, elements: &[IoElement]) -> Result<(), AllocError>
    ensures { OnOk result (out.new.items ≡ out.old.items ++ tail_text (flat_map (spell_all io_group) (map io_values elements.now))) }
{
    for element in elements {
        io_element(alloc, out, element)?;
    }
    Ok(())
}

fn io_element(alloc: Global, out: &mut Vec<u8>, element: &IoElement) -> Result<(), AllocError>
    ensures { OnOk result (out.new.items ≡ out.old.items ++ tail_text (spell_all io_group (io_values element.now))) }
{
    write_id(alloc, out, &element.id)?;
    write_number(out, element.offset)?;
    write_bytes(alloc, out, element.bytes.as_slice())
}

fn read_elements(
    alloc: Global,
    out: &mut Vec<u8>,
    elements: &[ReadElement],
) -> Result<(), AllocError>
    ensures { OnOk result (out.new.items ≡ out.old.items ++ tail_text (flat_map (spell_all read_group) (map read_values elements.now))) }
{
    for element in elements {
        read_element(alloc, out, element)?;
    }
    Ok(())
}

fn read_element(alloc: Global, out: &mut Vec<u8>, element: &ReadElement) -> Result<(), AllocError>
    ensures { OnOk result (out.new.items ≡ out.old.items ++ tail_text (spell_all read_group (read_values element.now))) }
{
    write_id(alloc, out, &element.id)?;
    write_number(out, element.offset)?;
    write_number(out, element.len)
}
