//! The form of each call line: what its words say.
ghost use Rattle.std.specs.Prelude.{◌≡◌, ◌<◌, ◌≤◌, ◌*◌, ◌/◌, ◌%◌, ◌^◌, ◌⊎◌, length, drop, ◌∷◌, [], true};
ghost use Rattle.ckpt_types.specs.Limits.{line_elements_max};
ghost use Rattle.script_words.specs.Reasons.{Reads};
ghost use Rattle.script_words.specs.Words.{read_word, some_bytes};
ghost use Rattle.ckpt_types.specs.declared.words.FirstWord.TheVariants as first;
ghost use Rattle.ckpt_types.specs.declared.words.OpWord.TheVariants as calls;
ghost use Rattle.script_lines.specs.Readers.{Gives};
ghost use Rattle.script_lines.specs.Table.{texts, said_by, line_by, more_made, one_made, gather, attributes, attributes_of, io_group, io_element, read_group, read_element};
ghost use Rattle.script_lines.specs.Shapes.{counts_groups, handle_form, timed_form, iteration_form};

use crate::call_shapes::{HandleCall, IterationCall, TimedCall};
use crate::lines::Line;
use ckpt_types::{
    CreationAttributes, IoElement, IoVector, LINE_ELEMENTS_MAX, Op, ReadElement, ReadVector,
    Shared, SharedAttributes, SharedName, Update,
};
use script_words::{LineError, Reason};
use std::alloc::Global;

// The most that flags, and other numbers of 32 bits, say.
const FLAGS_MAX: u64 = 4_294_967_295;

/// The line that the words behind `client` say.
#[tactic(auto, unfolding(crate::specs::Table::said_by))]
pub fn client_line(words: &[&[u8]]) -> Result<Line, LineError>
    ensures { Reads result (said_by (first.Op calls.Client) (texts words.now)) }
{
    let [client, node, version, callbacks] = words else {
        return Err(LineError::Fault(Reason::Count));
    };
    client_words(client, node, version, callbacks)
}

// The same of its words.
#[tactic(auto, unfolding(crate::specs::Table::said_by))]
fn client_words(
    client: &[u8],
    node: &[u8],
    version: &[u8],
    callbacks: &[u8],
) -> Result<Line, LineError>
    ensures { Reads result (said_by (first.Op calls.Client) (client.now ∷ node.now ∷ version.now ∷ callbacks.now ∷ [])) }
{
    let client = script_words::client(client)?;
    let node = script_words::node(node)?;
    let version = script_words::version(version)?;
    let callbacks = script_words::callbacks(callbacks)?;
    Ok(Line::Call(client, Op::Client(node, version, callbacks)))
}

/// The line that the words behind `finalize` say.
#[tactic(auto, unfolding(crate::specs::Table::said_by))]
pub fn finalize_line(words: &[&[u8]]) -> Result<Line, LineError>
    ensures { Reads result (said_by (first.Op calls.Finalize) (texts words.now)) }
{
    let [client] = words else {
        return Err(LineError::Fault(Reason::Count));
    };
    let client = script_words::client(client)?;
    Ok(Line::Call(client, Op::Finalize))
}

/// The line that the words behind the first of a call that says a handle alone say.
#[inline(always)]
pub fn handle_line(call: HandleCall, words: &[&[u8]]) -> Result<Line, LineError>
    ensures { Reads result (line_by (handle_form call) (texts words.now)) }
{
    let [client, place] = words else {
        return Err(LineError::Fault(Reason::Count));
    };
    let client = script_words::client(client)?;
    let place = script_words::place(place)?;
    Ok(Line::Call(client, call.of(place)))
}

/// The line that the words behind the first of a call that says a handle and a time say.
#[inline(always)]
pub fn timed_line(call: TimedCall, words: &[&[u8]]) -> Result<Line, LineError>
    ensures { Reads result (line_by (timed_form call) (texts words.now)) }
{
    let [client, place, time] = words else {
        return Err(LineError::Fault(Reason::Count));
    };
    let client = script_words::client(client)?;
    let place = script_words::place(place)?;
    let time = script_words::time(time)?;
    Ok(Line::Call(client, call.of(place, time)))
}

/// The line that the words behind the first of a call that says an iteration alone say.
#[inline(always)]
pub fn iteration_line(call: IterationCall, words: &[&[u8]]) -> Result<Line, LineError>
    ensures { Reads result (line_by (iteration_form call) (texts words.now)) }
{
    let [client, iteration] = words else {
        return Err(LineError::Fault(Reason::Count));
    };
    let client = script_words::client(client)?;
    let iteration = script_words::iteration(iteration)?;
    Ok(Line::Call(client, call.of(iteration)))
}

/// The line that the words behind `unlink` say.
#[tactic(auto, unfolding(crate::specs::Table::said_by))]
pub fn unlink_line(alloc: Global, words: &[&[u8]]) -> Result<Line, LineError>
    ensures { Reads result (said_by (first.Op calls.Unlink) (texts words.now)) }
{
    let [client, name] = words else {
        return Err(LineError::Fault(Reason::Count));
    };
    let client = script_words::client(client)?;
    let name = shared_name(alloc, name)?;
    Ok(Line::Call(client, Op::Unlink(name)))
}

/// The line that the words behind `create` say.
#[tactic(auto, unfolding(crate::specs::Table::said_by))]
pub fn create_line(alloc: Global, words: &[&[u8]]) -> Result<Line, LineError>
    ensures { Reads result (said_by (first.Op calls.Create) (texts words.now)) }
{
    let [client, place, id, expiration, data] = words else {
        return Err(LineError::Fault(Reason::Count));
    };
    create_words(alloc, client, place, id, expiration, data)
}

// The same of its words.
#[tactic(auto, unfolding(crate::specs::Table::said_by))]
fn create_words(
    alloc: Global,
    client: &[u8],
    place: &[u8],
    id: &[u8],
    expiration: &[u8],
    bytes: &[u8],
) -> Result<Line, LineError>
    ensures { Reads result (said_by (first.Op calls.Create) (client.now ∷ place.now ∷ id.now ∷ expiration.now ∷ bytes.now ∷ [])) }
{
    let client = script_words::client(client)?;
    let place = script_words::place(place)?;
    let id = script_words::new_id(alloc, id)?;
    let expiration = script_words::time(expiration)?;
    let data = script_words::bytes(alloc, bytes)?;
    let update = Shared::new(alloc, Update::Create(id, expiration, data))?;
    Ok(Line::Call(client, Op::Create(place, update)))
}

/// The line that the words behind `delete` say.
#[tactic(auto, unfolding(crate::specs::Table::said_by))]
pub fn delete_line(alloc: Global, words: &[&[u8]]) -> Result<Line, LineError>
    ensures { Reads result (said_by (first.Op calls.Delete) (texts words.now)) }
{
    let [client, place, id] = words else {
        return Err(LineError::Fault(Reason::Count));
    };
    let client = script_words::client(client)?;
    let place = script_words::place(place)?;
    let id = script_words::id(alloc, id)?;
    let update = Shared::new(alloc, Update::Delete(id))?;
    Ok(Line::Call(client, Op::Delete(place, update)))
}

/// The line that the words behind `expire` say.
#[tactic(auto, unfolding(crate::specs::Table::said_by))]
pub fn expire_line(alloc: Global, words: &[&[u8]]) -> Result<Line, LineError>
    ensures { Reads result (said_by (first.Op calls.Expire) (texts words.now)) }
{
    let [client, place, id, expiration] = words else {
        return Err(LineError::Fault(Reason::Count));
    };
    expire_words(alloc, client, place, id, expiration)
}

// The same of its words.
#[tactic(auto, unfolding(crate::specs::Table::said_by))]
fn expire_words(
    alloc: Global,
    client: &[u8],
    place: &[u8],
    id: &[u8],
    expiration: &[u8],
) -> Result<Line, LineError>
    ensures { Reads result (said_by (first.Op calls.Expire) (client.now ∷ place.now ∷ id.now ∷ expiration.now ∷ [])) }
{
    let client = script_words::client(client)?;
    let place = script_words::place(place)?;
    let id = script_words::id(alloc, id)?;
    let expiration = script_words::time(expiration)?;
    let update = Shared::new(alloc, Update::SetExpiration(id, expiration))?;
    Ok(Line::Call(client, Op::Expire(place, update)))
}

/// The line that the words behind `iter` say.
#[tactic(auto, unfolding(crate::specs::Table::said_by))]
pub fn iter_line(words: &[&[u8]]) -> Result<Line, LineError>
    ensures { Reads result (said_by (first.Op calls.Iter) (texts words.now)) }
{
    let [client, iteration, place, choice, time] = words else {
        return Err(LineError::Fault(Reason::Count));
    };
    iter_words(client, iteration, place, choice, time)
}

// The same of its words.
#[tactic(auto, unfolding(crate::specs::Table::said_by))]
fn iter_words(
    client: &[u8],
    iteration: &[u8],
    place: &[u8],
    choice: &[u8],
    time: &[u8],
) -> Result<Line, LineError>
    ensures { Reads result (said_by (first.Op calls.Iter) (client.now ∷ iteration.now ∷ place.now ∷ choice.now ∷ time.now ∷ [])) }
{
    let client = script_words::client(client)?;
    let iteration = script_words::iteration(iteration)?;
    let place = script_words::place(place)?;
    let choice = script_words::number(0, u64::MAX, choice)?;
    let time = script_words::time(time)?;
    Ok(Line::Call(client, Op::Iter(iteration, place, choice, time)))
}

/// The line that the words behind `over` say.
#[tactic(auto, unfolding(crate::specs::Table::said_by))]
pub fn over_line(alloc: Global, words: &[&[u8]]) -> Result<Line, LineError>
    ensures { Reads result (said_by (first.Op calls.Over) (texts words.now)) }
{
    let [client, place, id, data] = words else {
        return Err(LineError::Fault(Reason::Count));
    };
    over_words(alloc, client, place, id, data)
}

// The same of its words.
#[tactic(auto, unfolding(crate::specs::Table::said_by))]
fn over_words(
    alloc: Global,
    client: &[u8],
    place: &[u8],
    id: &[u8],
    bytes: &[u8],
) -> Result<Line, LineError>
    ensures { Reads result (said_by (first.Op calls.Over) (client.now ∷ place.now ∷ id.now ∷ bytes.now ∷ [])) }
{
    let client = script_words::client(client)?;
    let place = script_words::place(place)?;
    let id = script_words::id(alloc, id)?;
    let data = script_words::bytes(alloc, bytes)?;
    let update = Shared::new(alloc, Update::Overwrite(id, data))?;
    Ok(Line::Call(client, Op::Over(place, update)))
}

/// The line that the words behind `syncasync` say.
#[tactic(auto, unfolding(crate::specs::Table::said_by))]
pub fn sync_async_line(words: &[&[u8]]) -> Result<Line, LineError>
    ensures { Reads result (said_by (first.Op calls.SyncAsync) (texts words.now)) }
{
    let [client, place, invocation] = words else {
        return Err(LineError::Fault(Reason::Count));
    };
    let client = script_words::client(client)?;
    let place = script_words::place(place)?;
    let invocation = script_words::number(0, u64::MAX, invocation)?;
    Ok(Line::Call(client, Op::SyncAsync(place, invocation)))
}

/// The line that the words behind `dispatch` say.
#[tactic(auto, unfolding(crate::specs::Table::said_by))]
pub fn dispatch_line(words: &[&[u8]]) -> Result<Line, LineError>
    ensures { Reads result (said_by (first.Op calls.Dispatch) (texts words.now)) }
{
    let [client, flags] = words else {
        return Err(LineError::Fault(Reason::Count));
    };
    let client = script_words::client(client)?;
    let flags = script_words::number(0, FLAGS_MAX, flags)?;
    Ok(Line::Call(client, Op::Dispatch(flags as u32)))
}

/// The line that the words behind `open` say.
#[tactic(auto, unfolding(crate::specs::Table::said_by))]
pub fn open_line(alloc: Global, words: &[&[u8]]) -> Result<Line, LineError>
    ensures { Reads result (said_by (first.Op calls.Open) (texts words.now)) }
{
    let [client, place, name, flags, timeout, rest @ ..] = words else {
        return Err(LineError::Fault(Reason::Count));
    };
    if rest.len() != 0 && rest.len() != 6 {
        return Err(LineError::Fault(Reason::Count));
    }
    open_words(alloc, client, place, name, flags, timeout, rest)
}

// The same of its words, and of those of creation attributes, where there are any.
#[tactic(auto, unfolding(crate::specs::Table::said_by))]
fn open_words(
    alloc: Global,
    client: &[u8],
    place: &[u8],
    name: &[u8],
    flags: &[u8],
    timeout: &[u8],
    rest: &[&[u8]],
) -> Result<Line, LineError>
    requires { (length rest.now ≡ 0) ⊎ (length rest.now ≡ 6) }
    ensures { Reads result (said_by (first.Op calls.Open) (client.now ∷ place.now ∷ name.now ∷ flags.now ∷ timeout.now ∷ texts rest.now)) }
{
    let client = script_words::client(client)?;
    let place = script_words::place(place)?;
    let name = shared_name(alloc, name)?;
    let flags = script_words::number(0, FLAGS_MAX, flags)?;
    let timeout = script_words::time(timeout)?;
    let attributes = shared_attributes(alloc, rest)?;
    let op = Op::Open(place, name, flags as u32, timeout, attributes);
    Ok(Line::Call(client, op))
}

/// The line that the words behind `openasync` say.
#[tactic(auto, unfolding(crate::specs::Table::said_by))]
pub fn open_async_line(alloc: Global, words: &[&[u8]]) -> Result<Line, LineError>
    ensures { Reads result (said_by (first.Op calls.OpenAsync) (texts words.now)) }
{
    let [client, place, invocation, name, flags, rest @ ..] = words else {
        return Err(LineError::Fault(Reason::Count));
    };
    if rest.len() != 0 && rest.len() != 6 {
        return Err(LineError::Fault(Reason::Count));
    }
    open_async_words(alloc, client, place, invocation, name, flags, rest)
}

// The same of its words, and of those of creation attributes, where there are any.
#[tactic(auto, unfolding(crate::specs::Table::said_by))]
fn open_async_words(
    alloc: Global,
    client: &[u8],
    place: &[u8],
    invocation: &[u8],
    name: &[u8],
    flags: &[u8],
    rest: &[&[u8]],
) -> Result<Line, LineError>
    requires { (length rest.now ≡ 0) ⊎ (length rest.now ≡ 6) }
    ensures { Reads result (said_by (first.Op calls.OpenAsync) (client.now ∷ place.now ∷ invocation.now ∷ name.now ∷ flags.now ∷ texts rest.now)) }
{
    let client = script_words::client(client)?;
    let place = script_words::place(place)?;
    let invocation = script_words::number(0, u64::MAX, invocation)?;
    let name = shared_name(alloc, name)?;
    let flags = script_words::number(0, FLAGS_MAX, flags)?;
    let attributes = shared_attributes(alloc, rest)?;
    let op = Op::OpenAsync(place, invocation, name, flags as u32, attributes);
    Ok(Line::Call(client, op))
}

// The name that a word says.
fn shared_name(alloc: Global, word: &[u8]) -> Result<SharedName, LineError>
    ensures { Reads result (read_word some_bytes word.now) }
{
    let name = script_words::bytes(alloc, word)?;
    Ok(Shared::new(alloc, name)?)
}

// The creation attributes that these words say, where there are any.
fn shared_attributes(alloc: Global, words: &[&[u8]]) -> Result<SharedAttributes, LineError>
    requires { (length words.now ≡ 0) ⊎ (length words.now ≡ 6) }
    ensures { Reads result (more_made attributes attributes_of (texts words.now)) }
{
    if words.is_empty() {
        return Ok(Shared::new(alloc, None)?);
    }
    six_attributes(alloc, words)
}

// The same of six words.
fn six_attributes(alloc: Global, words: &[&[u8]]) -> Result<SharedAttributes, LineError>
    requires { length words.now ≡ 6 }
    ensures { Reads result (more_made attributes attributes_of (texts words.now)) }
{
    let [flags, size, retention, sections, section_size, id_size] = words else {
        unreachable!()
    };
    attributes_in(
        alloc,
        flags,
        size,
        retention,
        sections,
        section_size,
        id_size,
    )
}

// The creation attributes that six words say.
fn attributes_in(
    alloc: Global,
    flags: &[u8],
    size: &[u8],
    retention: &[u8],
    sections: &[u8],
    section_size: &[u8],
    id_size: &[u8],
) -> Result<SharedAttributes, LineError>
    ensures { Reads result (more_made attributes attributes_of (flags.now ∷ size.now ∷ retention.now ∷ sections.now ∷ section_size.now ∷ id_size.now ∷ [])) }
{
    let creation_flags = script_words::number(0, FLAGS_MAX, flags)?;
    let checkpoint_size = script_words::number(0, u64::MAX, size)?;
    let retention_duration = script_words::time(retention)?;
    let max_sections = script_words::number(0, FLAGS_MAX, sections)?;
    let max_section_size = script_words::number(0, u64::MAX, section_size)?;
    let max_section_id_size = script_words::number(0, u64::MAX, id_size)?;
    let declared = CreationAttributes {
        creation_flags: creation_flags as u32,
        checkpoint_size,
        retention_duration,
        max_sections: max_sections as u32,
        max_section_size,
        max_section_id_size,
    };
    Ok(Shared::new(alloc, Some(declared))?)
}

/// The line that the words behind `write` say.
#[tactic(auto, unfolding(crate::specs::Table::said_by))]
pub fn write_line(alloc: Global, words: &[&[u8]]) -> Result<Line, LineError>
    ensures { Reads result (said_by (first.Op calls.Write) (texts words.now)) }
{
    let [client, place, rest @ ..] = words else {
        return Err(LineError::Fault(Reason::Count));
    };
    if !are_groups(rest) {
        return Err(LineError::Fault(Reason::Count));
    }
    write_words(alloc, client, place, rest)
}

// The same of its words, in groups of three.
#[inline(always)]
#[tactic(auto, unfolding(crate::specs::Table::said_by))]
fn write_words(
    alloc: Global,
    client: &[u8],
    place: &[u8],
    rest: &[&[u8]],
) -> Result<Line, LineError>
    requires { counts_groups (length rest.now) ≡ true }
    ensures { Reads result (said_by (first.Op calls.Write) (client.now ∷ place.now ∷ texts rest.now)) }
{
    let client = script_words::client(client)?;
    let place = script_words::place(place)?;
    let elements = io_elements(alloc, rest)?;
    let update = Shared::new(alloc, Update::Write(elements))?;
    Ok(Line::Call(client, Op::Write(place, update)))
}

// Whether there are words for one element or more, three for each, and not too many.
#[inline(always)]
fn are_groups(words: &[&[u8]]) -> bool
    ensures { result ≡ counts_groups (length words.now) }
{
    if words.is_empty() || words.len() % 3 != 0 {
        return false;
    }
    words.len() <= 3 * LINE_ELEMENTS_MAX
}

// The elements that the words say, three words each. One alone lies in place.
fn io_elements(alloc: Global, words: &[&[u8]]) -> Result<IoVector, LineError>
    requires { (length words.now % 3 ≡ 0) × (length words.now ≤ 3 * line_elements_max) }
    ensures { Reads result (gather io_group io_element (length words.now / 3) (texts words.now)) }
{
    if words.len() != 3 {
        return several_io_elements(alloc, words);
    }
    let element = io_element_at(alloc, words)?;
    Ok(IoVector::one(element))
}

// It stays apart, so that the common line pays for no local of this one.
#[inline(never)]
fn several_io_elements(alloc: Global, words: &[&[u8]]) -> Result<IoVector, LineError>
    requires { (length words.now % 3 ≡ 0) × (length words.now ≤ 3 * line_elements_max) }
    ensures { Reads result (gather io_group io_element (length words.now / 3) (texts words.now)) }
{
    let count = words.len() / 3;
    let mut elements = Vec::with_capacity(alloc, count)?;
    for i in 0..count {
        let element = io_element_at(alloc, &words[3 * i..])?;
        elements.push(element)?;
    }
    Ok(IoVector::from_vec(elements))
}

// The element that the first words say.
#[inline(always)]
fn io_element_at(alloc: Global, words: &[&[u8]]) -> Result<IoElement, LineError>
    requires { 3 ≤ length words.now }
    ensures { Gives (λ e. (e, texts (drop 3 words.now))) result (one_made io_group io_element (texts words.now)) }
{
    let [id, offset, data, ..] = words else {
        unreachable!()
    };
    let id = script_words::id(alloc, id)?;
    let offset = script_words::number(0, u64::MAX, offset)?;
    let bytes = script_words::bytes(alloc, data)?;
    Ok(IoElement { id, offset, bytes })
}

/// The line that the words behind `read` say.
#[tactic(auto, unfolding(crate::specs::Table::said_by))]
pub fn read_line(alloc: Global, words: &[&[u8]]) -> Result<Line, LineError>
    ensures { Reads result (said_by (first.Op calls.Read) (texts words.now)) }
{
    let [client, place, rest @ ..] = words else {
        return Err(LineError::Fault(Reason::Count));
    };
    if !are_groups(rest) {
        return Err(LineError::Fault(Reason::Count));
    }
    read_words(alloc, client, place, rest)
}

// The same of its words, in groups of three.
#[inline(always)]
#[tactic(auto, unfolding(crate::specs::Table::said_by))]
fn read_words(alloc: Global, client: &[u8], place: &[u8], rest: &[&[u8]]) -> Result<Line, LineError>
    requires { counts_groups (length rest.now) ≡ true }
    ensures { Reads result (said_by (first.Op calls.Read) (client.now ∷ place.now ∷ texts rest.now)) }
{
    let client = script_words::client(client)?;
    let place = script_words::place(place)?;
    let elements = read_elements(alloc, rest)?;
    let elements = Shared::new(alloc, elements)?;
    Ok(Line::Call(client, Op::Read(place, elements)))
}

// The elements that the words say, three words each. One alone lies in place.
fn read_elements(alloc: Global, words: &[&[u8]]) -> Result<ReadVector, LineError>
    requires { (length words.now % 3 ≡ 0) × (length words.now ≤ 3 * line_elements_max) }
    ensures { Reads result (gather read_group read_element (length words.now / 3) (texts words.now)) }
{
    if words.len() != 3 {
        return several_read_elements(alloc, words);
    }
    let element = read_element_at(alloc, words)?;
    Ok(ReadVector::one(element))
}

// It stays apart, so that the common line pays for no local of this one.
#[inline(never)]
fn several_read_elements(alloc: Global, words: &[&[u8]]) -> Result<ReadVector, LineError>
    requires { (length words.now % 3 ≡ 0) × (length words.now ≤ 3 * line_elements_max) }
    ensures { Reads result (gather read_group read_element (length words.now / 3) (texts words.now)) }
{
    let count = words.len() / 3;
    let mut elements = Vec::with_capacity(alloc, count)?;
    for i in 0..count {
        let element = read_element_at(alloc, &words[3 * i..])?;
        elements.push(element)?;
    }
    Ok(ReadVector::from_vec(elements))
}

// The element that the first words say.
#[inline(always)]
fn read_element_at(alloc: Global, words: &[&[u8]]) -> Result<ReadElement, LineError>
    requires { 3 ≤ length words.now }
    ensures { Gives (λ e. (e, texts (drop 3 words.now))) result (one_made read_group read_element (texts words.now)) }
{
    let [id, offset, len, ..] = words else {
        unreachable!()
    };
    let id = script_words::id(alloc, id)?;
    let offset = script_words::number(0, u64::MAX, offset)?;
    let len = script_words::number(0, u64::MAX, len)?;
    Ok(ReadElement { id, offset, len })
}
