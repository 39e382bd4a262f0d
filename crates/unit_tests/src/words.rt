//! A word of each class is read and written. What every other word says stands in WordRows of script_words.
use crate::rows::holds;
use ckpt_types::{ActorName, Bytes, CallId, CallbackSet, NEVER, NewId, Version, Who};
use script_words::{
    LineError, bytes, callbacks, ckpt, client, id, iteration, moment, new_id, node, number, place,
    time, version, who, write_bytes, write_callbacks, write_ckpt, write_client, write_id,
    write_iteration, write_new_id, write_node, write_number, write_place, write_time,
    write_version, write_who,
};
use std::alloc::{AllocError, Global};
use std::process::Abort;

const B_2_10: Version = Version {
    release: b'B',
    major: 2,
    minor: 10,
};

const SYNC: CallbackSet = CallbackSet {
    opens: false,
    syncs: true,
};

const C0_5: Who = Who::Call(CallId {
    actor: ActorName::Client(0),
    number: 5,
});

/// The bytes that words say, one behind another.
fn said(alloc: Global) -> Result<Vec<u8>, LineError> {
    let mut out = Vec::new(alloc);
    out.extend_from_slice(bytes(alloc, b"xfF0a")?.as_slice())?;
    out.extend_from_slice(id(alloc, b"'~'x")?.as_slice())?;
    if let NewId::Given(id) = new_id(alloc, b"x0fA0")? {
        out.extend_from_slice(id.as_slice())?;
    }
    Ok(out)
}

/// Words that name something.
fn names_are_read(rt: &impl Abort) {
    holds(rt, 1, client(b"c99") == Ok(99));
    holds(rt, 2, node(b"n7") == Ok(7));
    holds(rt, 3, place(b"h99") == Ok(99));
    holds(rt, 4, iteration(b"i99") == Ok(99));
    holds(rt, 5, ckpt(b"K9999") == Ok(9999));
}

/// Words that say a number or more.
fn values_are_read(rt: &impl Abort) {
    holds(rt, 6, number(0, 9, b"9") == Ok(9));
    holds(rt, 7, time(b"-1") == Ok(-1));
    holds(rt, 8, moment(b"0") == Ok(0));
    holds(rt, 9, version(b"B.2.10") == Ok(B_2_10));
    holds(rt, 10, callbacks(b"sync") == Ok(SYNC));
    holds(rt, 11, who(b"c0.5") == Ok(C0_5));
}

/// Whether the bytes are read, and there is memory for them.
fn bytes_are_read(alloc: Global) -> bool {
    match said(alloc) {
        Ok(out) => out.as_slice() == b"\xff\x0a~'x\x0f\xa0".as_slice(),
        Err(_refused) => false,
    }
}

#[test]
fn a_word_of_each_class_is_read(rt: HostRuntime) {
    names_are_read(&rt);
    values_are_read(&rt);
    holds(&rt, 12, bytes_are_read(rt.alloc()));
}

/// Writes a word of each class that names something.
fn write_names(out: &mut Vec<u8>) -> Result<(), AllocError> {
    write_client(out, 9)?;
    write_node(out, 7)?;
    write_place(out, 8)?;
    write_iteration(out, 1)?;
    write_ckpt(out, 9999)
}

/// Writes a number, and a word of each class that says bytes.
fn write_texts(alloc: Global, out: &mut Vec<u8>) -> Result<(), AllocError> {
    write_number(out, 70)?;
    write_bytes(alloc, out, &[0, 171, 255])?;
    write_id(alloc, out, &Bytes::default())?;
    write_new_id(alloc, out, &NewId::Generated)
}

/// Writes the words of the other classes.
fn write_others(out: &mut Vec<u8>) -> Result<(), AllocError> {
    write_time(out, NEVER)?;
    write_time(out, -7)?;
    write_version(out, B_2_10)?;
    write_callbacks(out, SYNC)?;
    write_who(out, C0_5)
}

/// Writes a word of each class.
fn write_each(alloc: Global, out: &mut Vec<u8>) -> Result<(), AllocError> {
    write_names(out)?;
    write_texts(alloc, out)?;
    write_others(out)
}

const WRITTEN: &[u8] = b" c9 n7 h8 i1 K9999 70 x00abff x gen end -7 B.2.10 sync c0.5";

#[test]
fn words_have_one_spelling(rt: HostRuntime) -> Result<(), AllocError> {
    let mut out = Vec::new(rt.alloc());
    write_each(rt.alloc(), &mut out)?;
    holds(&rt, 1, out.as_slice() == WRITTEN);
    Ok(())
}
