//! The table of names where memory is there: a copy has the same names, and places of its own.
ghost use Rattle.std.specs.Prelude.{◌≡◌};

use crate::rows::{holds, met};
use ckpt_types::{Bytes, CHECKPOINTS_MAX, CkptId};
use name_table::Names;
use std::alloc::{AllocError, Global};
use std::process::Abort;

/// Links a name, where a place is spare and the name is absent. Whether it is linked.
fn links(names: &mut Names, alloc: Global, name: &[u8], id: CkptId) -> Result<bool, AllocError> {
    let name = Bytes::from_slice(alloc, name)?;
    if names.len() >= CHECKPOINTS_MAX {
        return Ok(false);
    }
    match names.look_up(&name) {
        Some(_other) => Ok(false),
        None => {
            names.link(name, id);
            Ok(true)
        }
    }
}

/// Whether the table finds this by a name.
fn finds(
    names: &Names,
    alloc: Global,
    name: &[u8],
    found: Option<CkptId>,
) -> Result<bool, AllocError> {
    let name = Bytes::from_slice(alloc, name)?;
    Ok(names.look_up(&name) == found)
}

/// Whether the table loses a name, which stood for this.
fn unlinks(names: &mut Names, alloc: Global, name: &[u8], id: CkptId) -> Result<bool, AllocError> {
    let name = Bytes::from_slice(alloc, name)?;
    Ok(names.unlink(&name) == Some(id))
}

/// Of two names one goes, and another comes.
fn change(rt: &impl Abort, alloc: Global, names: &mut Names) {
    met(rt, 3, unlinks(names, alloc, b"a", 1));
    met(rt, 4, links(names, alloc, b"c", 3));
}

/// Whether the table takes fourteen numbers for names.
fn links_many(names: &mut Names, alloc: Global) -> Result<bool, AllocError> {
    for number in 2..16u32 {
        if !links(names, alloc, &number.to_be_bytes(), number)? {
            return Ok(false);
        }
    }
    Ok(true)
}

/// The table has the two names still, and is filled up.
fn fill_up(rt: &impl Abort, alloc: Global, names: &mut Names) {
    met(rt, 5, finds(names, alloc, b"a", Some(1)));
    met(rt, 6, finds(names, alloc, b"b", Some(2)));
    met(rt, 7, finds(names, alloc, b"c", None));
    met(rt, 8, links_many(names, alloc));
    holds(rt, 9, names.len() == 16);
}

/// A table changes, and its copy is filled up.
fn go_apart(rt: &impl Abort, alloc: Global, names: &mut Names, copy: &mut Names) {
    change(rt, alloc, names);
    fill_up(rt, alloc, copy);
    holds(rt, 10, names.len() == 2);
}

fn copy_goes_apart(rt: &impl Abort, alloc: Global, names: &mut Names) -> Result<(), AllocError> {
    let mut copy = names.copy(alloc)?;
    go_apart(rt, alloc, names, &mut copy);
    Ok(())
}

/// A table gets two names.
fn link_two(rt: &impl Abort, alloc: Global, names: &mut Names) -> Result<(), AllocError> {
    met(rt, 1, links(names, alloc, b"a", 1));
    met(rt, 2, links(names, alloc, b"b", 2));
    copy_goes_apart(rt, alloc, names)
}

#[test]
fn a_copy_has_the_same_names_and_places_of_its_own(rt: HostRuntime) -> Result<(), AllocError> {
    let mut names = Names::new(rt.alloc())?;
    link_two(&rt, rt.alloc(), &mut names)
}
