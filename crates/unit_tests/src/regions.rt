//! A region at work: strings that grow, are cut, and are moved together in a buffer of 8 bytes.
ghost use Rattle.std.specs.Prelude.{◌≡◌, ◌<◌, [], length};

use crate::rows::holds;
use section_store::Region;
use std::alloc::AllocError;
use std::process::Abort;

/// Whether the string at a place has these bytes.
fn has(region: &Region, place: usize, bytes: &[u8]) -> bool
    requires { place < length region.now.strings }
{
    region.bytes(place) == bytes
}

/// Three strings fill the buffer, and the one in the middle is cut and grows again.
fn moves_together(rt: &impl Abort, region: &mut Region)
    requires { region.old ≡ record { strings = []; size = 8; spare = 3 } }
{
    region.push(b"abc");
    region.push(b"def");
    region.push(b"gh");
    holds(rt, 1, region.len() == 3);
    region.resize(0, 1);
    region.resize(1, 2);
    region.resize(2, 5);
    holds(rt, 2, has(region, 0, b"a"));
    holds(rt, 3, has(region, 1, b"de"));
    holds(rt, 4, has(region, 2, b"gh\0\0\0"));
    region.resize(2, 2);
    region.resize(1, 5);
    holds(rt, 5, has(region, 0, b"a"));
    holds(rt, 6, has(region, 1, b"de\0\0\0"));
    holds(rt, 7, has(region, 2, b"gh"));
}

/// A string in the middle of a full buffer grows by what another one loses.
fn turns(rt: &impl Abort, region: &mut Region)
    requires { region.old ≡ record { strings = []; size = 8; spare = 3 } }
{
    region.push(b"abcd");
    region.push(b"ef");
    region.push(b"gh");
    region.resize(2, 1);
    region.resize(0, 5);
    holds(rt, 11, has(region, 0, b"abcd\0"));
    holds(rt, 12, has(region, 1, b"ef"));
    holds(rt, 13, has(region, 2, b"g"));
}

/// Strings are put in and taken away at their places, and written.
fn changes(rt: &impl Abort, region: &mut Region)
    requires { region.old ≡ record { strings = []; size = 8; spare = 3 } }
{
    region.insert(0);
    region.resize(0, 3);
    region.write(0, 1, b"xy");
    region.insert(0);
    region.resize(0, 2);
    region.write(0, 0, b"uv");
    holds(rt, 21, has(region, 0, b"uv"));
    holds(rt, 22, has(region, 1, b"\0xy"));
    region.remove(0);
    holds(rt, 23, has(region, 0, b"\0xy"));
    region.resize(0, 8);
    holds(rt, 24, has(region, 0, b"\0xy\0\0\0\0\0"));
    region.clear();
    holds(rt, 25, region.len() == 0);
}

#[test]
fn strings_stay_as_they_are_where_they_are_moved_together(
    rt: HostRuntime,
) -> Result<(), AllocError> {
    let mut region = Region::reserve(rt.alloc(), 8, 3)?;
    moves_together(&rt, &mut region);
    Ok(())
}

#[test]
fn a_string_in_a_full_buffer_grows_by_what_another_loses(
    rt: HostRuntime,
) -> Result<(), AllocError> {
    let mut region = Region::reserve(rt.alloc(), 8, 3)?;
    turns(&rt, &mut region);
    Ok(())
}

#[test]
fn strings_are_put_in_and_taken_away_at_their_places(rt: HostRuntime) -> Result<(), AllocError> {
    let mut region = Region::reserve(rt.alloc(), 8, 3)?;
    changes(&rt, &mut region);
    Ok(())
}
