//! A load is put together.
ghost use Rattle.std.specs.Prelude.{◌≡◌, ◌≤◌, ◌++◌, OnOk, IfOk, map};
ghost use Rattle.script_lang.specs.BuiltScripts.{IsBuiltScript};
ghost use Rattle.load_script.specs.Load.{failure_lines, generated, load_max, numbers, opening_lines, section_made as spec_section_made, turn_read as spec_turn_read, turn_written as spec_turn_written};

use crate::lines::{
    checkpoint_made, checkpoint_opened, client_comes, one_written, section_made, turn_read,
    turn_written,
};
use ckpt_types::{ActorName, Vector, Who};
use script_lang::Script;
use script_lines::Line;
use std::alloc::{AllocError, Global};

/// The most writes of a load.
pub const LOAD_MAX: u32 = 4000;

const SECTIONS: u64 = 32;

/// How many lines a load has beside its writes and reads.
const OTHER_LINES: usize = 46;

/// The script of a load of so many writes and as many reads, from 1 to `LOAD_MAX`. Its only error is want of memory.
pub fn generate(alloc: Global, turns: u32) -> Result<Script, AllocError>
    requires some { 1 ≤ turns }
    requires few { turns ≤ load_max }
    ensures generated { IfOk result (λ script. script ≡ generated turns) }
    ensures built { IfOk result IsBuiltScript }
{
    let lines = load_lines(alloc, turns)?;
    Ok(Vector::from_vec(lines))
}

/// The lines of a load, in their order.
fn load_lines(alloc: Global, turns: u32) -> Result<Vec<Line>, AllocError>
    requires { turns ≤ load_max }
    ensures { IfOk result (λ lines. lines.items ≡ generated turns) }
{
    let turns = u64::from(turns);
    let mut lines = Vec::with_capacity(alloc, OTHER_LINES + 2 * turns as usize)?;
    add_opening(alloc, &mut lines)?;
    add_sections(alloc, &mut lines)?;
    add_writes(alloc, &mut lines, turns)?;
    add_failure(alloc, &mut lines)?;
    add_reads(alloc, &mut lines, turns)?;
    Ok(lines)
}

/// Adds the lines by which each client has the checkpoint open.
fn add_opening(alloc: Global, lines: &mut Vec<Line>) -> Result<(), AllocError>
    ensures { OnOk result (lines.new.items ≡ lines.old.items ++ opening_lines) }
{
    lines.push(Line::Nodes(4))?;
    lines.push(client_comes(0))?;
    lines.push(client_comes(1))?;
    lines.push(client_comes(2))?;
    lines.push(client_comes(3))?;
    lines.push(checkpoint_made(alloc)?)?;
    lines.push(checkpoint_opened(alloc, 1)?)?;
    lines.push(checkpoint_opened(alloc, 2)?)?;
    lines.push(checkpoint_opened(alloc, 3)?)?;
    Ok(())
}

/// Adds the lines that make the sections.
fn add_sections(alloc: Global, lines: &mut Vec<Line>) -> Result<(), AllocError>
    ensures { OnOk result (lines.new.items ≡ lines.old.items ++ map spec_section_made (numbers 32)) }
{
    for section in 0..SECTIONS {
        lines.push(section_made(alloc, section)?)?;
    }
    Ok(())
}

/// Adds so many writes.
fn add_writes(alloc: Global, lines: &mut Vec<Line>, turns: u64) -> Result<(), AllocError>
    requires { turns ≤ load_max }
    ensures { OnOk result (lines.new.items ≡ lines.old.items ++ map spec_turn_written (numbers turns)) }
{
    for turn in 0..turns {
        lines.push(turn_written(alloc, turn)?)?;
    }
    Ok(())
}

/// Adds the lines by which a node fails under a write, and comes back.
fn add_failure(alloc: Global, lines: &mut Vec<Line>) -> Result<(), AllocError>
    ensures { OnOk result (lines.new.items ≡ lines.old.items ++ failure_lines) }
{
    let client = ActorName::Client(0);
    lines.push(Line::Begin(client, one_written(alloc, 0, 0, b"zz")?))?;
    lines.push(Line::Step(Who::Actor(client), 6))?;
    lines.push(Line::Fail(0))?;
    lines.push(Line::Join(0))?;
    lines.push(Line::Copy(0))?;
    Ok(())
}

/// Adds so many reads.
fn add_reads(alloc: Global, lines: &mut Vec<Line>, turns: u64) -> Result<(), AllocError>
    requires { turns ≤ load_max }
    ensures { OnOk result (lines.new.items ≡ lines.old.items ++ map spec_turn_read (numbers turns)) }
{
    for turn in 0..turns {
        lines.push(turn_read(alloc, turn)?)?;
    }
    Ok(())
}
