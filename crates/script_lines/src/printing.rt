//! How each line is spelled.
ghost use Rattle.std.specs.Prelude.{◌≡◌, ◌++◌, ◌∷◌, [], OnOk};
ghost use Rattle.ckpt_types.specs.declared.identities.ActorName.TheVariants as actors;
ghost use Rattle.script_lines.specs.declared.lines.Line.TheVariants as said;
ghost use Rattle.script_words.specs.Spelling.{spell};
ghost use Rattle.script_words.specs.Words.{a_ckpt, a_node};
ghost use Rattle.script_lines.specs.Spelling.{line_text, with_spaces, written_line};

use crate::call_printing::write_call;
use crate::lines::Line;
use ckpt_types::{ActorName, CkptId, Moment, NodeId, Op, Who};
use script_words::{write_ckpt, write_node, write_number, write_time, write_who};
use std::alloc::{AllocError, Global};

/// Writes the one spelling of a line: its words with one space between two, bytes as `x` and lower-case digits.
#[tactic(auto, using(crate::proofs::Canonical::line_so))]
pub fn write_line(alloc: Global, out: &mut Vec<u8>, line: &Line) -> Result<(), AllocError>
    ensures { OnOk result (out.new.items ≡ out.old.items ++ line_text line.now) }
{
    write_words(alloc, out, line)
}

fn write_words(alloc: Global, out: &mut Vec<u8>, line: &Line) -> Result<(), AllocError>
    ensures { OnOk result (out.new.items ≡ out.old.items ++ written_line line.now) }
{
    match line {
        Line::Nodes(count) => nodes_line(out, *count),
        Line::Call(client, op) => call_line(alloc, out, *client, op),
        Line::Begin(actor, op) => begin_line(alloc, out, *actor, op),
        Line::Step(who, steps) => step_line(out, *who, *steps),
        Line::Finish(who) => finish_line(out, *who),
        Line::Copy(node) => node_line(out, b"copy", *node),
        Line::Fail(node) => node_line(out, b"fail", *node),
        Line::Join(node) => node_line(out, b"join", *node),
        Line::At(moment) => at_line(out, *moment),
        Line::Pull(ckpt) => ckpt_line(out, b"pull", *ckpt),
        Line::Put(ckpt, node) => put_line(out, *ckpt, *node),
        Line::Propagate(ckpt) => ckpt_line(out, b"propagate", *ckpt),
        Line::Show(ckpt) => ckpt_line(out, b"show", *ckpt),
        Line::Race => race_line(out),
        Line::End => end_line(out),
    }
}

#[tactic(auto, unfolding(crate::specs::Spelling::written_line, crate::specs::Spelling::written_call))]
fn call_line(alloc: Global, out: &mut Vec<u8>, client: u8, op: &Op) -> Result<(), AllocError>
    ensures { OnOk result (out.new.items ≡ out.old.items ++ written_line (said.Call client op.now)) }
{
    write_call(alloc, out, client, op)
}

fn begin_line(alloc: Global, out: &mut Vec<u8>, actor: ActorName, op: &Op) -> Result<(), AllocError>
    ensures { OnOk result (out.new.items ≡ out.old.items ++ written_line (said.Begin actor op.now)) }
{
    match actor {
        ActorName::Client(client) => begin_call_line(alloc, out, client, op),
        ActorName::Node(node) => begin_copy_line(out, node, op),
    }
}

#[tactic(auto, unfolding(crate::specs::Spelling::written_line, crate::specs::Spelling::written_call))]
fn begin_call_line(alloc: Global, out: &mut Vec<u8>, client: u8, op: &Op) -> Result<(), AllocError>
    ensures { OnOk result (out.new.items ≡ out.old.items ++ written_line (said.Begin (actors.Client client) op.now)) }
{
    out.extend_from_slice(b"begin ")?;
    write_call(alloc, out, client, op)
}

#[tactic(auto, unfolding(crate::specs::Spelling::written_line))]
fn begin_copy_line(out: &mut Vec<u8>, node: NodeId, op: &Op) -> Result<(), AllocError>
    ensures { OnOk result (out.new.items ≡ out.old.items ++ written_line (said.Begin (actors.Node node) op.now)) }
{
    let _ = op;
    out.extend_from_slice(b"begin copy")?;
    write_node(out, node)
}

#[tactic(auto, unfolding(crate::specs::Spelling::written_line))]
fn nodes_line(out: &mut Vec<u8>, count: u8) -> Result<(), AllocError>
    ensures { OnOk result (out.new.items ≡ out.old.items ++ written_line (said.Nodes count)) }
{
    out.extend_from_slice(b"nodes")?;
    write_number(out, count as u64)
}

#[tactic(auto, unfolding(crate::specs::Spelling::written_line))]
fn step_line(out: &mut Vec<u8>, who: Who, steps: u32) -> Result<(), AllocError>
    ensures { OnOk result (out.new.items ≡ out.old.items ++ written_line (said.Step who steps)) }
{
    out.extend_from_slice(b"step")?;
    write_who(out, who)?;
    write_number(out, steps as u64)
}

#[tactic(auto, unfolding(crate::specs::Spelling::written_line))]
fn finish_line(out: &mut Vec<u8>, who: Who) -> Result<(), AllocError>
    ensures { OnOk result (out.new.items ≡ out.old.items ++ written_line (said.Finish who)) }
{
    out.extend_from_slice(b"finish")?;
    write_who(out, who)
}

// A first word and a node.
fn node_line(out: &mut Vec<u8>, word: &[u8], node: NodeId) -> Result<(), AllocError>
    ensures { OnOk result (out.new.items ≡ out.old.items ++ with_spaces (word.now ∷ spell a_node node ∷ [])) }
{
    out.extend_from_slice(word)?;
    write_node(out, node)
}

// A first word and a checkpoint.
fn ckpt_line(out: &mut Vec<u8>, word: &[u8], ckpt: CkptId) -> Result<(), AllocError>
    ensures { OnOk result (out.new.items ≡ out.old.items ++ with_spaces (word.now ∷ spell a_ckpt ckpt ∷ [])) }
{
    out.extend_from_slice(word)?;
    write_ckpt(out, ckpt)
}

#[tactic(auto, unfolding(crate::specs::Spelling::written_line))]
fn at_line(out: &mut Vec<u8>, moment: Moment) -> Result<(), AllocError>
    ensures { OnOk result (out.new.items ≡ out.old.items ++ written_line (said.At moment)) }
{
    out.extend_from_slice(b"at")?;
    write_time(out, moment)
}

#[tactic(auto, unfolding(crate::specs::Spelling::written_line))]
fn put_line(out: &mut Vec<u8>, ckpt: CkptId, node: NodeId) -> Result<(), AllocError>
    ensures { OnOk result (out.new.items ≡ out.old.items ++ written_line (said.Put ckpt node)) }
{
    out.extend_from_slice(b"put")?;
    write_ckpt(out, ckpt)?;
    write_node(out, node)
}

#[tactic(auto, unfolding(crate::specs::Spelling::written_line))]
fn race_line(out: &mut Vec<u8>) -> Result<(), AllocError>
    ensures { OnOk result (out.new.items ≡ out.old.items ++ written_line (said.Race)) }
{
    out.extend_from_slice(b"race")
}

#[tactic(auto, unfolding(crate::specs::Spelling::written_line))]
fn end_line(out: &mut Vec<u8>) -> Result<(), AllocError>
    ensures { OnOk result (out.new.items ≡ out.old.items ++ written_line (said.End)) }
{
    out.extend_from_slice(b"end")
}
