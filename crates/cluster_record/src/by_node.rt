//! At which node a call that goes from node to node is next.
ghost use Rattle.std.specs.Prelude.{◌≡◌, ◌<◌, IfSome, is_some};
ghost use Rattle.ckpt_types.specs.Limits.{nodes_max};
ghost use Rattle.cluster_record.specs.StepDone.{lacks, has, first_lacking, last_having, HasNoneAbove};

use ckpt_types::{NODES_MAX, NodeId};

/// The lowest of these nodes that the call lacks: with an incarnation that it does not have there.
#[inline(always)]
pub fn first_lacking(nodes: &[u32; NODES_MAX], own: &[u32; NODES_MAX]) -> Option<NodeId>
    ensures value { result ≡ first_lacking 0 nodes.now own.now }
    ensures within { IfSome result (λ r. r < nodes_max) }
{
    for r in 0..NODES_MAX as u8 {
        if lacks(nodes[r as usize], own[r as usize]) {
            return Some(r);
        }
    }
    None
}

/// The highest of these nodes that the call has, which has none above `top`.
pub fn last_having(nodes: &[u32; NODES_MAX], own: &[u32; NODES_MAX], top: NodeId) -> Option<NodeId>
    requires top { top < nodes_max }
    requires none { HasNoneAbove top own.now }
    ensures value { result ≡ last_having 0 nodes.now own.now }
    ensures within { IfSome result (λ r. r < nodes_max) }
{
    for r in (0..top + 1).rev() {
        if has(nodes[r as usize], own[r as usize]) {
            return Some(r);
        }
    }
    None
}

/// Whether the call has any of these nodes, which has none above `top`.
pub fn has_any(nodes: &[u32; NODES_MAX], own: &[u32; NODES_MAX], top: NodeId) -> bool
    requires top { top < nodes_max }
    requires none { HasNoneAbove top own.now }
    ensures { result ≡ is_some (last_having 0 nodes.now own.now) }
{
    for r in 0..top + 1 {
        if has(nodes[r as usize], own[r as usize]) {
            return true;
        }
    }
    false
}

fn lacks(incarnation: u32, own: u32) -> bool
    ensures { result ≡ lacks incarnation own }
{
    incarnation != 0 && incarnation != own
}

fn has(incarnation: u32, own: u32) -> bool
    ensures { result ≡ has incarnation own }
{
    incarnation != 0 && incarnation == own
}
