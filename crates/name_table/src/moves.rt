//! Names are moved from one map into another, so that a name that goes gives its place back.
ghost use Rattle.std.specs.Prelude.{◌≡◌, ◌+◌, ◌≤◌, ◌<◌, ◌++◌, ◌∷◌, [], None, not, nat_eq};
ghost use Rattle.std.specs.Cmp.Lexicographic.{pointwise};
ghost use Rattle.indexmap.specs.IndexMap.{index_map_len, get, spare, IsEmpty};
ghost use Rattle.name_table.specs.Kept.{table_of};
ghost use Rattle.name_table.specs.Table.{name_taken_away, EachOnce};

use ckpt_types::{Bytes, CkptId};
use indexmap::IndexMap;

/// Puts a name that is absent behind the others, in a place that is spare.
#[tactic(auto, using(crate::proofs::MoveLemmas::goes_last))]
pub(crate) fn put_last(map: &mut IndexMap<Bytes, CkptId>, name: Bytes, id: CkptId)
    requires spare_place { 0 < spare map.old }
    requires absent { get (pointwise nat_eq) map.old name ≡ None }
    ensures last { map.new.entries ≡ map.old.entries ++ (name, id) ∷ [] }
    ensures one_place { spare map.old ≤ spare map.new + 1 }
{
    map.insert(name, id).unwrap();
}

/// Whether one name is another than the other.
fn is_another(name: &[u8], other: &Bytes) -> bool
    ensures { result ≡ not (pointwise nat_eq name.now other.now) }
{
    name != other.as_slice()
}

/// Moves all names but one into an empty map with room for them, and gives back every place that they had.
pub(crate) fn move_others(
    from: &mut IndexMap<Bytes, CkptId>,
    name: &[u8],
    to: &mut IndexMap<Bytes, CkptId>,
)
    requires empty { IsEmpty to.old }
    requires each_once { EachOnce (table_of from.old.entries) }
    requires room { index_map_len from.old ≤ spare to.old }
    ensures others { table_of to.new.entries ≡ name_taken_away name.now (table_of from.old.entries) }
    ensures room { spare to.old ≤ index_map_len to.new + spare to.new }
    ensures emptied { IsEmpty from.new }
    ensures given_back { index_map_len from.old + spare from.old ≤ spare from.new }
{
    for (other, id) in from.drain(..) {
        if is_another(name, &other) {
            put_last(to, other, id);
        }
    }
}
