//! The table of names, whose places are taken beforehand.
ghost use Rattle.std.specs.Prelude.{◌≡◌, ◌<◌, ◌≤◌, [], length, Some, None, IfOk};
ghost use Rattle.name_table.specs.Table.{found, linked, name_taken_away, EachOnce, OthersStay, places};

use crate::moves::{move_others, put_last};
use ckpt_types::{Bytes, CHECKPOINTS_MAX, CkptId};
use indexmap::IndexMap;
use std::alloc::{AllocError, Global};
use std::marker::Model;
use std::mem;

/// The names of the checkpoints, in the order in which they were linked.
#[derive(Drop)]
pub struct Names {
    linked: IndexMap<Bytes, CkptId>,
    /// Empty. The names move here when one of them goes, since a map does not give back the place of one alone.
    unused: IndexMap<Bytes, CkptId>,
}

impl Model for Names {
    ghost use Rattle.std.specs.Prelude.{List};
    ghost use Rattle.name_table.specs.Table.{NamedCkpt};
    ghost use Rattle.name_table.specs.Kept.{table_of, HasItsPlaces};

    ghost Value = { List NamedCkpt };

    ghost view = { λ names. table_of names.linked.entries };

    ghost invariant = { HasItsPlaces };
}

impl Names {
    /// An empty table. All memory that its names will need is taken here, but for the names themselves.
    pub fn new(alloc: Global) -> Result<Names, AllocError>
        ensures { IfOk result (λ names. names ≡ []) }
    {
        Ok(Names {
            linked: IndexMap::with_capacity(alloc, CHECKPOINTS_MAX)?,
            unused: IndexMap::with_capacity(alloc, CHECKPOINTS_MAX)?,
        })
    }

    /// How many names there are.
    pub fn len(&self) -> usize
        ensures len { result ≡ length self.now }
        ensures few { result ≤ places }
        ensures each_once { EachOnce self.now }
    {
        self.linked.len()
    }

    /// The checkpoint that the name is linked to.
    #[tactic(auto, using(crate::proofs::TableLemmas::found_in_entries))]
    pub fn look_up(&self, name: &Bytes) -> Option<CkptId>
        ensures found { result ≡ found name.now self.now }
        ensures each_once { EachOnce self.now }
    {
        self.linked.get(name).copied()
    }

    /// Links a name to a checkpoint. It takes no memory.
    pub fn link(&mut self, name: Bytes, id: CkptId)
        requires spare_place { length self.old < places }
        requires absent { found name self.old ≡ None }
        ensures linked { self.new ≡ linked name id self.old }
        ensures found { found name self.new ≡ Some id }
        ensures others { OthersStay name self.old self.new }
    {
        put_last(&mut self.linked, name, id);
    }

    /// Takes a name out, and gives the checkpoint that it was linked to. It takes no memory.
    pub fn unlink(&mut self, name: &Bytes) -> Option<CkptId>
        ensures found { result ≡ found name.now self.old }
        ensures unlinked { self.new ≡ name_taken_away name.now self.old }
        ensures gone { found name.now self.new ≡ None }
        ensures others { OthersStay name.now self.old self.new }
    {
        let id = self.look_up(name)?;
        self.take_out(name.as_slice());
        Some(id)
    }

    /// Takes the name of these bytes out, where it is linked. It takes no memory.
    pub fn take_out(&mut self, name: &[u8])
        ensures unlinked { self.new ≡ name_taken_away name.now self.old }
        ensures gone { found name.now self.new ≡ None }
        ensures others { OthersStay name.now self.old self.new }
    {
        move_others(&mut self.linked, name, &mut self.unused);
        mem::swap(&mut self.linked, &mut self.unused);
    }

    /// An equal table, with places of its own.
    pub fn copy(&self, alloc: Global) -> Result<Names, AllocError>
        ensures { IfOk result (λ names. names ≡ self.now) }
    {
        let mut copy = Names::new(alloc)?;
        for (name, id) in self.linked.iter() {
            copy.link(Bytes::from_slice(alloc, name.as_slice())?, *id);
        }
        Ok(copy)
    }
}
