//! What all clients keep: the tables of c0 to c99.
ghost use Rattle.std.specs.Prelude.{◌≡◌, ◌<◌, IfOk, Some, length, map, replicate, slice_get};
ghost use Rattle.std.specs.Borrow.{sem};
ghost use Rattle.ckpt_types.specs.Limits.{client_numbers};
ghost use Rattle.client_calls.specs.NewTable.{new_table};
ghost use Rattle.client_calls.specs.TableState.{client_part};
ghost use Rattle.cluster_record.specs.Failing.{goes_with_node};
ghost use Rattle.world_core.specs.Failing.{tables_left};
ghost use Rattle.world_core.specs.TableLending.{LendsTable};
ghost use Rattle.world_core.specs.TakenApart.{next_part};

use ckpt_types::{CLIENT_NUMBERS, NodeId};
use client_calls::Table;
use client_handles::Client;
use cluster_record::Record;
use std::alloc::{AllocError, Global};
use std::marker::Model;

/// The tables of the clients c0 to c99.
#[derive(Drop)]
pub struct Tables {
    list: Vec<Table>,
}

impl Model for Tables {
    ghost use Rattle.std.specs.Prelude.{List, length, ◌≡◌};
    ghost use Rattle.ckpt_types.specs.Limits.{client_numbers};
    ghost use Rattle.client_calls.specs.TableState.{TableState};

    ghost Value = { List TableState };

    ghost view = { λ tables. tables.list.items };

    ghost invariant = { λ tables. length tables.list.items ≡ client_numbers };
}

impl Tables {
    /// The tables of clients that have begun no call. The room of a client is taken later.
    pub fn new(alloc: Global) -> Result<Tables, AllocError>
        ensures { IfOk result (λ tables. tables ≡ replicate client_numbers new_table) }
    {
        Ok(Tables {
            list: new_tables(alloc)?,
        })
    }

    /// Equal tables, with as much room for each client.
    pub fn copy(&self, alloc: Global) -> Result<Tables, AllocError>
        ensures { IfOk result (λ copy. copy ≡ self.now) }
    {
        Ok(Tables {
            list: copy_tables(alloc, self.list.as_slice())?,
        })
    }

    /// By client, the number of its next call.
    pub fn numbers(&self, alloc: Global) -> Result<Vec<u32>, AllocError>
        ensures { IfOk result (λ numbers. numbers.items ≡ map next_part self.now) }
    {
        numbers_of(alloc, self.list.as_slice())
    }

    /// By client, its handles, iterations and places; nothing before their room was taken.
    pub fn into_clients(self, alloc: Global) -> Result<Vec<Option<Client>>, AllocError>
        ensures { IfOk result (λ clients. clients.items ≡ map client_part self) }
    {
        clients_of(alloc, self.list)
    }

    /// What a client keeps.
    #[inline(always)]
    pub fn get(&self, c: u8) -> &Table
        requires { c < client_numbers }
        ensures { slice_get self.now c ≡ Some result.now }
    {
        &self.list[c as usize]
    }

    /// The table of a client.
    #[inline(always)]
    pub fn at(&mut self, c: u8) -> &mut Table
        requires { c < client_numbers }
        ensures* lends { sem 𝓛 (LendsTable self.entry c result) }
        ensures value { slice_get self.old c ≡ Some result.now }
    {
        &mut self.list[c as usize]
    }

    /// The clients that are live on a node go with it. It takes no memory.
    pub fn cut_off(&mut self, cluster: &Record, node: NodeId)
        ensures { self.new ≡ tables_left (goes_with_node cluster.now node) self.old }
    {
        cut_off(self.list.as_mut_slice(), cluster, node);
    }
}

fn cut_off(tables: &mut [Table], cluster: &Record, node: NodeId)
    requires { length tables.old ≡ client_numbers }
    ensures { tables.new ≡ tables_left (goes_with_node cluster.now node) tables.old }
{
    for c in 0..CLIENT_NUMBERS as u8 {
        tables[c as usize].cut_off(cluster, c, node);
    }
}

fn copy_tables(alloc: Global, tables: &[Table]) -> Result<Vec<Table>, AllocError>
    ensures { IfOk result (λ copies. copies.items ≡ tables.now) }
{
    let mut copies = Vec::with_capacity(alloc, tables.len())?;
    for table in tables {
        copies.push_reserved(table.copy(alloc)?);
    }
    Ok(copies)
}

fn numbers_of(alloc: Global, tables: &[Table]) -> Result<Vec<u32>, AllocError>
    ensures { IfOk result (λ numbers. numbers.items ≡ map next_part tables.now) }
{
    let mut numbers = Vec::with_capacity(alloc, tables.len())?;
    for table in tables {
        numbers.push_reserved(table.number());
    }
    Ok(numbers)
}

fn clients_of(alloc: Global, tables: Vec<Table>) -> Result<Vec<Option<Client>>, AllocError>
    ensures { IfOk result (λ clients. clients.items ≡ map client_part tables.items) }
{
    tables
        .into_iter()
        .map(|table| table.into_client())
        .collect(alloc)
}

fn new_tables(alloc: Global) -> Result<Vec<Table>, AllocError>
    ensures { IfOk result (λ tables. tables.items ≡ replicate client_numbers new_table) }
{
    let mut tables = Vec::with_capacity(alloc, CLIENT_NUMBERS)?;
    for _n in 0..CLIENT_NUMBERS {
        tables.push_reserved(Table::new());
    }
    Ok(tables)
}
