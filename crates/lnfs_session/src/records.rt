//! The records of the clients of all levels, found by their identifiers and by their owners (RFC 8881
//! section 18.35.4).
ghost use Rattle.std.specs.Prelude.{◌≡◌, ◌<◌, OnOk, OnErr, IfOk, not, filter, map, option_map};
ghost use Rattle.std.specs.List.{find};
ghost use Rattle.lnfs_world.specs.World.{client_at, last_of, same_id};
ghost use Rattle.lnfs_operations.specs.ExchangeId.{is_confirmed_as, is_pending, others_of};
ghost use Rattle.lnfs_rows.specs.Told as told;
ghost use Rattle.lnfs_rows.specs.Lasts.{given_of, each_of};
ghost use Rattle.lnfs_session.specs.Listed.{id_of, client_of, kept_of};
ghost use Rattle.lnfs_session.specs.Standing.{answered, reclaimed, seen_at, clients_set};
ghost use Rattle.lnfs_session.specs.Records.{no_clients, next_id, pending_replaced, replaced_by, with_confirmed};
ghost use Rattle.lnfs_session.specs.Makes.{MakesRecords};

use crate::client_rows::{add_new, drop_any, keep_answer, mark_reclaimed, set_confirmed, set_seen};
use crate::filing::file_clients;
use crate::levels::{LevelRecords, count, free_place, last_given, make_place, numbers_at};
use crate::making::make_clients;
use crate::maps::drop_client;
use crate::named::client_at;
use crate::owners::{clear_number, confirm_number, enter_number, numbered, without};
use crate::rows::{Client, ClientRef, Kept};
use crate::telling::client_rows;
use lnfs_rows::ClientRow;
use lnfs_world::numbers::LAST_NUMBER;
use std::alloc::{AllocError, Global};
use std::collections::BTreeMap;
use std::marker::Model;

/// The records of the clients of all levels, in the order of their identifiers, and the last number that
/// each level was given. An owner's records and a level's count of them are found without a look at others.
#[derive(Drop)]
pub struct Records {
    alloc: Global,
    rows: BTreeMap<ClientRef, Client>,
    levels: BTreeMap<u32, LevelRecords>,
}

impl Model for Records {
    ghost use Rattle.std.specs.Prelude.{map};
    ghost use Rattle.lnfs_session.specs.Records.{ClientLists};
    ghost use Rattle.lnfs_session.specs.Listed.{client_of};
    ghost use Rattle.lnfs_session.specs.Levels.{last_at, records_at, numbers_at, lasts_of};
    ghost use Rattle.lnfs_session.specs.Indexed.{IsIndexed};

    ghost Value = { ClientLists };

    ghost view = { λ r. record {
      clients = map client_of r.rows.entries;
      lasts = lasts_of r.levels.entries;
    } };

    ghost invariant = { λ r. IsIndexed (map client_of r.rows.entries) (lasts_of r.levels.entries) (last_at r.levels) (records_at r.levels) (numbers_at r.levels) };
}

impl Records {
    /// No record, and no number given yet. Takes no memory.
    pub fn new(alloc: Global) -> Records
        ensures { result ≡ no_clients }
    {
        Records {
            alloc,
            rows: BTreeMap::new(alloc),
            levels: BTreeMap::new(alloc),
        }
    }

    /// The records of just these rows and last numbers by level.
    pub fn from_rows(
        alloc: Global,
        rows: &[ClientRow<'_>],
        lasts: &[u64],
    ) -> Result<Records, AllocError>
        requires { MakesRecords (map told.client_of rows.now) (given_of lasts.now) }
        ensures { IfOk result (λ records. records
            ≡ record { clients = map told.client_of rows.now; lasts = given_of lasts.now }) }
    {
        let levels = file_clients(alloc, rows, lasts)?;
        let rows = make_clients(alloc, rows)?;
        Ok(Records {
            alloc,
            rows,
            levels,
        })
    }

    /// The records as rows.
    pub fn rows(&self) -> Result<Vec<ClientRow<'_>>, AllocError>
        ensures { IfOk result (λ rows. map told.client_of rows.items ≡ self.now.clients) }
    {
        client_rows(self.alloc, &self.rows)
    }

    /// The last number of each of so many levels, 0 where a level gave none.
    pub fn last_numbers(&self, levels: u32) -> Result<Vec<u64>, AllocError>
        ensures { IfOk result (λ numbers. numbers.items ≡ each_of levels self.now.lasts) }
    {
        let mut numbers = Vec::new(self.alloc);
        for level in 0..levels {
            numbers.push(u64::from(self.last(level)))?;
        }
        Ok(numbers)
    }

    /// The record of an identifier.
    pub fn at(&self, id: ClientRef) -> Option<&Client>
        ensures { option_map (λ x. client_of (id, x.now)) result
            ≡ client_at self.now.clients (id_of id) }
    {
        client_at(&self.rows, id)
    }

    /// The last number that a level was given: before the first, 0.
    pub fn last(&self, level: u32) -> u32
        ensures { result ≡ last_of level self.now.lasts }
    {
        last_given(&self.levels, level)
    }

    /// The confirmed record of a level, an owner and its verifier, with its identifier; and how many records of the level
    /// stay where the owner's pending one goes.
    pub fn known(
        &self,
        level: u32,
        owner: &[u8],
        verifier: [u8; 8],
    ) -> (Option<(ClientRef, &Client)>, u32)
        ensures confirmed { option_map (λ p. client_of (p.0, p.1.now)) result.0
            ≡ find (is_confirmed_as level owner.now verifier) self.now.clients }
        ensures others { result.1 ≡ others_of level owner.now self.now.clients }
    {
        let numbers = numbers_at(&self.levels, level, owner);
        let others = without(count(&self.levels, level), numbers.pending);
        let Some(number) = numbers.confirmed else {
            return (None, others);
        };
        let id = ClientRef { level, number };
        let Some(client) = client_at(&self.rows, id) else {
            return (None, others);
        };
        if client.verifier != verifier {
            return (None, others);
        }
        (Some((id, client)), others)
    }

    /// The owner's record that no CREATE_SESSION has confirmed.
    pub fn pending(&self, level: u32, owner: &[u8]) -> Option<ClientRef>
        ensures { option_map id_of result ≡ option_map (λ c. c.id)
            (find (is_pending level owner.now) self.now.clients) }
    {
        numbered(level, numbers_at(&self.levels, level, owner).pending)
    }

    /// Makes a record of an owner under the level's next number, and takes out the one of it that no
    /// CREATE_SESSION has confirmed. Answers the identifiers of both. An error leaves all as it was.
    pub fn replace_pending(
        &mut self,
        level: u32,
        owner: &[u8],
        verifier: [u8; 8],
    ) -> Result<(ClientRef, Option<ClientRef>), AllocError>
        requires { last_of level self.old.lasts < LAST_NUMBER }
        ensures made { IfOk result (λ ids. id_of ids.0 ≡ next_id level self.old.lasts) }
        ensures gone { IfOk result (λ ids. option_map id_of ids.1
            ≡ option_map (λ c. c.id) (find (is_pending level owner.now) self.old.clients)) }
        ensures lists { OnOk result (self.new ≡ pending_replaced level owner.now verifier self.old) }
        ensures kept { OnErr result (self.new ≡ self.old) }
    {
        let number = last_given(&self.levels, level) + 1;
        let id = ClientRef { level, number };
        let numbers = make_place(&mut self.levels, self.alloc, level, owner)?;
        if let Err(wanting) = add_new(&mut self.rows, self.alloc, id, owner, verifier) {
            free_place(&mut self.levels, level, owner);
            return Err(wanting);
        }
        let pending = enter_number(&mut self.levels, id, owner, numbers);
        drop_any(&mut self.rows, pending);
        Ok((id, pending))
    }

    /// Confirms a record. The other confirmed one of its owner, which is answered, goes.
    pub fn confirm(&mut self, id: ClientRef) -> Option<ClientRef>
        ensures gone { option_map id_of result ≡ option_map (λ c. c.id)
            (replaced_by (client_at self.old.clients (id_of id)) self.old.clients) }
        ensures lists { self.new ≡ record self.old
            { clients = with_confirmed (client_at self.old.clients (id_of id)) self.old.clients } }
    {
        let Some(row) = client_at(&self.rows, id) else {
            return None;
        };
        if row.confirmed {
            return None;
        }
        let replaced = confirm_number(&mut self.levels, id, row.owner.as_slice());
        drop_any(&mut self.rows, replaced);
        set_confirmed(&mut self.rows, id);
        replaced
    }

    /// Keeps the answer of a CREATE_SESSION in the record of its client, whose sequence moves.
    pub fn keep(&mut self, id: ClientRef, kept: Kept)
        ensures { self.new
            ≡ record self.old { clients = clients_set (answered (kept_of kept)) (client_at self.old.clients (id_of id)) self.old.clients } }
    {
        keep_answer(&mut self.rows, id, kept);
    }

    /// A client has said that it reclaims no more (RFC 8881 section 18.51).
    pub fn mark_reclaimed(&mut self, id: ClientRef)
        ensures { self.new
            ≡ record self.old { clients = clients_set reclaimed (client_at self.old.clients (id_of id)) self.old.clients } }
    {
        mark_reclaimed(&mut self.rows, id);
    }

    /// The lease of a client begins again at so many seconds (RFC 8881 section 8.3).
    pub fn renew(&mut self, id: ClientRef, secs: u64)
        ensures { self.new
            ≡ record self.old { clients = clients_set (seen_at secs) (client_at self.old.clients (id_of id)) self.old.clients } }
    {
        set_seen(&mut self.rows, id, secs);
    }

    /// A client's record goes.
    pub fn remove(&mut self, id: ClientRef)
        ensures { self.new
            ≡ record self.old { clients = filter (λ c. not (same_id (id_of id) c.id)) self.old.clients } }
    {
        let Some(row) = client_at(&self.rows, id) else {
            return;
        };
        clear_number(
            &mut self.levels,
            id.level,
            row.owner.as_slice(),
            row.confirmed,
        );
        drop_client(&mut self.rows, id);
    }
}
