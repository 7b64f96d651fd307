//! The sessions of all levels, found by their identifiers and by their clients (RFC 8881 section 18.36).
ghost use Rattle.std.specs.Prelude.{◌≡◌, ◌+◌, ◌<◌, ◌||◌, true, not, Bool, IsTrue, Some, IfOk, OnOk, OnErr, IfSome, filter, map, option_map};
ghost use Rattle.std.specs.List.{find, list_any, list_all};
ghost use Rattle.lnfs_world.specs.Rows.{inserted};
ghost use Rattle.lnfs_world.specs.World as world;
ghost use Rattle.lnfs_world.specs.World.{session_order, level_order, session_at, last_of, same_id};
ghost use Rattle.lnfs_world.specs.Change.{is_session_of};
ghost use Rattle.lnfs_operations.specs.CreateSession.{sessions_of};
ghost use Rattle.lnfs_operations.specs.Identifiers.{session_under};
ghost use Rattle.lnfs_rows.specs.Told as told;
ghost use Rattle.lnfs_rows.specs.Lasts.{given_of, each_of};
ghost use Rattle.lnfs_session.specs.Listed.{id_of, session_id_of, session_of, session_key, slot_of};
ghost use Rattle.lnfs_session.specs.Standing.{sessions_left, settled, sessions_set};
ghost use Rattle.lnfs_session.specs.Sessions.{no_sessions};
ghost use Rattle.lnfs_session.specs.Makes.{MakesSessions};

use crate::filing::count_sessions;
use crate::keep::{keep_result, refill_session};
use crate::making::make_sessions;
use crate::maps::{add_session, drop_session, find_session};
use crate::named::session_under;
use crate::rows::{ClientRef, Session, SessionRef, Slot};
use crate::sequence::SlotRef;
use crate::telling::session_rows;
use lnfs_counts::{Counter, count, count_off, count_one, last_given, last_numbers, make_counter};
use lnfs_rows::SessionRow;
use lnfs_world::numbers::LAST_NUMBER;
use std::alloc::{AllocError, Global};
use std::collections::BTreeMap;
use std::marker::Model;

/// The sessions of all levels, in the order of their identifiers, and the last number that each level was
/// given. A level's count of them is found without a look at them.
#[derive(Drop)]
pub struct Sessions {
    rows: BTreeMap<SessionRef, Session>,
    counters: BTreeMap<u32, Counter>,
}

impl Model for Sessions {
    ghost use Rattle.std.specs.Prelude.{map};
    ghost use Rattle.lnfs_counts.specs.Counters.{lasts_of};
    ghost use Rattle.lnfs_session.specs.Listed.{session_of};
    ghost use Rattle.lnfs_session.specs.Sessions.{SessionLists, AreCounted};

    ghost Value = { SessionLists };

    ghost view = { λ s. record {
      sessions = map session_of s.rows.entries;
      lasts = lasts_of s.counters.entries;
    } };

    ghost invariant = { λ s. AreCounted s.rows.entries s.counters };
}

impl Sessions {
    /// No session, and no number given yet. Takes no memory.
    pub fn new(alloc: Global) -> Sessions
        ensures { result ≡ no_sessions }
    {
        Sessions {
            rows: BTreeMap::new(alloc),
            counters: BTreeMap::new(alloc),
        }
    }

    /// The sessions of just these rows and last numbers by level.
    pub fn from_rows(
        alloc: Global,
        rows: &[SessionRow<'_>],
        lasts: &[u64],
    ) -> Result<Sessions, AllocError>
        requires { MakesSessions (map told.session_of rows.now) (given_of lasts.now) }
        ensures { IfOk result (λ sessions. sessions
            ≡ record { sessions = map told.session_of rows.now; lasts = given_of lasts.now }) }
    {
        let counters = count_sessions(alloc, rows, lasts)?;
        let rows = make_sessions(alloc, rows)?;
        Ok(Sessions { rows, counters })
    }

    /// The sessions as rows.
    pub fn rows(&self, alloc: Global) -> Result<Vec<SessionRow<'_>>, AllocError>
        ensures { IfOk result (λ rows. map told.session_of rows.items ≡ self.now.sessions) }
    {
        session_rows(alloc, &self.rows)
    }

    /// The last number of each of so many levels, 0 where a level gave none.
    pub fn last_numbers(&self, alloc: Global, levels: u32) -> Result<Vec<u64>, AllocError>
        ensures { IfOk result (λ numbers. numbers.items ≡ each_of levels self.now.lasts) }
    {
        last_numbers(alloc, &self.counters, levels)
    }

    /// The session of an id, whose last four bytes have to be zero.
    pub fn under(&self, id: &[u8; 16]) -> Option<&Session>
        ensures { option_map (λ x. session_of (session_key id.now, x.now)) result
            ≡ session_under id.now self.now.sessions }
    {
        session_under(&self.rows, id)
    }

    /// How many sessions a level has.
    pub fn count(&self, level: u32) -> u32
        ensures { result ≡ sessions_of level self.now.sessions }
    {
        count(&self.counters, level)
    }

    /// The last number that a level was given: before the first, 0.
    pub fn last(&self, level: u32) -> u32
        ensures { result ≡ last_of level self.now.lasts }
    {
        last_given(&self.counters, level)
    }

    /// The first session of a client, if it has one.
    fn find(&self, client: ClientRef) -> Option<SessionRef>
        ensures found { option_map session_id_of result
            ≡ option_map (λ x. x.id) (find (is_session_of (id_of client)) self.now.sessions) }
        // No other session has its identifier.
        ensures only { IfSome result (λ id. list_all (λ x. not (same_id (session_id_of id) x.id)
            || is_session_of (id_of client) x) self.now.sessions ≡ true) }
    {
        find_session(&self.rows, client)
    }

    /// Whether a client has a session.
    pub fn any_of(&self, client: ClientRef) -> bool
        ensures { result ≡ list_any (is_session_of (id_of client)) self.now.sessions }
    {
        self.find(client).is_some()
    }

    /// Adds a session under the next number of a level, and answers the number. Where memory is wanting,
    /// nothing that is told has changed.
    pub fn add(&mut self, level: u32, session: Session) -> Result<u32, AllocError>
        requires few { sessions_of level self.old.sessions < LAST_NUMBER }
        requires left { last_of level self.old.lasts < LAST_NUMBER }
        ensures number { IfOk result (λ number. number ≡ last_of level self.old.lasts + 1) }
        ensures sessions { OnOk result (self.new.sessions
            ≡ inserted session_order (session_of (
              record
                  { level = level; number = last_of level self.old.lasts + 1 },
              session,
            ))
            self.old.sessions) }
        // Where sessions go later, it is as if it were added last.
        ensures added_last { OnOk result ((test : world.Session → Bool) →
            IsTrue (test (session_of (
              record
                  { level = level; number = last_of level self.old.lasts + 1 },
              session,
            ))) →
            filter test self.new.sessions
            ≡ inserted session_order (session_of (
              record
                  { level = level; number = last_of level self.old.lasts + 1 },
              session,
            ))
            (filter test self.old.sessions)) }
        ensures lasts { OnOk result (self.new.lasts
            ≡ inserted level_order (record
            { level = level; number = last_of level self.old.lasts + 1 }) self.old.lasts) }
        ensures kept { OnErr result (self.new ≡ self.old) }
    {
        let number = last_given(&self.counters, level) + 1;
        let id = SessionRef {
            level,
            number: u64::from(number),
        };
        make_counter(&mut self.counters, level)?;
        add_session(&mut self.rows, id, session)?;
        count_one(&mut self.counters, level, number);
        Ok(number)
    }

    /// A session goes, if it is there.
    pub fn remove(&mut self, id: SessionRef)
        ensures { self.new
            ≡ record self.old { sessions = filter (λ x. not (same_id (session_id_of id) x.id)) self.old.sessions } }
    {
        if !drop_session(&mut self.rows, id) {
            return;
        }
        count_off(&mut self.counters, id.level);
    }

    /// The sessions of a client go.
    fn remove_of(&mut self, client: ClientRef)
        ensures { self.new
            ≡ record self.old { sessions = filter (λ x. not (is_session_of (id_of client) x)) self.old.sessions } }
    {
        while let Some(id) = self.find(client) {
            self.remove(id);
        }
    }

    /// The sessions of a client go, if there is one whose are to go.
    pub fn remove_any(&mut self, gone: Option<ClientRef>)
        ensures { self.new
            ≡ record self.old { sessions = sessions_left (option_map id_of gone) self.old.sessions } }
    {
        if let Some(client) = gone {
            self.remove_of(client);
        }
    }

    /// A slot of a session holds another request, if there is such a session and a slot.
    pub fn fill(&mut self, at: SlotRef, filled: Slot)
        ensures { self.new
            ≡ record self.old { sessions = sessions_set (settled at.slot (slot_of filled)) (session_at self.old.sessions (session_id_of at.session)) self.old.sessions } }
    {
        keep_result(&mut self.rows, at, filled);
    }

    /// A slot of a session holds another request in the buffers that it has, if there is such a session and a slot.
    pub fn refill(
        &mut self,
        alloc: Global,
        at: SlotRef,
        sequence: u32,
        bytes: &[u8],
        reply: &[u8],
    ) -> Result<(), AllocError>
        ensures { OnOk result (self.new
            ≡ record self.old { sessions = sessions_set (settled at.slot (record { sequence = sequence; kept = Some (record { arguments = bytes.now; reply = reply.now }) })) (session_at self.old.sessions (session_id_of at.session)) self.old.sessions }) }
    {
        refill_session(alloc, &mut self.rows, at, sequence, bytes, reply)
    }
}
