//! A server that records are delivered to.
ghost use Rattle.std.specs.Prelude.{◌≡◌, IfOk};
ghost use Rattle.lnfs_types.specs.Moments.{Fits};

use crate::site::policy_of;
use lnfs_client::Client;
use lnfs_format::Codecs;
use lnfs_gss3::KeyedDigest;
use lnfs_test_support::flaw::{Flaw, read_of};
use lnfs_types::{Event, Moment, Octets, RECORD_LIMIT};
use lnfs_vault::{Served, Vault};
use std::alloc::Global;

/// The event of a record.
fn event_of(alloc: Global, class: u32, message: &[u8]) -> Result<Event, Flaw>
    ensures { IfOk result Fits }
{
    if message.len() > RECORD_LIMIT as usize {
        return Err(Flaw::new(alloc, "an event", "a long record"));
    }
    Ok(Event {
        class,
        link: 0,
        moment: Moment { secs: 1, nanos: 0 },
        message: Octets::from_slice(alloc, message)?,
    })
}

/// A new vault under a policy.
pub fn vault_of(alloc: Global, codecs: &Codecs, policy: &str) -> Result<Vault<KeyedDigest>, Flaw> {
    let site = policy_of(alloc, codecs, policy)?;
    Ok(Vault::new(alloc, site, codecs, KeyedDigest)?)
}

/// A vault to which records of one class come.
#[derive(Drop)]
pub struct Server<'a> {
    pub alloc: Global,
    pub vault: &'a mut Vault<KeyedDigest>,
    pub codecs: &'a Codecs,
    pub class: u32,
}

impl Server<'_> {
    /// What is said to a record, if anything is.
    pub fn serve(&mut self, message: &[u8]) -> Result<Option<Octets>, Flaw> {
        let event = event_of(self.alloc, self.class, message)?;
        let Served { reply, .. } = self.vault.serve(self.codecs, event)?;
        match reply {
            Some(reply) => Ok(Some(Octets::from_slice(self.alloc, reply.as_slice())?)),
            None => Ok(None),
        }
    }

    /// What is said to the request of a client that is unanswered.
    pub fn answer_to(&mut self, client: &Client) -> Result<Octets, Flaw> {
        let request = read_of(self.alloc, client.resend(), "a request")?;
        let reply = self.serve(request)?;
        read_of(self.alloc, reply, "a reply")
    }
}
