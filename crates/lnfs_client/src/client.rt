//! The client.
ghost use Rattle.std.specs.Prelude.{◌≡◌, ◌≤◌, ◌<◌, ◌||◌, true, length, is_none, IfOk, IfSome, OnOk, OnErr};
ghost use Rattle.std.specs.Option.{option_map};
ghost use Rattle.lnfs_types.specs.declared.limits.TheConstants.{RECORD_LIMIT};
ghost use Rattle.lnfs_arguments.specs.declared.numbers.TheConstants.{OWNER_LIMIT};
ghost use Rattle.lnfs_answers.specs.Promises.{seen_wants};
ghost use Rattle.lnfs_answers.specs.Replies.{heard};
ghost use Rattle.lnfs_script.specs.Fits.{ActionFits};
ghost use Rattle.lnfs_asking.specs.Sending.{wanted_of};
ghost use Rattle.lnfs_client.specs.Fits.{IfEnded, IfMemory, Suits, UnlessMemory, mounted_by};
ghost use Rattle.lnfs_client.specs.Promises.{ChangesAreGuarded, IfShown, IsShownOf};
ghost use Rattle.lnfs_client.specs.Machine.{asked, asked_of, awaited, begun, ended, heard_by, is_mount, may_ask, started, turn};

use crate::answer::{Progress, Refusal};
use crate::known::{Known, Running};
use crate::listing::Listing;
use crate::making::{post, request, signer_of};
use crate::requests::ANONYMOUS;
use crate::stages::{first_stage, is_mount};
use crate::turning::take_heard;
use lnfs_answers::{HANDLE_SIZE, Heard, Request, Wants, hear};
use lnfs_asking::{Sent, Sought};
use lnfs_calipso::Level;
use lnfs_format::Codecs;
use lnfs_gss3::Mechanism;
use lnfs_policy::Policy;
use lnfs_script::{Action, Identity};
use lnfs_types::Octets;
use std::alloc::{AllocError, Global};
use std::marker::Model;

/// A client of one level. It makes one request at a time and takes its reply.
///
/// The policy that is lent to its calls is the same each time.
#[derive(Drop)]
pub struct Client {
    alloc: Global,
    known: Known,
}

impl Model for Client {
    ghost use Rattle.lnfs_client.specs.declared.known.Known.{Known as Facts};
    ghost use Rattle.lnfs_client.specs.Fits.{KnownFits};

    ghost Value = { Facts };

    ghost view = { λ c. c.known };

    ghost invariant = { λ c. KnownFits c.known };
}

fn wants_of(sought: &Sought) -> Wants<'_>
    ensures { seen_wants result ≡ wanted_of sought.now }
{
    match sought {
        Sought::Results(awaited) => Wants::Results {
            awaited: awaited.as_slice(),
        },
        Sought::Context(label) => Wants::Context {
            lfs: label.lfs,
            pi: label.pi,
            label: label.bytes.as_slice(),
        },
        Sought::End => Wants::End,
    }
}

/// What a record is to a request of the client.
#[tactic(auto, using(std::proofs::lemmas::List::take_min))]
fn heard_as<M: Mechanism>(
    alloc: Global,
    policy: &Policy,
    mechanism: &M,
    known: &Known,
    sent: &Sent,
    message: &[u8],
) -> Result<Heard, AllocError>
    ensures { IfOk result (λ h. h
        ≡ heard M.signing (asked_of policy.now known.now sent.now) message.now) }
{
    let own = sent.message.as_slice();
    let end = sent.header.min(own.len());
    let request = Request {
        xid: sent.xid,
        signer: signer_of(policy, known.identity),
        header: &own[..end],
        wants: wants_of(&sent.sought),
    };
    hear(alloc, mechanism, &request, message)
}

/// What a record is to the request that is unanswered; to none it is that of another.
#[tactic(auto, unfolding(crate::specs::Machine::heard_by))]
fn heard<M: Mechanism>(
    alloc: Global,
    policy: &Policy,
    mechanism: &M,
    known: &Known,
    message: &[u8],
) -> Result<Heard, AllocError>
    ensures { IfOk result (λ heard. heard ≡ heard_by M.signing policy.now known.now message.now) }
{
    let Some(running) = &known.running else {
        return Ok(Heard::Other);
    };
    let Some(sent) = &running.awaited else {
        return Ok(Heard::Other);
    };
    heard_as(alloc, policy, mechanism, known, sent, message)
}

impl Client {
    /// A client that knows nothing yet: its level, as whom it comes, and the name under which it makes itself known
    /// (`co_ownerid`, RFC 8881 section 2.4).
    ///
    /// # Errors
    ///
    /// `AllocError` where there is no memory.
    pub fn start(
        alloc: Global,
        level: Level,
        identity: Identity,
        owner: &[u8],
    ) -> Result<Client, AllocError>
        requires { length owner.now ≤ OWNER_LIMIT }
        ensures { IfOk result (λ client. client ≡ started level.0 identity owner.now) }
    {
        let owner = Octets::from_slice(alloc, owner)?;
        let known = Known {
            level,
            identity,
            owner,
            sent: 0,
            context: [0; HANDLE_SIZE],
            client: 0,
            creating: 0,
            session: [0; 16],
            sequence: 0,
            mounted: false,
            running: None,
        };
        Ok(Client { alloc, known })
    }

    /// Begins an action. A Mount leaves the client unmounted until it is answered. Takes no memory.
    pub fn begin(&mut self, action: Action)
        requires idle { self.old.running ≡ None }
        requires fits { ActionFits action }
        requires mounted { (is_mount action || self.old.mounted) ≡ true }
        ensures { self.new ≡ begun action self.old }
    {
        let stage = first_stage(self.known.identity, &action);
        self.known.mounted = !is_mount(&action) && self.known.mounted;
        self.known.running = Some(Running {
            action,
            stage,
            label: None,
            cookie: 0,
            shown: Listing::new(self.alloc),
            opened: ANONYMOUS,
            awaited: None,
        });
    }

    /// Makes the next request, which `resend` then lends. Answers false where no action is under way, or a request is
    /// unanswered.
    ///
    /// # Errors
    ///
    /// `AllocError` where there is no memory. Then nothing has changed.
    pub fn next_request<M: Mechanism>(
        &mut self,
        policy: &Policy,
        codecs: &Codecs,
        mechanism: &M,
    ) -> Result<bool, AllocError>
        requires room { self.old.sent < 4294967295 }
        requires site { Suits policy.now self.old }
        ensures made { IfOk result (λ made. made ≡ may_ask self.old) }
        ensures client { OnOk result (self.new ≡ asked M.signing policy.now self.old) }
        ensures err { OnErr result (self.new ≡ self.old) }
        ensures site { Suits policy.now self.new }
        // The request has room in a record.
        ensures short { IfOk result (λ made. made ≡ true → IfSome (awaited self.new)
            (λ sent. length sent.message ≤ RECORD_LIMIT)) }
        // What it asks that is a change is guarded by the label that was read.
        ensures guarded { ChangesAreGuarded policy.now self.old }
    {
        let sent = request(self.alloc, policy, codecs, mechanism, &self.known)?;
        let made = sent.is_some();
        post(&mut self.known, sent);
        Ok(made)
    }

    /// The request that is unanswered, or None where there is none. Takes no memory.
    pub fn resend(&self) -> Option<&[u8]>
        ensures { option_map (λ bytes. bytes.now) result
            ≡ option_map (λ sent. sent.message) (awaited self.now) }
    {
        let running = self.known.running.as_ref()?;
        let sent = running.awaited.as_ref()?;
        Some(sent.message.as_slice())
    }

    /// The number of requests made so far.
    pub fn sent(&self) -> u32
        ensures { result ≡ self.now.sent }
    {
        self.known.sent
    }

    /// Whether no action is under way, so that one may begin.
    pub fn is_idle(&self) -> bool
        ensures { result ≡ is_none self.now.running }
    {
        self.known.running.is_none()
    }

    /// Whether a Mount was answered, and neither another begun nor a Leave answered since, so that any action may begin.
    pub fn is_mounted(&self) -> bool
        ensures { result ≡ self.now.mounted }
    {
        self.known.mounted
    }

    /// Takes a record that came. `More` where it has the transaction of another request, or none is unanswered, which changes
    /// nothing; and where the action has a further request.
    ///
    /// # Errors
    ///
    /// The action has then ended. `UnknownLabel`, `NotDominated` and `NotEqual` as `enforce` answers on the label that this
    /// record tells; `ServerSaid` where the COMPOUND has not succeeded; `Denied` where the call was denied for who asks;
    /// `BadReply` where the record is no answer to the request, or a signature of it isn't good. `Memory` where there is no
    /// memory: then the action has ended too, and nothing else has changed.
    pub fn take_reply<M: Mechanism>(
        &mut self,
        policy: &Policy,
        codecs: &Codecs,
        mechanism: &M,
        message: &[u8],
    ) -> Result<Progress, Refusal>
        requires site { Suits policy.now self.old }
        ensures told { UnlessMemory result (result
            ≡ (turn M.signing policy.now self.old message.now).told) }
        ensures client { UnlessMemory result (self.new
            ≡ (turn M.signing policy.now self.old message.now).client) }
        ensures memory { IfMemory result (self.new ≡ ended self.old) }
        // Data and entries are handed out of this record, whose own label the client's level dominates.
        ensures same_reply { IfShown result (IsShownOf M.signing policy.now self.old message.now) }
        ensures ended { IfEnded result (self.new.running ≡ None) }
        ensures mounted { self.new.mounted ≡ mounted_by result self.old.mounted }
        ensures site { Suits policy.now self.new }
    {
        let heard = match heard(self.alloc, policy, mechanism, &self.known, message) {
            Ok(heard) => heard,
            Err(_) => {
                self.known.running = None;
                return Err(Refusal::Memory);
            }
        };
        take_heard(self.alloc, policy, codecs, &mut self.known, heard)
    }
}
