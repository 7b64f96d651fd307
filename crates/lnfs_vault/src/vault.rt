//! The vault.
ghost use Rattle.std.specs.Prelude.{◌≡◌, ◌+◌, ◌≤◌, ℕ, List, [], ◌∷◌, ◌++◌, Some, None, true, false, length, IfOk, IfSome, OnOk, OnErr, IsErr};
ghost use Rattle.lnfs_types.specs.declared.limits.TheConstants.{RECORD_LIMIT};
ghost use Rattle.lnfs_types.specs.Moments.{Fits};
ghost use Rattle.lnfs_policy.specs.Policy.{dominance};
ghost use Rattle.lnfs_arguments.specs.declared.types.Compound.{Compound};
ghost use Rattle.lnfs_arguments.specs.declared.types.CreateSession.{CreateSession};
ghost use Rattle.lnfs_arguments.specs.declared.types.Sequence.{Sequence};
ghost use Rattle.lnfs_world.specs.World.{Client, Session, Slot};
ghost use Rattle.lnfs_world.specs.Usage.{nodes_used, bytes_used};
ghost use Rattle.lnfs_world.specs.Labels.{LabelsRise};
ghost use Rattle.lnfs_operations.specs.InOrder.{sequence_before};
ghost use Rattle.lnfs_step.specs.Request.{Call};
ghost use Rattle.lnfs_step.specs.Journal.{Holds, state_after, reply_with, line_with, answer_with};
ghost use Rattle.lnfs_step.specs.Sessions.{ComesOnSlot, ComesToClient};
ghost use Rattle.lnfs_vault.specs.Pieces.{held};
ghost use Rattle.lnfs_vault.specs.Lines.{IsLineOf};
ghost use Rattle.lnfs_vault.specs.Retried.{IsRetried};

use crate::audit::AuditLine;
use crate::books::Books;
use crate::front::Front;
use crate::parts::Parts;
use crate::step::Said;
use lnfs_calipso::Level;
use lnfs_engine::{NoExtra, ReadExtra};
use lnfs_format::Codecs;
use lnfs_gss3::Mechanism;
use lnfs_policy::Policy;
use lnfs_rpc::ReplyRecord;
use lnfs_step::{purge, sessions};
use lnfs_types::Event;
use std::alloc::{AllocError, Global};
use std::marker::Model;

/// What serving an event brought.
#[derive(Debug, Drop)]
pub struct Served {
    /// The reply record; None where none is due.
    pub reply: Option<ReplyRecord>,
    /// What was refused, if anything was.
    pub line: Option<AuditLine>,
    /// The event's place in the journal, from 1.
    pub at: u64,
}

/// Serves events one at a time, under a mechanism of signatures and with operations beside those of the table, and keeps the
/// journal of all that it served.
#[derive(Drop)]
pub struct VaultOf<M: Mechanism + Drop, X: ReadExtra> {
    front: Front<M, X>,
    books: Books<M, X>,
}

/// A vault with the operations of the table alone.
pub type Vault<M> = VaultOf<M, NoExtra>;

impl<M: Mechanism + Drop, X: ReadExtra> Model for VaultOf<M, X> {
    ghost use Rattle.std.specs.Prelude.{◌≡◌, None};
    ghost use Rattle.lnfs_vault.specs.Kept.{Kept};

    ghost Value = { Kept };

    ghost view = { λ v. record { policy = v.front.policy; journal = v.books.journal; stopped = v.books.stopped } };

    // the books are this policy's, and every event that was served is in the journal
    ghost invariant = { λ v. (v.books.policy ≡ v.front.policy) × (v.books.pending ≡ None) };
}

impl<M: Mechanism + Drop, X: ReadExtra> VaultOf<M, X> {
    /// A vault of a site with further operations, that was given no event. The codecs write its labels.
    ///
    /// # Errors
    ///
    /// `AllocError` where there is no memory.
    pub fn with_extra(
        alloc: Global,
        policy: Policy,
        codecs: &Codecs,
        mechanism: M,
        extra: X,
    ) -> Result<VaultOf<M, X>, AllocError>
        requires { X.rows extra ≡ [] }
        ensures { IfOk result (λ vault. vault ≡ record
            { policy = policy; journal = []; stopped = false }) }
    {
        let front = Front::new(alloc, policy, codecs, mechanism, &extra)?;
        let books = Books::new(alloc, &front.site(), extra)?;
        Ok(VaultOf { front, books })
    }

    /// A vault taken apart. Takes no memory.
    pub fn into_parts(self) -> Parts<M, X>
        ensures policy { result.front.policy ≡ self.policy }
        ensures books { result.books ≡ held self.policy self.journal None self.stopped }
    {
        Parts {
            front: self.front,
            books: self.books,
        }
    }

    /// A vault put together. It is stopped where the step of an event was made that is not in the journal. Takes no memory.
    pub fn from_parts(parts: Parts<M, X>) -> VaultOf<M, X>
        ensures policy { result.policy ≡ parts.front.policy }
        ensures journal { result.journal ≡ parts.books.journal }
        ensures stopped { parts.books.pending ≡ None → result.stopped ≡ parts.books.stopped }
    {
        let Parts { front, mut books } = parts;
        books.close();
        VaultOf { front, books }
    }

    /// The policy of the site.
    pub fn policy(&self) -> &Policy
        ensures { result.now ≡ self.now.policy }
    {
        self.front.policy()
    }

    /// The events that were served, in order.
    pub fn journal(&self) -> &[Event]
        ensures { result.now ≡ self.now.journal }
    {
        self.books.journal()
    }

    /// What a level uses: the nodes whose home it is, then the bytes of the files whose label it is. Both are kept as totals.
    pub fn used(&self, level: Level) -> (u64, u64)
        ensures nodes { self.now.stopped ≡ false →
            result.0
            ≡ nodes_used (state_after X.extra M.signing self.now.policy
            self.now.journal).world.nodes level.0 }
        ensures bytes { self.now.stopped ≡ false →
            result.1
            ≡ bytes_used (state_after X.extra M.signing self.now.policy
            self.now.journal).world.nodes level.0 }
    {
        self.books.used(level)
    }

    /// All three parts of a step, with the event in the journal.
    fn attempt(&mut self, codecs: &Codecs, event: Event) -> Result<Served, AllocError>
        requires { Fits event }
        ensures reply { IfOk result (λ served. served.reply
            ≡ reply_with X.extra M.signing self.old.policy self.old.journal event) }
        ensures line { IfOk result (λ served. IsLineOf (length self.old.journal + 1)
            (line_with X.extra M.signing self.old.policy self.old.journal event) served.line) }
        ensures at { IfOk result (λ served. served.at ≡ length self.old.journal + 1) }
        ensures kept { OnOk result (self.new ≡ record self.old
            { journal = self.old.journal ++ event ∷ [] }) }
        ensures stops { OnErr result (self.new ≡ record self.old { stopped = true }) }
        ensures stopped { self.old.stopped ≡ true → IsErr result }
    {
        let front = &self.front;
        let Ok(prepared) = front.decode(codecs, &event) else {
            self.books.stop();
            return Err(AllocError);
        };
        let at = self.books.journal().len() as u64 + 1;
        let site = front.site();
        let Ok(said) = self.books.make_step(&site, &event, prepared) else {
            self.books.stop();
            return Err(AllocError);
        };
        let Said { unsealed, line } = said;
        // Sealed before it is kept: an error leaves the journal as it was.
        let Ok(reply) = front.seal(unsealed) else {
            self.books.stop();
            return Err(AllocError);
        };
        self.books.keep(event);
        Ok(Served { reply, line, at })
    }

    /// Serves an event: makes its step on the state after the journal, and adds it to the journal. The codecs read labels that
    /// are asserted.
    ///
    /// Want of memory is the one error. It stops the vault: each later call answers it too, and changes
    /// nothing.
    pub fn serve(&mut self, codecs: &Codecs, event: Event) -> Result<Served, AllocError>
        requires { Fits event }
        // The reply and the line are those of the event's step on the state after the journal.
        ensures reply { IfOk result (λ served. served.reply
            ≡ reply_with X.extra M.signing self.old.policy self.old.journal event) }
        ensures line { IfOk result (λ served. IsLineOf (length self.old.journal + 1)
            (line_with X.extra M.signing self.old.policy self.old.journal event) served.line) }
        // The reply is the one that its requester would get with every event outside its dominance
        // purged from the journal.
        ensures answer { IfOk result (λ served. served.reply
            ≡ answer_with X.extra M.signing self.old.policy self.old.journal event) }
        // A COMPOUND that comes again on its slot, with the arguments that the slot keeps, gets the result of
        // the first time: what an event of the journal got (RFC 8881 section 2.10.6.1).
        ensures retry { (call : Call) (arguments : List ℕ) (c : Compound) (args : Sequence)
            (x : Session) (slot : Slot) (first : List ℕ) →
            ComesOnSlot X.extra M.signing self.old.policy self.old.journal event call arguments c
            args x slot →
            slot
            ≡ record { sequence = args.sequence; kept = Some (record { arguments = arguments; reply = first }) } →
            IfOk result (IsRetried X.extra M.signing self.old self.new call arguments first) }
        // So does a CREATE_SESSION, with those that its client's record keeps (RFC 8881 section 18.36.4).
        ensures created { (call : Call) (arguments : List ℕ) (c : Compound) (args : CreateSession)
            (client : Client) (first : List ℕ) →
            ComesToClient X.extra M.signing self.old.policy self.old.journal event call arguments c
            args client →
            args.sequence ≡ sequence_before client.sequence →
            client.kept ≡ Some (record { arguments = arguments; reply = first }) →
            IfOk result (IsRetried X.extra M.signing self.old self.new call arguments first) }
        // The reply to a COMPOUND on a slot has no more bytes than its session's responses.
        ensures room { (call : Call) (arguments : List ℕ) (c : Compound) (args : Sequence)
            (x : Session) (slot : Slot) →
            ComesOnSlot X.extra M.signing self.old.policy self.old.journal event call arguments c
            args x slot →
            IfOk result (λ served. IfSome served.reply (λ reply. length reply
            ≤ x.channel.max_response)) }
        ensures short { IfOk result (λ served. IfSome served.reply (λ reply. length reply
            ≤ RECORD_LIMIT)) }
        ensures at { IfOk result (λ served. served.at ≡ length self.old.journal + 1) }
        ensures kept { OnOk result (self.new ≡ record self.old
            { journal = self.old.journal ++ event ∷ [] }) }
        ensures stops { OnErr result (self.new ≡ record self.old { stopped = true }) }
        ensures stopped { self.old.stopped ≡ true → IsErr result }
        // What stands keeps the facts of every world, and that of the further operations.
        ensures facts { Holds X.extra self.new.policy
            (state_after X.extra M.signing self.new.policy self.new.journal) }
        // Labels go up alone: a node that stands before and after has a label afterwards that dominates the
        // one that it had.
        ensures labels { LabelsRise (dominance self.old.policy)
            (state_after X.extra M.signing self.old.policy self.old.journal).world
            (state_after X.extra M.signing self.new.policy self.new.journal).world }
    {
        purge::<X, M>();
        sessions::<X, M>();
        self.front.policy().law_preorder();
        self.front.policy().law_policy();
        self.attempt(codecs, event)
    }
}

impl<M: Mechanism + Drop> VaultOf<M, NoExtra> {
    /// A vault of a site, that was given no event. The codecs write its labels.
    ///
    /// # Errors
    ///
    /// `AllocError` where there is no memory.
    pub fn new(
        alloc: Global,
        policy: Policy,
        codecs: &Codecs,
        mechanism: M,
    ) -> Result<Vault<M>, AllocError>
        ensures { IfOk result (λ vault. vault ≡ record
            { policy = policy; journal = []; stopped = false }) }
    {
        VaultOf::with_extra(alloc, policy, codecs, mechanism, NoExtra)
    }
}
