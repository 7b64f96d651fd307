//! What is needed to decode a record and to seal its reply, and no state. Threads may share it.
ghost use Rattle.std.specs.Prelude.{◌≡◌, IfOk};
ghost use Rattle.lnfs_vault.specs.Prepared.{IsPrepared};
ghost use Rattle.lnfs_vault.specs.Sealed.{sealed_of};

use crate::decode::{Prepared, prepare};
use crate::sealing::seal;
use crate::unsealed::Unsealed;
use lnfs_engine::ReadExtra;
use lnfs_format::Codecs;
use lnfs_gss3::Mechanism;
use lnfs_policy::Policy;
use lnfs_rpc::ReplyRecord;
use lnfs_site::{Labels, Site};
use lnfs_types::Event;
use std::alloc::{AllocError, Global};
use std::marker::Model;

/// A policy with the labels of its levels, what signs, and what reads further operations.
#[derive(Drop)]
pub struct Front<M: Mechanism + Drop, X: ReadExtra> {
    alloc: Global,
    policy: Policy,
    labels: Labels,
    mechanism: M,
    reader: X::Reader,
}

impl<M: Mechanism + Drop, X: ReadExtra> Model for Front<M, X> {
    ghost use Rattle.std.specs.Prelude.{◌≡◌};
    ghost use Rattle.lnfs_vault.specs.Pieces.{Given};

    ghost Value = { Given M };

    ghost use Rattle.lnfs_site.specs.Labels.{spellings};

    ghost view = { λ f. record { policy = f.policy; mechanism = f.mechanism } };

    // the labels are the policy's
    ghost invariant = { λ f. f.labels ≡ spellings f.policy };
}

impl<M: Mechanism + Drop, X: ReadExtra> Front<M, X> {
    /// The front of a site. The codecs write its labels.
    ///
    /// # Errors
    ///
    /// `AllocError` where there is no memory.
    pub fn new(
        alloc: Global,
        policy: Policy,
        codecs: &Codecs,
        mechanism: M,
        extra: &X,
    ) -> Result<Front<M, X>, AllocError>
        ensures { IfOk result (λ front. front
            ≡ record { policy = policy; mechanism = mechanism }) }
    {
        let labels = Labels::new(alloc, &policy, codecs)?;
        let reader = extra.reader();
        Ok(Front {
            alloc,
            policy,
            labels,
            mechanism,
            reader,
        })
    }

    /// The allocator of all that it makes.
    pub fn alloc(&self) -> Global {
        self.alloc
    }

    /// The policy of the site.
    pub fn policy(&self) -> &Policy
        ensures { result.now ≡ self.now.policy }
    {
        &self.policy
    }

    /// The policy with the labels of its levels.
    pub fn site(&self) -> Site<'_>
        ensures { result ≡ self.now.policy }
    {
        Site::new(&self.policy, &self.labels)
    }

    /// What the record of an event asks, with all that its reply needs of it. The codecs read labels that are asserted.
    ///
    /// # Errors
    ///
    /// `AllocError` where there is no memory.
    pub fn decode<'p, 'a>(
        &'p self,
        codecs: &Codecs,
        event: &'a Event,
    ) -> Result<Prepared<'p, 'a>, AllocError>
        ensures { IfOk result (IsPrepared X.extra.grammar M.signing self.now.policy event.now.class
            event.now.message) }
    {
        prepare(
            self.alloc,
            &self.policy,
            codecs,
            &self.mechanism,
            &self.reader,
            event.class,
            event.message.as_slice(),
        )
    }

    /// Seals what a step says: the reply, where one is due.
    ///
    /// # Errors
    ///
    /// `AllocError` where there is no memory.
    pub fn seal(&self, unsealed: Unsealed<'_>) -> Result<Option<ReplyRecord>, AllocError>
        ensures { IfOk result (λ reply. reply ≡ sealed_of M.signing unsealed.entry) }
    {
        seal(self.alloc, &self.mechanism, unsealed)
    }

    /// What it was made of. Takes no memory.
    pub fn into_parts(self) -> (Policy, M)
        ensures policy { result.0 ≡ self.policy }
        ensures mechanism { result.1 ≡ self.mechanism }
    {
        (self.policy, self.mechanism)
    }
}
