//! A core of lists that stand already, and what it keeps of them.
ghost use Rattle.std.specs.Prelude.{◌≡◌, false, not, is_some, IfOk, IfSome};

use crate::cores::Core;
use crate::front::Front;
use crate::stand::Stand;
use lnfs_engine::{Engine, ReadExtra, Store};
use lnfs_format::Codecs;
use lnfs_gss3::Mechanism;
use lnfs_policy::Policy;
use std::alloc::{AllocError, Global};

impl<M: Mechanism + Drop, X: ReadExtra> Core<M, X> {
    /// The core of a site whose lists stand already. The codecs write its labels.
    ///
    /// # Errors
    ///
    /// `AllocError` where there is no memory.
    pub fn from_parts(
        alloc: Global,
        policy: Policy,
        codecs: &Codecs,
        mechanism: M,
        store: Store,
        extra: X,
    ) -> Result<Core<M, X>, AllocError>
        ensures policy { IfOk result (λ core. core.policy ≡ policy) }
        ensures mechanism { IfOk result (λ core. core.mechanism ≡ mechanism) }
        ensures world { IfOk result (λ core. core.world ≡ store) }
        ensures extra { IfOk result (λ core. core.extra ≡ extra) }
        ensures running { IfOk result (λ core. core.stopped ≡ false) }
    {
        let front = Front::new(alloc, policy, codecs, mechanism, &extra)?;
        let stand = Stand {
            engine: Engine::from_parts(alloc, store, extra),
            stopped: false,
        };
        Ok(Core { front, stand })
    }

    /// The policy of the site.
    pub fn policy(&self) -> &Policy
        ensures { result.now ≡ self.now.policy }
    {
        self.front.policy()
    }

    /// What serves further operations.
    pub fn extra(&self) -> &X
        ensures { result.now ≡ self.now.extra }
    {
        &self.stand.engine.extra
    }

    /// The lists. None where want of memory has stopped it: then they may be those of no event.
    pub fn store(&self) -> Option<&Store>
        ensures there { IfSome result (λ store. store.now ≡ self.now.world) }
        ensures running { is_some result ≡ not self.now.stopped }
    {
        if self.stand.stopped {
            return None;
        }
        Some(&self.stand.engine.store)
    }
}
