//! Operations beside those of the table.
ghost use Rattle.std.specs.Prelude.{◌≡◌, IfOk};
ghost use Rattle.lnfs_policy.specs.Policy.{dominance};
ghost use Rattle.lnfs_world.specs.Both.{both, BothStand};
ghost use Rattle.lnfs_site.specs.Site.{site_of};
ghost use Rattle.lnfs_nodes.specs.Acts.{placed};
ghost use Rattle.lnfs_operations.specs.Extra.{place_at};
ghost use Rattle.lnfs_engine.specs.Further.{spot_of, after_of};

use crate::store::Store;
use lnfs_arguments::statuses::NFS4ERR_NOTSUPP;
use lnfs_arguments::{ExtraGrammar, NoExtraGrammar};
use lnfs_calipso::Level;
use lnfs_nodes::Caller;
use lnfs_operations::{ExtraRows, Gate, Refusal};
use lnfs_site::Site;
use lnfs_tree::NodeId;
use lnfs_types::{Moment, Octets};
use lnfs_xdr::XdrError;
use std::alloc::{AllocError, Global};

/// What a further operation answers: what refused it, if anything did, and the bytes behind its status.
#[derive(Debug, Drop)]
pub struct ExtraRan {
    pub refusal: Option<Refusal>,
    pub bytes: Octets,
}

/// Where a further operation stands: the site, with its lattice and its mode; who asks, and when; the client under which it
/// came, a number of the subject's level; and the two file handles (RFC 8881 section 16.2.3.1). It may set the file handles:
/// nothing else is read of it afterwards.
#[derive(Clone, Copy)]
pub struct Spot<'a> {
    pub site: &'a Site<'a>,
    pub subject: Level,
    pub moment: Moment,
    pub client: Option<u32>,
    pub current: Option<NodeId>,
    pub saved: Option<NodeId>,
}

impl<'a> Spot<'a> {
    /// Who calls, as the operations of the table are told it.
    pub fn caller(&self) -> Caller
        ensures { placed (place_at (spot_of self.now)) result ≡ place_at (spot_of self.now) }
    {
        Caller {
            subject: self.subject,
            moment: self.moment,
            current: self.current,
            saved: self.saved,
        }
    }
}

/// What serves operations beside those of the table.
pub trait Extra: ExtraRows + ExtraGrammar + Drop {
    /// Runs one by its number and its arguments: what it answers and leaves is its outcome there.
    fn run(
        &mut self,
        alloc: Global,
        store: &mut Store,
        at: &mut Spot<'_>,
        number: u32,
        args: &[u8],
    ) -> Result<ExtraRan, AllocError>
        requires stands { BothStand Self.extra.Fact (dominance at.old.site.now)
            (place_at (spot_of at.old)) (both store.old (Self.rows self.old)) }
        ensures outcome { IfOk result (λ ran. after_of ran at.new
            (both store.new (Self.rows self.new))
            ≡ Self.extra.outcome (site_of at.old.site.now) number args.now (spot_of at.old)
            (both store.old (Self.rows self.old))) };

    /// The grammar by which they are read is the one of their definition.
    ghost same_grammar: { Self.grammar ≡ Self.extra.grammar };
}

/// What serves operations beside those of the table, and lets them be read without its rows: so a COMPOUND is read while
/// the rows serve another.
pub trait ReadExtra: Extra {
    /// What reads them.
    type Reader: ExtraGrammar + Drop;

    /// Something that reads them.
    fn reader(&self) -> Self::Reader;

    /// The reader's grammar is the one of their definition.
    ghost same_reader: { Self.Reader.grammar ≡ Self.extra.grammar };
}

/// No operations beside those of the table, and no rows.
#[derive(Clone, Copy, Debug, Drop)]
pub struct NoExtra;

impl ExtraRows for NoExtra {
    ghost use Rattle.std.specs.Prelude.{[]};
    ghost use Rattle.lnfs_operations.specs.Extra.{no_extra};
    ghost use Rattle.lnfs_operations.proofs.NoExtra.{no_extra_is_lawful};

    ghost extra = { no_extra };

    ghost rows = { λ it. [] };

    ghost lawful = { no_extra_is_lawful };
}

impl ExtraGrammar for NoExtra {
    ghost use Rattle.lnfs_arguments.specs.Further.{nothing_further};
    ghost use Rattle.lnfs_arguments.specs.Lawful.{nothing_further_is_lawful};

    ghost grammar = { nothing_further };

    fn serves(&self, number: u32) -> bool {
        NoExtraGrammar.serves(number)
    }

    fn length(&self, number: u32, rest: &[u8]) -> Result<usize, XdrError> {
        NoExtraGrammar.length(number, rest)
    }

    fn bound(&self, number: u32, args: &[u8]) -> u32 {
        NoExtraGrammar.bound(number, args)
    }

    ghost lawful = { nothing_further_is_lawful };
}

impl Extra for NoExtra {
    ghost use Rattle.std.specs.Prelude.{refl};

    fn run(
        &mut self,
        alloc: Global,
        _store: &mut Store,
        _at: &mut Spot<'_>,
        _number: u32,
        _args: &[u8],
    ) -> Result<ExtraRan, AllocError> {
        Ok(ExtraRan {
            refusal: Some(Refusal {
                gate: Gate::Outside,
                status: NFS4ERR_NOTSUPP,
            }),
            bytes: Octets::new(Vec::new(alloc)),
        })
    }

    ghost same_grammar = { refl };
}

impl ReadExtra for NoExtra {
    type Reader = NoExtra;

    ghost use Rattle.std.specs.Prelude.{refl};

    fn reader(&self) -> NoExtra {
        NoExtra
    }

    ghost same_reader = { refl };
}
