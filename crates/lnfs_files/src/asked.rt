//! What OPEN is asked (RFC 8881 section 18.16), and the tests of that alone.
ghost use Rattle.std.specs.Prelude.{◌≡◌};
ghost use Rattle.lnfs_world.specs.Outcome.{Place, Outcome};
ghost use Rattle.lnfs_operations.specs.Chain.{Answer};
ghost use Rattle.lnfs_operations.specs.Open as operation;
ghost use Rattle.lnfs_nodes.specs.Acts.{checked};
ghost use Rattle.lnfs_files.specs.Openings.{args_of, where_words};

use lnfs_arguments::statuses::NFS4ERR_INVAL;
use lnfs_arguments::{Claim, Making};
use lnfs_attrs::RawAttrs;
use lnfs_attrs::numbers::SIZE;
use lnfs_nodes::{argument, check_name};
use lnfs_operations::Refusal;
use lnfs_operations::numbers::{OPEN4_SHARE_ACCESS_BOTH, OPEN4_SHARE_ACCESS_WRITE};

/// How many shares there are, of none to both: the share access is what is left of its word by so many. What stands
/// above wants delegations, which aren't given.
const SHARES: u32 = 4;

/// What OPEN looks at of its arguments: neither the sequence nor the client id (RFC 8881 section 18.16.3).
#[derive(Drop)]
pub struct Opening<'a> {
    /// The word of the share access.
    pub access: u32,
    /// What is to be denied to others.
    pub deny: u32,
    /// The opaque name of the open owner.
    pub owner: &'a [u8],
    /// How a file is made, if it is to be.
    pub making: &'a Option<Making>,
    pub claim: &'a Claim,
}

impl<'a> Opening<'a> {
    /// What the open is for.
    pub fn share(&self) -> u32
        ensures { result ≡ operation.access_of (args_of self.now) }
    {
        self.access % SHARES
    }
}

/// The attributes of a file that is to be made.
pub fn attrs_of(making: &Making) -> &RawAttrs
    ensures { result.now ≡ operation.attrs_of making.now }
{
    match making {
        Making::Unchecked { attrs } => attrs,
        Making::Guarded { attrs } => attrs,
        Making::Exclusive { attrs, .. } => attrs,
    }
}

/// Whether a size is among them.
fn gives_size(making: &Option<Making>) -> bool
    ensures { result ≡ operation.gives_size making.now }
{
    match making {
        Some(making) => attrs_of(making).mask.has(SIZE),
        None => false,
    }
}

/// Whether the current file is opened by itself, and not by a name.
fn is_of_handle(claim: &Claim) -> bool
    ensures { result ≡ operation.is_of_handle claim.now }
{
    match claim {
        Claim::Name { .. } => false,
        Claim::Handle => true,
    }
}

/// What refuses the arguments but for the name and the attributes.
///
/// # Errors
///
/// NFS4ERR_INVAL where the share access is none, where more is to be denied than reading and writing, where a file is to
/// be made and the current one opened, and where a size is given without write access.
pub fn check_words(args: &Opening<'_>) -> Result<(), Refusal>
    ensures { (p : Place) (next : Outcome (Answer operation.Opened)) →
        where_words p (args_of args.now) next ≡ checked p result (λ it. next) }
{
    let share = args.share();
    if share == 0
        || args.deny > OPEN4_SHARE_ACCESS_BOTH
        || is_of_handle(args.claim) && args.making.is_some()
        || gives_size(args.making) && share & OPEN4_SHARE_ACCESS_WRITE == 0
    {
        return Err(argument(NFS4ERR_INVAL));
    }
    Ok(())
}

/// What refuses the name that is to be opened, if one is.
///
/// # Errors
///
/// Those of `check_name`.
pub fn check_claim(claim: &Claim) -> Result<(), Refusal>
    ensures { (p : Place) (next : Outcome (Answer operation.Opened)) →
        operation.where_claim p claim.now next ≡ checked p result (λ it. next) }
{
    match claim {
        Claim::Name { name } => check_name(name.as_slice()),
        Claim::Handle => Ok(()),
    }
}
