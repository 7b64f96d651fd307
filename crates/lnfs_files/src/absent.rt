//! OPEN of a name that isn't there: a file is made, where one is to be.
ghost use Rattle.std.specs.Prelude.{◌≡◌, ◌&&◌, true, Some, List, IfOk, IfSome, OnErr, nat_lt};
ghost use Rattle.std.specs.List.{AllByRecursion};
ghost use Rattle.std.specs.Option.{option_map};
ghost use Rattle.lnfs_world.specs.World.{Node, World, label_at};
ghost use Rattle.lnfs_world.specs.Usage.{nodes_used};
ghost use Rattle.lnfs_world.specs.Facts.{NodeFacts, is_good_open};
ghost use Rattle.lnfs_world.specs.Effects.{next_id};
ghost use Rattle.lnfs_world.specs.Outcome.{Place};
ghost use Rattle.lnfs_site.specs.Site.{site_of};
ghost use Rattle.lnfs_operations.specs.Given.{level_or};
ghost use Rattle.lnfs_operations.specs.Open as operation;
ghost use Rattle.lnfs_open.specs.Opening.{has_open_left};
ghost use Rattle.lnfs_tree.specs.Rows.{id_of};
ghost use Rattle.lnfs_tree.specs.Changed as tree_changed;
ghost use Rattle.lnfs_nodes.specs.Trees.{Holds};
ghost use Rattle.lnfs_nodes.specs.Acts.{placed};
ghost use Rattle.lnfs_nodes.specs.GivenValues.{given_of};
ghost use Rattle.lnfs_quota.specs.Totals.{AreTotals};
ghost use Rattle.lnfs_files.specs.Worlds.{with_files};
ghost use Rattle.lnfs_files.specs.Acts.{ActsTo};
ghost use Rattle.lnfs_files.specs.Openings.{args_of, wanted_of, opened_of, IsAbsentIn, IsOrMade};
ghost use Rattle.lnfs_files.specs.Charges.{MayRise, IsListed};

use crate::charging::room_for;
use crate::opened::{Opened, state_id_of};
use crate::present::Opener;
use crate::references::node_key;
use crate::sharing::check_makable;
use crate::wanted::Wanted;
use lnfs_arguments::Making;
use lnfs_arguments::statuses::NFS4ERR_NOENT;
use lnfs_calipso::Level;
use lnfs_nodes::{Held, cinfo, kept_label, level_or, namespace, no_space};
use lnfs_open::{OpenError, Opens};
use lnfs_operations::Refusal;
use lnfs_operations::numbers::FILE_MODE;
use lnfs_quota::{Quota, law_totals};
use lnfs_tree::{Fresh, NodeKind, Tree, TreeError};
use lnfs_types::Octets;
use std::alloc::AllocError;

/// The verifier of an exclusive create.
fn verifier_of(making: &Making) -> Option<[u8; 8]>
    ensures { result ≡ operation.verifier_of making.now }
{
    match making {
        Making::Unchecked { .. } | Making::Guarded { .. } => None,
        Making::Exclusive { verifier, .. } => Some(*verifier),
    }
}

/// The mode of a new file.
fn file_mode(mode: Option<u32>) -> u32
    ensures { result ≡ operation.file_mode mode }
{
    match mode {
        Some(mode) => mode,
        None => FILE_MODE,
    }
}

/// What a new file in a directory is made with. Its home is the directory's label.
fn fresh_file(
    opener: &Opener<'_>,
    tree: &Tree,
    dir: &Held,
    making: &Making,
    label: Level,
    wanted: Wanted,
) -> Result<Fresh, AllocError>
    ensures home { IfOk result (λ fresh. fresh.home ≡ dir.now.facts.label) }
    ensures label { IfOk result (λ fresh. fresh.label ≡ label) }
    ensures node { IfOk result (λ fresh. (d : Node) (p : Place) (w : World) →
        Holds tree.now d dir.now → label.0 ≡ level_or d.label (option_map given_of wanted.label) →
        tree_changed.new_node p.moment fresh (next_id w.lasts.nodes d.label)
        ≡ operation.new_file (site_of opener.now.site.now)
        (record p { subject = opener.now.caller.now.subject.0 }) w making.now (wanted_of wanted)
        d) }
{
    let (alloc, site, subject) = (opener.alloc, opener.site, opener.caller.subject);
    let Wanted {
        mode,
        label: given,
        ..
    } = wanted;
    let stored = kept_label(alloc, site, tree, subject, dir, given)?;
    Ok(Fresh {
        kind: NodeKind::File,
        home: dir.facts.label,
        label,
        stored,
        mode: file_mode(mode),
        text: Octets::new(Vec::new(alloc)),
        verifier: verifier_of(making),
    })
}

/// Whether a level may have one more node, and the client one more open.
fn has_room(opener: &Opener<'_>, opens: &Opens, quota: &Quota, home: Level) -> bool
    ensures room { (nodes : List Node) → AreTotals quota.now nodes →
        result ≡ (nat_lt (nodes_used nodes home.0) ((site_of opener.now.site.now).nodes home.0)
        && has_open_left opens.now opener.now.client.level.0) }
    ensures rises { result ≡ true → MayRise quota.now home.0 }
{
    let room = room_for(opener.site, quota, home);
    room && opens.room(opener.client, opener.args.owner, None).is_ok()
}

/// Makes a file in a directory that hasn't its name, and opens it.
///
/// Refused in this order: by NFS4ERR_NOENT where no file is to be made, as `check_makable` does, and by NFS4ERR_NOSPC
/// where the directory's level has as many nodes as it may have, or no number or cookie for one more, or the subject's
/// level as many opens as it may have.
///
/// # Errors
///
/// `AllocError` where there is no memory. Then nothing is open that wasn't, and the file may have been made.
pub fn open_absent(
    opener: &Opener<'_>,
    tree: &mut Tree,
    opens: &mut Opens,
    quota: &mut Quota,
    wanted: Wanted,
    dir: &Held,
    name: &[u8],
) -> Result<Result<Opened, Refusal>, AllocError>
    requires level { opener.now.client.level ≡ opener.now.caller.now.subject }
    requires there { IsAbsentIn tree.old dir.now name.now }
    requires facts { NodeFacts (site_of opener.now.site.now).dom tree.old.nodes tree.old.entries
        tree.old.lasts }
    requires opens { AllByRecursion (λ o. is_good_open (site_of opener.now.site.now).dom
        (label_at tree.old.nodes) o ≡ true) opens.old.opens }
    requires counts { AreTotals quota.old tree.old.nodes }
    requires listed { IfSome wanted.label (λ given. IsListed given.level.0) }
    ensures acts { IfOk result (λ told. (p : Place) (rest : World) (d : Node) →
        Holds tree.old d dir.now →
        let at = placed p opener.now.caller.now in
        ActsTo opened_of (λ o. record at { current = Some (id_of o.node) }) at rest tree.old
        tree.new opens.old opens.new
        (operation.open_absent (site_of opener.now.site.now) (args_of opener.now.args.now) at
        (with_files rest tree.old opens.old) opener.now.client.number d name.now
        (wanted_of wanted) opener.now.args.now.making.now) told) }
    ensures tree { OnErr result (IsOrMade tree.old tree.new) }
    ensures opens { OnErr result (opens.new ≡ opens.old) }
    ensures counts { AreTotals quota.new tree.new.nodes }
{
    let Some(making) = opener.args.making else {
        return Ok(Err(namespace(NFS4ERR_NOENT)));
    };
    let (args, caller, home) = (opener.args, opener.caller, dir.facts.label);
    let label = level_or(home, &wanted.label);
    if let Err(why) = check_makable(opener.site, caller.subject, args, dir, label) {
        return Ok(Err(why));
    }
    if !has_room(opener, opens, quota, home) {
        return Ok(Err(no_space()));
    }
    let set = wanted.set;
    let fresh = fresh_file(opener, tree, dir, making, label, wanted)?;
    let (node, info) = match tree.insert(opener.alloc, dir.id, name, fresh, caller.moment) {
        Ok(made) => made,
        Err(error) => match error {
            TreeError::Spent => return Ok(Err(no_space())),
            TreeError::Memory => return Err(AllocError),
            // The directory is there and hasn't the name.
            _ => unreachable!(),
        },
    };
    law_totals();
    quota.charge_node(home);
    match opens.open(
        opener.client,
        args.owner,
        node_key(node),
        args.share(),
        args.deny,
    ) {
        Ok(id) => Ok(Ok(Opened {
            id: state_id_of(id),
            node,
            info: cinfo(info),
            set,
        })),
        Err(error) => match error {
            OpenError::Memory => Err(AllocError),
            // There is room.
            _ => unreachable!(),
        },
    }
}
