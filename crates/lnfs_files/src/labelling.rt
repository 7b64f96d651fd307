//! A label that SETATTR sets: as it is spelled where labels are carried alone, and else by its level (RFC 7862 section
//! 12.2.4).
ghost use Rattle.std.specs.Prelude.{◌≡◌, ◌==◌, false, Ok, length};
ghost use Rattle.std.specs.Option.{option_map};
ghost use Rattle.lnfs_attrs.specs.declared.bitmap.Bitmap as bitmap;
ghost use Rattle.lnfs_monitor.specs.Rules.{Write, Raise};
ghost use Rattle.lnfs_world.specs.World.{Node, World};
ghost use Rattle.lnfs_world.specs.Facts.{NodeFacts};
ghost use Rattle.lnfs_world.specs.Effects.{parent_labels};
ghost use Rattle.lnfs_world.specs.Outcome.{Place};
ghost use Rattle.lnfs_world.specs.Usage.{bytes_of};
ghost use Rattle.lnfs_site.specs.Site.{site_of};
ghost use Rattle.lnfs_operations.specs.Judged.{where_allowed};
ghost use Rattle.lnfs_operations.specs.Shown.{label_shown};
ghost use Rattle.lnfs_operations.specs.SetAttr.{same_spelling, respelled, raised};
ghost use Rattle.lnfs_quota.specs.Totals.{AreTotals};
ghost use Rattle.lnfs_tree.specs.Rows.{Rows, id_of};
ghost use Rattle.lnfs_world.specs.Given.{stored_of};
ghost use Rattle.lnfs_tree.specs.Changed.{HasFacts};
ghost use Rattle.lnfs_open.specs.Lists.{Lists};
ghost use Rattle.lnfs_nodes.specs.Trees.{Holds, IsHeld, held_in, refusal_of, denial};
ghost use Rattle.lnfs_nodes.specs.Acts.{placed};
ghost use Rattle.lnfs_files.specs.Worlds.{with_files};
ghost use Rattle.lnfs_files.specs.Acts.{Acts};
ghost use Rattle.lnfs_files.specs.Charges.{IsListed};

use lnfs_arguments::statuses::NFS4ERR_NOTEMPTY;
use lnfs_calipso::Level;
use lnfs_monitor::Question;
use lnfs_nodes::{Caller, Held, denied, label_shown, namespace};
use lnfs_operations::Refusal;
use lnfs_quota::{Quota, law_fitting, law_totals};
use lnfs_site::Site;
use lnfs_tree::{NodeKind, Tree};
use lnfs_world::Stored;

// ---- as it is spelled

/// Whether a label is spelled as another.
fn is_spelled(a: &Stored, b: &Stored) -> bool
    ensures { result ≡ same_spelling (stored_of a.now) (stored_of b.now) }
{
    a.lfs == b.lfs && a.pi == b.pi && a.bytes.as_slice() == b.bytes.as_slice()
}

/// Whether a node shows a label as it is spelled.
fn shows(site: &Site<'_>, tree: &Tree, subject: Level, held: &Held, spelled: &Stored) -> bool
    ensures { (n : Node) (p : Place) → Holds tree.now n held.now →
        result ≡ same_spelling (label_shown (site_of site.now) (record p { subject = subject.0 }) n)
        (stored_of spelled.now) }
{
    is_spelled(label_shown(site, tree, subject, held), spelled)
}

/// Sets a label where labels are carried alone. One that is spelled as what the node shows changes nothing.
pub fn respell(
    site: &Site<'_>,
    tree: &mut Tree,
    quota: &Quota,
    caller: &Caller,
    held: &Held,
    spelled: Stored,
) -> Result<(), Refusal>
    requires counts { AreTotals quota.now tree.old.nodes }
    requires held { IsHeld tree.old (held_in tree.old.nodes (option_map id_of caller.now.current))
        (Ok held.now) }
    ensures acts { (n : Node) (p : Place) (rest : World) (opens : Lists) (set : bitmap.Bitmap) →
        Holds tree.old n held.now →
        let at = placed p caller.now in
        Acts (λ it. set) at rest tree.old tree.new opens opens
        (where_allowed (site_of site.now) at (Write n.label)
        (respelled (site_of site.now) at n (stored_of spelled) set)) result }
    ensures counts { AreTotals quota.now tree.new.nodes }
{
    // The call says that the totals stay where the content keeps its length.
    law_totals();
    let label = held.facts.label;
    if let Some(why) = denied(site, caller.subject, &Question::Write { label }) {
        return Err(why);
    }
    if shows(site, tree, caller.subject, held, &spelled) {
        return Ok(());
    }
    // The node is there, so that there is no error.
    let _done = tree.respell(held.id, spelled, caller.moment);
    Ok(())
}

// ---- by its level

/// What the rules refuse of raising a node's label. They ask for the labels of the directories that name the node. Where
/// the subject is at the node's label, these pass exactly where its home does and it isn't the root.
fn raise_denied(
    site: &Site<'_>,
    tree: &Tree,
    subject: Level,
    held: &Held,
    new: Level,
) -> Option<Refusal>
    requires { NodeFacts (site_of site.now).dom tree.now.nodes tree.now.entries tree.now.lasts }
    ensures { (n : Node) → Holds tree.now n held.now →
        option_map refusal_of result ≡ denial (site_of site.now) subject.0
        (Raise n.label (parent_labels tree.now.nodes tree.now.entries n.id) new.0) }
{
    let old = held.facts.label;
    let home = held.id.home;
    if held.id == tree.root() {
        denied(
            site,
            subject,
            &Question::Raise {
                old,
                parents: &[],
                new,
            },
        )
    } else {
        denied(
            site,
            subject,
            &Question::Raise {
                old,
                parents: &[home],
                new,
            },
        )
    }
}

/// The bytes of a node that are counted in its label: those of a file.
fn counted_bytes(held: &Held) -> u64
    ensures { (t : Rows) (n : Node) → Holds t n held.now → result ≡ bytes_of n n.kind }
{
    match held.facts.kind {
        NodeKind::File => held.facts.size,
        NodeKind::Dir | NodeKind::Link => 0,
    }
}

/// Sets another level, in which the bytes are counted then.
///
/// # Errors
///
/// NFS4ERR_NOTEMPTY of a directory that holds names.
fn put_level(
    tree: &mut Tree,
    quota: &mut Quota,
    caller: &Caller,
    held: &Held,
    level: Level,
    bytes: u64,
) -> Result<(), Refusal>
    requires facts { HasFacts tree.old }
    requires counts { AreTotals quota.old tree.old.nodes }
    requires held { IsHeld tree.old (held_in tree.old.nodes (option_map id_of caller.now.current))
        (Ok held.now) }
    requires bytes { (t : Rows) (n : Node) → Holds t n held.now → bytes ≡ bytes_of n n.kind }
    requires listed { IsListed level.0 }
    requires other { (level.0 == held.now.facts.label.0) ≡ false }
    ensures acts { (n : Node) (p : Place) (rest : World) (opens : Lists) (set : bitmap.Bitmap) →
        Holds tree.old n held.now →
        let at = placed p caller.now in
        Acts (λ it. set) at rest tree.old tree.new opens opens
        (raised at (with_files rest tree.old opens) n level.0 set) result }
    ensures counts { AreTotals quota.new tree.new.nodes }
    ensures levels { length quota.new ≡ length quota.old }
{
    // The calls say what another label does to the totals, and that they hold the bytes.
    law_totals();
    law_fitting();
    match tree.raise(held.id, level, caller.moment) {
        Ok(()) => {
            quota.move_up(held.facts.label, level, bytes);
            Ok(())
        }
        // The node is there, so that it is a directory that holds names.
        Err(_) => Err(namespace(NFS4ERR_NOTEMPTY)),
    }
}

/// Sets the level of a label. A level that is the node's own changes nothing, and a directory keeps its label as long as
/// it holds names. The bytes of a file are counted in the new level, whatever its limit. Takes no memory.
pub fn raise(
    site: &Site<'_>,
    tree: &mut Tree,
    quota: &mut Quota,
    caller: &Caller,
    held: &Held,
    level: Level,
) -> Result<(), Refusal>
    requires facts { NodeFacts (site_of site.now).dom tree.old.nodes tree.old.entries
        tree.old.lasts }
    requires counts { AreTotals quota.old tree.old.nodes }
    requires held { IsHeld tree.old (held_in tree.old.nodes (option_map id_of caller.now.current))
        (Ok held.now) }
    requires listed { IsListed level.0 }
    ensures acts { (n : Node) (p : Place) (rest : World) (opens : Lists) (set : bitmap.Bitmap) →
        Holds tree.old n held.now →
        let at = placed p caller.now in
        Acts (λ it. set) at rest tree.old tree.new opens opens
        (where_allowed (site_of site.now) at (Raise n.label
        (parent_labels tree.old.nodes tree.old.entries n.id) level.0)
        (raised at (with_files rest tree.old opens) n level.0 set)) result }
    ensures counts { AreTotals quota.new tree.new.nodes }
    ensures levels { length quota.new ≡ length quota.old }
{
    if let Some(why) = raise_denied(site, tree, caller.subject, held, level) {
        return Err(why);
    }
    if level == held.facts.label {
        return Ok(());
    }
    let bytes = counted_bytes(held);
    put_level(tree, quota, caller, held, level, bytes)
}
