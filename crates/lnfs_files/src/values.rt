//! The attributes but the label that SETATTR sets: the size of a file, and a mode (RFC 8881 section 18.30).
ghost use Rattle.std.specs.Prelude.{◌≡◌, ◌||◌, ◌≤◌, true, List, [], ◌∷◌, Ok, Some, None, is_some, cond, IfSome, OnOk, length};
ghost use Rattle.std.specs.Option.{option_map};
ghost use Rattle.lnfs_attrs.specs.declared.bitmap.Bitmap as bitmap;
ghost use Rattle.lnfs_monitor.specs.Rules.{Write};
ghost use Rattle.lnfs_world.specs.World.{File, Node, World, node_at};
ghost use Rattle.lnfs_world.specs.Change.{Touch, apply_all};
ghost use Rattle.lnfs_world.specs.Effects.{sized, data_changed};
ghost use Rattle.lnfs_world.specs.Outcome.{Place};
ghost use Rattle.lnfs_site.specs.Site.{site_of};
ghost use Rattle.lnfs_operations.specs.SetAttr.{where_size, mode_set, values_written, values_set};
ghost use Rattle.lnfs_quota.specs.declared.quota.Row.{Row};
ghost use Rattle.lnfs_quota.specs.Totals.{AreTotals};
ghost use Rattle.lnfs_tree.specs.Rows.{id_of, kind_of};
ghost use Rattle.lnfs_tree.specs.Changed.{ran};
ghost use Rattle.lnfs_world.specs.declared.numbers.TheConstants.{MOST_FILE};
ghost use Rattle.lnfs_open.specs.Lists.{Lists};
ghost use Rattle.lnfs_nodes.specs.Trees.{Holds, IsHeld, held_in, refusal_of, denial};
ghost use Rattle.lnfs_nodes.specs.Acts.{failed, placed};
ghost use Rattle.lnfs_files.specs.Worlds.{with_files};
ghost use Rattle.lnfs_files.specs.Leases.{Leases};
ghost use Rattle.lnfs_files.specs.Acts.{Acts};
ghost use Rattle.lnfs_files.specs.Tests.{passed, refusal_in};
ghost use Rattle.lnfs_files.specs.Charges.{MayResize};
ghost use Rattle.lnfs_files.specs.Openings.{IsThere};
ghost use Rattle.lnfs_files.specs.Setting.{unlabelled};

use crate::charging::{byte_room, law_numbered};
use crate::state_ids::{Way, check_usable};
use crate::writing::past_quota;
use lnfs_arguments::StateId;
use lnfs_arguments::statuses::NFS4ERR_FBIG;
use lnfs_calipso::Level;
use lnfs_monitor::Question;
use lnfs_nodes::{Caller, Held, denied, namespace};
use lnfs_open::{ClientKey, Opens};
use lnfs_operations::Refusal;
use lnfs_quota::{Quota, law_totals};
use lnfs_site::Site;
use lnfs_tree::{NodeId, Tree};
use lnfs_types::Moment;
use lnfs_world::numbers::MOST_FILE;

// ---- what is tested

/// Whether anything is to be written.
fn writes(sized: bool, mode: Option<u32>) -> bool
    ensures { result ≡ (sized || is_some mode) }
{
    sized || mode.is_some()
}

/// What the rules refuse of writing at a label, in some cases.
fn write_denied(site: &Site<'_>, subject: Level, label: Level, writes: bool) -> Option<Refusal>
    ensures { option_map refusal_of result ≡ cond writes
        (denial (site_of site.now) subject.0 (Write label.0)) None }
{
    if writes {
        denied(site, subject, &Question::Write { label })
    } else {
        None
    }
}

/// What refuses a size of a file: the use of its state id, NFS4ERR_FBIG where a file may not have so many bytes, and
/// NFS4ERR_DQUOT where it grows and its level's bytes would pass their limit.
fn check_size<F: Fn(ClientKey) -> bool>(
    site: &Site<'_>,
    tree: &Tree,
    opens: &Opens,
    quota: &Quota,
    caller: &Caller,
    client: Option<u32>,
    held: &Held,
    id: &StateId,
    size: u64,
    over: &F,
) -> Result<(), Refusal>
    requires told { F.IsAlwaysCallable over.now }
    requires counts { AreTotals quota.now tree.now.nodes }
    requires held { IsHeld tree.now (held_in tree.now.nodes (option_map id_of caller.now.current))
        (Ok held.now) }
    requires file { kind_of held.now.facts.kind ≡ File }
    ensures refused { (n : Node) (p : Place) (rest : World) →
        Leases (F.post over.now) rest caller.now.moment → p.client ≡ client →
        Holds tree.now n held.now →
        let at = placed p caller.now in
        failed result
        ≡ refusal_in (where_size (site_of site.now) id.now at
        (with_files rest tree.now opens.now) n (Some size) (passed at)) }
    ensures fits { OnOk result (size ≤ MOST_FILE) }
    ensures resizes { OnOk result (MayResize quota.now held.now.facts.label.0 held.now.facts.size
        size) }
{
    // The call says that the file's bytes are counted in its label.
    law_totals();
    if let Err(why) = check_usable(site, opens, caller, client, held.id, id, Way::Writing, over) {
        return Err(why);
    }
    if size > MOST_FILE {
        return Err(namespace(NFS4ERR_FBIG));
    }
    if !byte_room(site, quota, held.facts.label, held.facts.size, size) {
        return Err(past_quota());
    }
    Ok(())
}

/// What refuses a size, if one is set.
fn check_given<F: Fn(ClientKey) -> bool>(
    site: &Site<'_>,
    tree: &Tree,
    opens: &Opens,
    quota: &Quota,
    caller: &Caller,
    client: Option<u32>,
    held: &Held,
    id: &StateId,
    size: Option<u64>,
    over: &F,
) -> Result<(), Refusal>
    requires told { F.IsAlwaysCallable over.now }
    requires counts { AreTotals quota.now tree.now.nodes }
    requires held { IsHeld tree.now (held_in tree.now.nodes (option_map id_of caller.now.current))
        (Ok held.now) }
    requires file { IfSome size (λ size. kind_of held.now.facts.kind ≡ File) }
    ensures refused { (n : Node) (p : Place) (rest : World) →
        Leases (F.post over.now) rest caller.now.moment → p.client ≡ client →
        Holds tree.now n held.now →
        let at = placed p caller.now in
        failed result
        ≡ refusal_in (where_size (site_of site.now) id.now at
        (with_files rest tree.now opens.now) n size (passed at)) }
    ensures fits { OnOk result (IfSome size (λ size. size ≤ MOST_FILE)) }
    ensures resizes { OnOk result (IfSome size (λ size.
        MayResize quota.now held.now.facts.label.0 held.now.facts.size size)) }
{
    match size {
        Some(size) => check_size(
            site, tree, opens, quota, caller, client, held, id, size, over,
        ),
        None => Ok(()),
    }
}

// ---- what is done

/// Sets the size of a file, which may have so many bytes.
pub(crate) fn put_size(tree: &mut Tree, quota: &mut Quota, held: &Held, size: u64, moment: Moment)
    requires counts { AreTotals quota.old tree.old.nodes }
    requires there { IsThere tree.old held.now }
    requires file { kind_of held.now.facts.kind ≡ File }
    requires fits { size ≤ MOST_FILE }
    requires resizes { MayResize quota.old held.now.facts.label.0 held.now.facts.size size }
    ensures done { (n : Node) → Holds tree.old n held.now →
        tree.new ≡ ran (Touch n.id (data_changed moment (sized size n.inner.content) n.inner) ∷ [])
        tree.old }
    ensures counts { AreTotals quota.new tree.new.nodes }
    ensures levels { length quota.new ≡ length quota.old }
{
    // The calls say what a change of a file's bytes does to the totals.
    law_totals();
    law_numbered(held.id);
    // The file is there and may have so many bytes, so that there is no error.
    let _done = tree.set_size(held.id, size, moment);
    quota.resize(held.facts.label, held.facts.size, size);
}

/// Sets the mode of a node that is there.
fn put_mode(tree: &mut Tree, caller: &Caller, id: NodeId, mode: u32)
    requires there { is_some (node_at tree.old.nodes (id_of id)) ≡ true }
    ensures done { (n : Node) (p : Place) → node_at tree.old.nodes (id_of id) ≡ Some n →
        tree.new ≡ ran (Touch n.id (mode_set (placed p caller.now) (Some mode) n.inner) ∷ [])
        tree.old }
    ensures counts { (rows : List Row) → AreTotals rows tree.old.nodes →
        AreTotals rows tree.new.nodes }
{
    // The call says that the totals stay where the content keeps its length.
    law_totals();
    // The node is there, so that there is no error.
    let _done = tree.set_mode(id, mode, caller.moment);
}

/// Sets a size that was tested, and a mode. Each of them steps the change number.
fn put_values(
    tree: &mut Tree,
    quota: &mut Quota,
    caller: &Caller,
    held: &Held,
    size: Option<u64>,
    mode: Option<u32>,
)
    requires counts { AreTotals quota.old tree.old.nodes }
    requires held { IsHeld tree.old (held_in tree.old.nodes (option_map id_of caller.now.current))
        (Ok held.now) }
    requires file { IfSome size (λ size. kind_of held.now.facts.kind ≡ File) }
    requires fits { IfSome size (λ size. size ≤ MOST_FILE) }
    requires resizes { IfSome size (λ size. MayResize quota.old held.now.facts.label.0
        held.now.facts.size size) }
    ensures done { (n : Node) (p : Place) (rest : World) (opens : Lists) →
        Holds tree.old n held.now →
        apply_all (values_written (placed p caller.now) n (unlabelled size mode))
        (with_files rest tree.old opens) ≡ with_files rest tree.new opens }
    ensures counts { AreTotals quota.new tree.new.nodes }
    ensures levels { length quota.new ≡ length quota.old }
{
    if let Some(size) = size {
        put_size(tree, quota, held, size, caller.moment);
    }
    if let Some(mode) = mode {
        put_mode(tree, caller, held.id, mode);
    }
}

/// Sets the attributes but the label. Takes no memory.
pub fn set_values<F: Fn(ClientKey) -> bool>(
    site: &Site<'_>,
    tree: &mut Tree,
    opens: &Opens,
    quota: &mut Quota,
    caller: &Caller,
    client: Option<u32>,
    held: &Held,
    id: &StateId,
    size: Option<u64>,
    mode: Option<u32>,
    over: &F,
) -> Result<(), Refusal>
    requires told { F.IsAlwaysCallable over.now }
    requires counts { AreTotals quota.old tree.old.nodes }
    requires held { IsHeld tree.old (held_in tree.old.nodes (option_map id_of caller.now.current))
        (Ok held.now) }
    requires file { IfSome size (λ size. kind_of held.now.facts.kind ≡ File) }
    ensures acts { (n : Node) (p : Place) (rest : World) (set : bitmap.Bitmap) →
        Leases (F.post over.now) rest caller.now.moment → p.client ≡ client →
        Holds tree.old n held.now →
        let at = placed p caller.now in
        Acts (λ it. set) at rest tree.old tree.new opens.now opens.now
        (values_set (site_of site.now) id.now at (with_files rest tree.old opens.now) n
        (unlabelled size mode) set) result }
    ensures counts { AreTotals quota.new tree.new.nodes }
    ensures levels { length quota.new ≡ length quota.old }
{
    let writes = writes(size.is_some(), mode);
    if let Some(why) = write_denied(site, caller.subject, held.facts.label, writes) {
        return Err(why);
    }
    check_given(
        site, tree, opens, quota, caller, client, held, id, size, over,
    )?;
    put_values(tree, quota, caller, held, size, mode);
    Ok(())
}
