//! The way to the node that an action is enforced on.
ghost use Rattle.std.specs.Prelude.{◌≡◌, ◌≤◌, ◌+◌, ◌++◌, length, map, All, IfOk, OnOk};
ghost use Rattle.lnfs_requests.specs.Fits.{OpFits};
ghost use Rattle.lnfs_script.specs.Fits.{ActionFits};
ghost use Rattle.lnfs_client.specs.Names.{AreNames};
ghost use Rattle.lnfs_client.specs.Requests.{is_on_parent, last_name, names_of, path_of, to_target, walk};

use lnfs_arguments::Op;
use lnfs_script::{Action, Components};
use lnfs_types::Octets;
use std::alloc::{AllocError, Global};

/// The path that an action names.
fn path_of(action: &Action) -> &[u8]
    ensures { result.now ≡ path_of action.now }
{
    match action {
        Action::Mount | Action::Leave => &[],
        Action::List { path }
        | Action::Read { path, .. }
        | Action::Write { path, .. }
        | Action::Make { path }
        | Action::Mkdir { path, .. }
        | Action::Remove { path }
        | Action::Raise { path, .. } => path.as_slice(),
    }
}

/// Whether the action is on the directory in which the last name stands, or is to stand.
fn is_on_parent(action: &Action) -> bool
    ensures { result ≡ is_on_parent action.now }
{
    matches!(
        action,
        Action::Make { .. } | Action::Mkdir { .. } | Action::Remove { .. }
    )
}

/// The names of an action's path, in order.
fn names_of(alloc: Global, action: &Action) -> Result<Vec<Octets>, AllocError>
    requires { ActionFits action.now }
    ensures names { IfOk result (λ names. names.items ≡ names_of action.now) }
    ensures fit { IfOk result (λ names. AreNames names.items) }
{
    let mut names = Vec::new(alloc);
    let mut left = Components::of(path_of(action));
    while let Some(name) = left.next() {
        names.push(Octets::from_slice(alloc, name)?)?;
    }
    Ok(names)
}

/// The last name of an action's path.
pub fn last_name(alloc: Global, action: &Action) -> Result<Octets, AllocError>
    requires { ActionFits action.now }
    ensures name { IfOk result (λ name. name ≡ last_name action.now) }
    ensures short { IfOk result (λ name. length name ≤ 255) }
{
    let names = names_of(alloc, action)?;
    match names.last() {
        Some(name) => Octets::from_slice(alloc, name.as_slice()),
        None => Ok(Octets::new(Vec::new(alloc))),
    }
}

/// Appends a look-up of each name.
fn put_names<'a>(alloc: Global, ops: &mut Vec<Op<'a>>, names: &[Octets]) -> Result<(), AllocError>
    ensures { OnOk result (ops.new.items ≡ ops.old.items ++ map Op.Lookup names.now) }
{
    for name in names {
        ops.push(Op::Lookup {
            name: Octets::from_slice(alloc, name.as_slice())?,
        })?;
    }
    Ok(())
}

/// Appends the walk along these names.
fn put_walk<'a>(alloc: Global, ops: &mut Vec<Op<'a>>, names: &[Octets]) -> Result<(), AllocError>
    ensures { OnOk result (ops.new.items ≡ ops.old.items ++ walk names.now) }
{
    ops.push(Op::PutRootFh)?;
    put_names(alloc, ops, names)
}

/// Appends the walk along these names, which is of few operations within their bounds.
fn put_short_walk<'a>(
    alloc: Global,
    ops: &mut Vec<Op<'a>>,
    names: &[Octets],
) -> Result<(), AllocError>
    requires { AreNames names.now }
    ensures ops { OnOk result (ops.new.items ≡ ops.old.items ++ walk names.now) }
    ensures fits { All OpFits ops.old.items → OnOk result (All OpFits ops.new.items) }
    ensures few { OnOk result (length ops.new.items ≤ length ops.old.items + 17) }
{
    put_walk(alloc, ops, names)
}

/// Appends the walk to the node that an action is enforced on.
#[tactic(auto, using(crate::proofs::Walking::front_are))]
pub fn put_way<'a>(alloc: Global, ops: &mut Vec<Op<'a>>, action: &Action) -> Result<(), AllocError>
    requires { ActionFits action.now }
    ensures ops { OnOk result (ops.new.items ≡ ops.old.items ++ to_target action.now) }
    ensures fits { All OpFits ops.old.items → OnOk result (All OpFits ops.new.items) }
    ensures few { OnOk result (length ops.new.items ≤ length ops.old.items + 17) }
{
    let names = names_of(alloc, action)?;
    if is_on_parent(action) {
        let parents = names.len().saturating_sub(1);
        put_short_walk(alloc, ops, &names[..parents])
    } else {
        put_short_walk(alloc, ops, &names)
    }
}

/// Appends the walk to the node that the whole path of an action names.
pub fn put_whole_way<'a>(
    alloc: Global,
    ops: &mut Vec<Op<'a>>,
    action: &Action,
) -> Result<(), AllocError>
    requires { ActionFits action.now }
    ensures ops { OnOk result (ops.new.items ≡ ops.old.items ++ walk (names_of action.now)) }
    ensures fits { All OpFits ops.old.items → OnOk result (All OpFits ops.new.items) }
    ensures few { OnOk result (length ops.new.items ≤ length ops.old.items + 17) }
{
    let names = names_of(alloc, action)?;
    put_short_walk(alloc, ops, &names)
}
