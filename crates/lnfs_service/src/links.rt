//! The links of a service: accepted from a net, and handed back to it.
ghost use Rattle.std.specs.Prelude.{◌≡◌, ◌≤◌, ◌<◌, [], All, IfOk, IfErr, OnOk, OnErr, length, map, vec_capacity};
ghost use Rattle.lnfs_outside.specs.Causes.{Rose};
ghost use Rattle.lnfs_workers.specs.Served.{telling};
ghost use Rattle.lnfs_service.specs.Handed.{Adds, Deals, dealings};
ghost use Rattle.lnfs_service.specs.Links.{AreUnserved, Came, IsCut, IsNew, Owes, deal_of};
ghost use Rattle.lnfs_service.specs.Serves.{NetOnly, Remains};

use lnfs_outside::Net;
use lnfs_stage::Stop;
use lnfs_workers::LinkEnd;
use std::alloc::Global;
use std::collections::VecDeque;

/// Listens for each of the classes.
fn listen<N: Net>(net: &mut N, classes: &[u32]) -> Result<(), Stop>
    ensures dealt { N.dealt net.new ≡ N.dealt net.old }
    ensures backs { N.backs net.new ≡ N.backs net.old }
    ensures some { OnErr result (0 < length classes.now) }
    ensures later { Remains (N.faults net.old) (N.faults net.new) }
    ensures excused { IfErr result (λ stop. (stop ≡ Stop.NetFault)
        × Rose (N.faults net.old) (N.faults net.new)) }
{
    for class in classes {
        if net.listen(*class).is_err() {
            return Err(Stop::NetFault);
        }
    }
    Ok(())
}

/// Accepts a link of each of the classes, in their order. There is room for them. Where a call fails,
/// the links that came before are there.
fn accept<N: Net>(net: &mut N, classes: &[u32], links: &mut Vec<(u32, N::L)>) -> Result<(), Stop>
    requires empty { links.old.items ≡ [] }
    requires room { length classes.now ≤ vec_capacity links.old }
    ensures all { OnOk result (map (λ link. link.0) links.new.items ≡ classes.now) }
    ensures some { OnErr result (IsCut classes.now (map (λ link. link.0) links.new.items)) }
    ensures new { All (λ link.
        IsNew (telling N.L.left N.L.taken N.L.read_faults N.L.write_faults link.1))
        links.new.items }
    ensures dealt { Adds (N.dealt net.old) (N.dealt net.new)
        (map (deal_of (telling N.L.left N.L.taken N.L.read_faults N.L.write_faults))
        links.new.items) }
    ensures backs { N.backs net.new ≡ N.backs net.old }
    ensures later { Remains (N.faults net.old) (N.faults net.new) }
    ensures excused { IfErr result (λ stop. (stop ≡ Stop.NetFault)
        × Rose (N.faults net.old) (N.faults net.new)) }
{
    for class in classes {
        let Ok(link) = net.accept(*class) else {
            return Err(Stop::NetFault);
        };
        links.push_reserved((*class, link));
    }
    Ok(())
}

/// Hands back links that weren't served, in their order.
fn hand_back<N: Net>(net: &mut N, links: Vec<(u32, N::L)>)
    requires { Owes (length links.items) (N.dealt net.old) (N.backs net.old) }
    ensures dealt { N.dealt net.new ≡ N.dealt net.old }
    ensures backs { Adds (N.backs net.old) (N.backs net.new)
        (map (λ link. telling N.L.left N.L.taken N.L.read_faults N.L.write_faults link.1)
        links.items) }
    ensures later { Remains (N.faults net.old) (N.faults net.new) }
{
    let mut left = VecDeque::from_vec(links);
    while let Some((_, link)) = left.pop_front() {
        net.hang_up(link);
    }
}

/// Hands back links whose service has ended, in their order.
pub fn hang_up<N: Net>(net: &mut N, ends: Vec<LinkEnd<N::L>>)
    requires { Owes (length ends.items) (N.dealt net.old) (N.backs net.old) }
    ensures dealt { N.dealt net.new ≡ N.dealt net.old }
    ensures backs { Adds (N.backs net.old) (N.backs net.new)
        (map (λ end. telling N.L.left N.L.taken N.L.read_faults N.L.write_faults end.link)
        ends.items) }
    ensures later { Remains (N.faults net.old) (N.faults net.new) }
{
    let mut left = VecDeque::from_vec(ends);
    while let Some(end) = left.pop_front() {
        let LinkEnd {
            class: _,
            link,
            ending: _,
            records: _,
        } = end;
        net.hang_up(link);
    }
}

/// Listens for all of the classes, accepts a link of each, in their order, and listens no longer.
/// Where a link doesn't come, those that came are handed back.
pub fn links_of<N: Net>(
    alloc: Global,
    net: &mut N,
    classes: &[u32],
) -> Result<Vec<(u32, N::L)>, Stop>
    ensures came { IfOk result (λ links.
        Came (telling N.L.left N.L.taken N.L.read_faults N.L.write_faults) classes.now links.items
        (dealings (N.dealt net.old) (N.dealt net.new) (N.backs net.old) (N.backs net.new))) }
    ensures stopped { IfErr result (λ stop.
        Deals (dealings (N.dealt net.old) (N.dealt net.new) (N.backs net.old) (N.backs net.new))
        (AreUnserved stop classes.now)) }
    ensures cause { NetOnly result (N.faults net.old) (N.faults net.new) }
{
    let mut links = Vec::with_capacity(alloc, classes.len())?;
    listen(net, classes)?;
    let came = accept(net, classes, &mut links);
    // nobody would answer a peer that comes now
    net.stop_listening();
    match came {
        Ok(()) => Ok(links),
        Err(stop) => {
            hand_back(net, links);
            Err(stop)
        }
    }
}
