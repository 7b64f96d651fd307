//! Each call once, with ample memory.
use crate::compare::same;
use lnfs_calipso::Level;
use lnfs_quota::Quota;
use std::alloc::AllocError;
use std::process::Abort;

/// The nodes and the bytes of a level. `None` of what is no level.
fn used(quota: &Quota, level: u32) -> Option<(u64, u64)> {
    let level = Level(level);
    if !quota.knows(level) {
        return None;
    }
    Some(quota.used(level))
}

/// What each of three levels uses, and that no level stands past the last that a policy may list.
fn ask(rt: &impl Abort, quota: &Quota, due: [(u64, u64); 3]) {
    same(rt, used(quota, 0), Some(due[0]));
    same(rt, used(quota, 1), Some(due[1]));
    same(rt, used(quota, 2), Some(due[2]));
    same(rt, used(quota, 32), None);
}

#[test]
fn three_levels(rt: HostRuntime) -> Result<(), AllocError> {
    let mut quota = Quota::new(rt.alloc())?;
    ask(&rt, &quota, [(0, 0), (0, 0), (0, 0)]);
    // Nodes of a level are no other level's.
    quota.charge_node(Level(0));
    quota.charge_node(Level(0));
    quota.charge_node(Level(1));
    ask(&rt, &quota, [(2, 0), (1, 0), (0, 0)]);
    quota.credit_node(Level(0));
    ask(&rt, &quota, [(1, 0), (1, 0), (0, 0)]);
    quota.resize(Level(0), 0, 60);
    ask(&rt, &quota, [(1, 60), (1, 0), (0, 0)]);
    // Beside it another grows, shrinks and goes.
    quota.resize(Level(0), 0, 40);
    ask(&rt, &quota, [(1, 100), (1, 0), (0, 0)]);
    quota.resize(Level(0), 40, 10);
    ask(&rt, &quota, [(1, 70), (1, 0), (0, 0)]);
    quota.credit_bytes(Level(0), 10);
    ask(&rt, &quota, [(1, 60), (1, 0), (0, 0)]);
    // Bytes go to another level, and the node stays in its home.
    quota.move_up(Level(0), Level(1), 60);
    ask(&rt, &quota, [(1, 0), (1, 60), (0, 0)]);
    // They may go to their own.
    quota.move_up(Level(1), Level(1), 60);
    ask(&rt, &quota, [(1, 0), (1, 60), (0, 0)]);
    // A file goes.
    quota.credit_bytes(Level(1), 60);
    ask(&rt, &quota, [(1, 0), (1, 0), (0, 0)]);
    Ok(())
}

fn ask_of_homes(rt: &impl Abort, quota: &Quota) {
    same(rt, used(quota, 0), Some((2, 0)));
    same(rt, used(quota, 1), Some((1, 0)));
    same(rt, quota.levels(), 32);
    same(rt, quota.knows(Level(31)), true);
    same(rt, quota.knows(Level(32)), false);
}

#[test]
fn homes(rt: HostRuntime) -> Result<(), AllocError> {
    // One home is past the levels that a policy may list.
    let homes = [Level(0), Level(1), Level(0), Level(32)];
    let quota = Quota::counted_homes(rt.alloc(), &homes)?;
    ask_of_homes(&rt, &quota);
    Ok(())
}
