//! Actions of a client, whose requests are delivered to a server.
ghost use Rattle.std.specs.Prelude.{◌≡◌, ◌≤◌, ◌&&◌, ◌||◌, is_none, length, IfOk};
ghost use Rattle.lnfs_script.specs.Fits.{ActionFits, ActionSuits};
ghost use Rattle.lnfs_script.specs.declared.action.Action.TheVariants.{List, Make};
ghost use Rattle.lnfs_client.specs.Fits.{Suits};
ghost use Rattle.lnfs_client.specs.Machine.{is_mount};

use crate::server::Server;
use lnfs_calipso::Level;
use lnfs_client::laws::beginning;
use lnfs_client::{Answer, Client, Progress};
use lnfs_gss3::KeyedDigest;
use lnfs_policy::Policy;
use lnfs_script::{Action, Identity, is_root_or_path};
use lnfs_test_support::flaw::{Flaw, demand};
use lnfs_types::Octets;
use std::alloc::Global;

/// A path below the root.
pub fn path_of(alloc: Global, word: &str) -> Result<Octets, Flaw>
    ensures { IfOk result (λ path. ActionFits (Make path)) }
{
    let bytes = word.as_bytes();
    if bytes.len() < 2 || !is_root_or_path(bytes) {
        return Err(Flaw::new(alloc, "a path", word));
    }
    Ok(Octets::from_slice(alloc, bytes)?)
}

/// The path of the root.
pub fn root_of(alloc: Global) -> Result<Octets, Flaw>
    ensures { IfOk result (λ path. ActionFits (List path)) }
{
    if !is_root_or_path(b"/") {
        return Err(Flaw::new(alloc, "a path", "/"));
    }
    Ok(Octets::from_slice(alloc, b"/")?)
}

/// A guest's client that is yet to mount.
pub fn guest_of(
    alloc: Global,
    policy: &Policy,
    level: Level,
    uid: u32,
    owner: &[u8],
) -> Result<Client, Flaw>
    requires { length owner.now ≤ 16 }
    ensures { IfOk result (Suits policy.now) }
{
    beginning();
    if !policy.lattice().holds(level) {
        return Err(Flaw::new(alloc, "a level", "a guest"));
    }
    Ok(Client::start(alloc, level, Identity::Guest { uid }, owner)?)
}

/// Whether an action may begin.
fn may_begin(client: &Client, action: &Action) -> bool
    ensures { result ≡ (is_none client.now.running
        && (is_mount action.now || client.now.mounted)) }
{
    client.is_idle() && (matches!(action, Action::Mount) || client.is_mounted())
}

/// Begins an action.
pub fn begin(
    alloc: Global,
    policy: &Policy,
    client: &mut Client,
    action: Action,
) -> Result<(), Flaw>
    requires fits { ActionFits action }
    requires suits { ActionSuits policy.now action }
    requires site { Suits policy.now client.old }
    ensures { Suits policy.now client.new }
{
    beginning();
    if !may_begin(client, &action) {
        return Err(Flaw::new(alloc, "beginning", "an action"));
    }
    client.begin(action);
    Ok(())
}

/// Makes the next request.
pub fn ask(server: &Server<'_>, policy: &Policy, client: &mut Client) -> Result<(), Flaw>
    requires { Suits policy.now client.old }
    ensures { Suits policy.now client.new }
{
    let few = client.sent() < 1_000;
    if !few {
        return Err(Flaw::new(server.alloc, "requests", "a client"));
    }
    let made = client.next_request(policy, server.codecs, &KeyedDigest)?;
    demand(server.alloc, made, "a request", "a client")
}

/// What the server says to the request that is unanswered, which is delivered so often and once
/// more. It says the same each time.
pub fn answer_again(server: &mut Server<'_>, client: &Client, again: u32) -> Result<Octets, Flaw> {
    let first = server.answer_to(client)?;
    for _ in 0..again {
        let next = server.answer_to(client)?;
        let same = next.as_slice() == first.as_slice();
        demand(server.alloc, same, "a reply", "a request that comes again")?;
    }
    Ok(first)
}

/// Makes the next request and takes what is said to it. The answer of the action, if that has
/// ended.
fn turn(
    server: &mut Server<'_>,
    policy: &Policy,
    client: &mut Client,
    again: u32,
) -> Result<Option<Answer>, Flaw>
    requires { Suits policy.now client.old }
    ensures { Suits policy.now client.new }
{
    ask(server, policy, client)?;
    let reply = answer_again(server, client, again)?;
    match client.take_reply(policy, server.codecs, &KeyedDigest, reply.as_slice()) {
        Ok(Progress::More) => Ok(None),
        Ok(Progress::Done(answer)) => Ok(Some(answer)),
        Err(_) => Err(Flaw::new(server.alloc, "a refusal", "an action")),
    }
}

/// Goes on with an action to its end, and delivers each of its requests so often and once more.
pub fn finish(
    server: &mut Server<'_>,
    policy: &Policy,
    client: &mut Client,
    again: u32,
) -> Result<Answer, Flaw>
    requires { Suits policy.now client.old }
    ensures { Suits policy.now client.new }
{
    for _turn in 0..8 {
        if let Some(answer) = turn(server, policy, client, again)? {
            return Ok(answer);
        }
    }
    Err(Flaw::new(server.alloc, "an end", "an action"))
}

/// Does an action to its end.
pub fn act(
    server: &mut Server<'_>,
    policy: &Policy,
    client: &mut Client,
    action: Action,
    again: u32,
) -> Result<Answer, Flaw>
    requires fits { ActionFits action }
    requires suits { ActionSuits policy.now action }
    requires site { Suits policy.now client.old }
    ensures { Suits policy.now client.new }
{
    begin(server.alloc, policy, client, action)?;
    finish(server, policy, client, again)
}
