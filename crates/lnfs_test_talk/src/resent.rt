//! Requests that come again, and replies that come late.
ghost use Rattle.lnfs_client.specs.Fits.{Suits};

use crate::acting::{act, answer_again, ask, begin, finish, guest_of, path_of, root_of};
use crate::codecs::codecs_of;
use crate::server::{Server, vault_of};
use crate::site::policy_of;
use lnfs_calipso::Level;
use lnfs_client::{Answer, Client, Progress, Refusal};
use lnfs_format::Codecs;
use lnfs_gss3::KeyedDigest;
use lnfs_policy::Policy;
use lnfs_script::Action;
use lnfs_test_support::flaw::{Flaw, demand, read_of};
use lnfs_test_support::site::POLICY;
use lnfs_types::Octets;
use lnfs_vault::Vault;
use std::alloc::Global;

/// What is tried with a guest's client that is yet to mount.
#[derive(Clone, Copy)]
enum Trial {
    /// The requests of an action come three times each. They make one file, and what is said is
    /// the same each time.
    FileMadeOnce,
    /// A reply that was taken comes again, when the next request is unanswered: it leads to
    /// nothing, and the reply to that request is taken.
    LateReply,
    /// A CREATE_SESSION comes twice, and the same is said (RFC 8881 section 18.36.4).
    SessionMadeOnce,
    /// An EXCHANGE_ID comes twice before a CREATE_SESSION: the later client id takes the place of
    /// the earlier one, which the client took (RFC 8881 section 18.35.4).
    StaleClientId,
}

/// Takes a reply behind which the action goes on, or which changes nothing.
fn take(
    server: &Server<'_>,
    policy: &Policy,
    client: &mut Client,
    reply: &Octets,
) -> Result<(), Flaw>
    requires { Suits policy.now client.old }
    ensures { Suits policy.now client.new }
{
    let taken = client.take_reply(policy, server.codecs, &KeyedDigest, reply.as_slice());
    let more = matches!(taken, Ok(Progress::More));
    demand(server.alloc, more, "more", "a reply")
}

/// Begins to mount, and gives what the server says to the first request.
fn first_reply(
    server: &mut Server<'_>,
    policy: &Policy,
    client: &mut Client,
) -> Result<Octets, Flaw>
    requires { Suits policy.now client.old }
    ensures { Suits policy.now client.new }
{
    begin(server.alloc, policy, client, Action::Mount)?;
    ask(server, policy, client)?;
    server.answer_to(client)
}

/// Takes a reply, and makes the next request.
fn go_on(
    server: &Server<'_>,
    policy: &Policy,
    client: &mut Client,
    reply: &Octets,
) -> Result<(), Flaw>
    requires { Suits policy.now client.old }
    ensures { Suits policy.now client.new }
{
    take(server, policy, client, reply)?;
    ask(server, policy, client)
}

/// Goes on until the client is mounted.
fn mount(server: &mut Server<'_>, policy: &Policy, client: &mut Client) -> Result<(), Flaw>
    requires { Suits policy.now client.old }
    ensures { Suits policy.now client.new }
{
    let answer = finish(server, policy, client, 0)?;
    let mounted = matches!(answer, Answer::Mounted);
    demand(server.alloc, mounted, "an answer", "mount")
}

/// How many entries of a listing have a name.
fn count_named(answer: &Answer, name: &[u8]) -> u32 {
    let Answer::Entries(entries) = answer else {
        return 0;
    };
    let mut count = 0u32;
    for entry in entries.as_slice() {
        if entry.name.as_slice() == name {
            count = count.saturating_add(1);
        }
    }
    count
}

/// Makes `/f`, where each request comes three times.
fn make_file(server: &mut Server<'_>, policy: &Policy, client: &mut Client) -> Result<(), Flaw>
    requires { Suits policy.now client.old }
    ensures { Suits policy.now client.new }
{
    let path = path_of(server.alloc, "/f")?;
    let answer = act(server, policy, client, Action::Make { path }, 2)?;
    let made = matches!(answer, Answer::Made);
    demand(server.alloc, made, "an answer", "make")
}

/// Lists the root, which has one `f`.
fn find_file(server: &mut Server<'_>, policy: &Policy, client: &mut Client) -> Result<(), Flaw>
    requires { Suits policy.now client.old }
    ensures { Suits policy.now client.new }
{
    let path = root_of(server.alloc)?;
    let listed = act(server, policy, client, Action::List { path }, 0)?;
    let once = count_named(&listed, b"f") == 1;
    demand(server.alloc, once, "entries", "list")
}

fn file_made_once(server: &mut Server<'_>, policy: &Policy, client: &mut Client) -> Result<(), Flaw>
    requires { Suits policy.now client.old }
    ensures { Suits policy.now client.new }
{
    begin(server.alloc, policy, client, Action::Mount)?;
    mount(server, policy, client)?;
    make_file(server, policy, client)?;
    find_file(server, policy, client)
}

/// Takes a reply that comes late: the request that is unanswered stays so.
fn take_late(
    server: &Server<'_>,
    policy: &Policy,
    client: &mut Client,
    late: &Octets,
) -> Result<(), Flaw>
    requires { Suits policy.now client.old }
    ensures { Suits policy.now client.new }
{
    let request = read_of(server.alloc, client.resend(), "a request")?;
    let request = Octets::from_slice(server.alloc, request)?;
    take(server, policy, client, late)?;
    let same = client.resend() == Some(request.as_slice());
    demand(server.alloc, same, "a request", "a late reply")
}

fn late_reply(server: &mut Server<'_>, policy: &Policy, client: &mut Client) -> Result<(), Flaw>
    requires { Suits policy.now client.old }
    ensures { Suits policy.now client.new }
{
    let first = first_reply(server, policy, client)?;
    go_on(server, policy, client, &first)?;
    take_late(server, policy, client, &first)?;
    let second = server.answer_to(client)?;
    take(server, policy, client, &second)?;
    let answered = client.resend().is_none();
    demand(server.alloc, answered, "a request", "the second reply")?;
    mount(server, policy, client)
}

fn session_made_once(
    server: &mut Server<'_>,
    policy: &Policy,
    client: &mut Client,
) -> Result<(), Flaw>
    requires { Suits policy.now client.old }
    ensures { Suits policy.now client.new }
{
    let first = first_reply(server, policy, client)?;
    go_on(server, policy, client, &first)?;
    let second = answer_again(server, client, 1)?;
    take(server, policy, client, &second)?;
    mount(server, policy, client)
}

/// Compares the client id that a reply to EXCHANGE_ID tells: 11 words stand before it.
fn demand_id(alloc: Global, reply: &Octets, number: u8) -> Result<(), Flaw> {
    let id = [0u8, 0, 0, 0, 0, 0, 0, number];
    let told = reply.as_slice().get(44..52);
    demand(alloc, told == Some(&id[..]), "a client id", "a reply")
}

/// Takes the reply to a CREATE_SESSION of a client id that there isn't.
fn take_stale(
    server: &Server<'_>,
    policy: &Policy,
    client: &mut Client,
    reply: &Octets,
) -> Result<(), Flaw>
    requires { Suits policy.now client.old }
    ensures { Suits policy.now client.new }
{
    let taken = client.take_reply(policy, server.codecs, &KeyedDigest, reply.as_slice());
    let refused = matches!(taken, Err(Refusal::ServerSaid { status: 10022 }));
    demand(server.alloc, refused, "an answer", "a stale client id")
}

fn stale_client_id(
    server: &mut Server<'_>,
    policy: &Policy,
    client: &mut Client,
) -> Result<(), Flaw>
    requires { Suits policy.now client.old }
    ensures { Suits policy.now client.new }
{
    let first = first_reply(server, policy, client)?;
    demand_id(server.alloc, &first, 1)?;
    let second = server.answer_to(client)?;
    demand_id(server.alloc, &second, 2)?;
    go_on(server, policy, client, &first)?;
    let stale = server.answer_to(client)?;
    take_stale(server, policy, client, &stale)
}

fn run_trial(
    server: &mut Server<'_>,
    policy: &Policy,
    client: &mut Client,
    trial: Trial,
) -> Result<(), Flaw>
    requires { Suits policy.now client.old }
    ensures { Suits policy.now client.new }
{
    match trial {
        Trial::FileMadeOnce => file_made_once(server, policy, client),
        Trial::LateReply => late_reply(server, policy, client),
        Trial::SessionMadeOnce => session_made_once(server, policy, client),
        Trial::StaleClientId => stale_client_id(server, policy, client),
    }
}

/// With a new client.
fn run_with(server: &mut Server<'_>, policy: &Policy, trial: Trial) -> Result<(), Flaw> {
    let mut client = guest_of(server.alloc, policy, Level(0), 0, b"client")?;
    run_trial(server, policy, &mut client, trial)
}

/// With a server that has a vault.
fn run_over(
    alloc: Global,
    codecs: &Codecs,
    policy: &Policy,
    vault: &mut Vault<KeyedDigest>,
    trial: Trial,
) -> Result<(), Flaw> {
    let mut server = Server {
        alloc,
        vault,
        codecs,
        class: 0,
    };
    run_with(&mut server, policy, trial)
}

/// With a new vault.
fn run_under(alloc: Global, codecs: &Codecs, policy: &Policy, trial: Trial) -> Result<(), Flaw> {
    let mut vault = vault_of(alloc, codecs, POLICY)?;
    run_over(alloc, codecs, policy, &mut vault, trial)
}

fn run(alloc: Global, trial: Trial) -> Result<(), Flaw> {
    let codecs = codecs_of(alloc)?;
    let policy = policy_of(alloc, &codecs, POLICY)?;
    run_under(alloc, &codecs, &policy, trial)
}

#[test]
fn a_file_is_made_once(rt: HostRuntime) -> Result<(), Flaw> {
    run(rt.alloc(), Trial::FileMadeOnce)
}

#[test]
fn a_late_reply_changes_nothing(rt: HostRuntime) -> Result<(), Flaw> {
    run(rt.alloc(), Trial::LateReply)
}

#[test]
fn a_session_is_made_once(rt: HostRuntime) -> Result<(), Flaw> {
    run(rt.alloc(), Trial::SessionMadeOnce)
}

#[test]
fn an_earlier_client_id_is_stale(rt: HostRuntime) -> Result<(), Flaw> {
    run(rt.alloc(), Trial::StaleClientId)
}
