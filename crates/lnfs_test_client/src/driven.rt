//! Requests and replies, in words.
ghost use Rattle.std.specs.Prelude.{◌≡◌, ◌<◌, ◌&&◌, ◌||◌, true, is_none, length, IfOk, OnOk};
ghost use Rattle.lnfs_policy.specs.Policy.{Policy};
ghost use Rattle.lnfs_script.specs.Fits.{ActionFits, ActionSuits, IdentitySuits};
ghost use Rattle.lnfs_script.specs.declared.action.Action.TheVariants.{Make};
ghost use Rattle.lnfs_client.specs.Fits.{Suits};
ghost use Rattle.lnfs_client.specs.Machine.{is_mount};

use crate::codecs::codecs_of;
use lnfs_calipso::Level;
use lnfs_client::laws::beginning;
use lnfs_client::{Client, Progress, Refusal};
use lnfs_format::Codecs;
use lnfs_gss3::TestMechanism;
use lnfs_policy::{Policy, read_policy};
use lnfs_script::{Action, Identity, is_root_or_path};
use lnfs_types::Octets;
use std::alloc::{AllocError, Global};
use std::process::Abort;
use std::test::Fail;

/// Level 3 dominates all, and levels 1 and 2 don't compare.
const POLICY: &str = "lnfs-policy 1
mode enforcing
level 0 1 0 -
level 1 1 1 c0
level 2 1 1 c1
level 3 1 3 c0.c2,c5
format 101 1 calipso
format 102 1 text
parent 7 0101010101010101010101010101010101010101010101010101010101010101 3
guest 1 100 1
";

/// A path below the root.
fn path_of(alloc: Global, word: &str) -> Result<Octets, Fail>
    ensures { IfOk result (λ path. ActionFits (Make path)) }
{
    let bytes = word.as_bytes();
    if bytes.len() < 2 || !is_root_or_path(bytes) {
        return Err(Fail::from("no path"));
    }
    Ok(Octets::from_slice(alloc, bytes)?)
}

/// An action, in which all but the name and the path stand here.
fn action_of(alloc: Global, words: &str) -> Result<Action, Fail>
    ensures fits { IfOk result ActionFits }
    ensures suits { IfOk result (λ action. (policy : Policy) → 3 < length policy.labels →
        ActionSuits policy action) }
{
    let mut words = words.split(' ');
    let name = words.next().unwrap_or("");
    let path = words.next().unwrap_or("");
    match name {
        "mount" => Ok(Action::Mount),
        "list" if path == "/" => Ok(Action::List {
            path: Octets::from_slice(alloc, b"/")?,
        }),
        "read" => Ok(Action::Read {
            path: path_of(alloc, path)?,
            offset: 0,
            count: 10,
        }),
        "write" => Ok(Action::Write {
            path: path_of(alloc, path)?,
            offset: 0,
            content: Octets::from_slice(alloc, b"hi")?,
        }),
        "make" => Ok(Action::Make {
            path: path_of(alloc, path)?,
        }),
        "mkdir" => Ok(Action::Mkdir {
            path: path_of(alloc, path)?,
            level: Level(1),
        }),
        "remove" => Ok(Action::Remove {
            path: path_of(alloc, path)?,
        }),
        "raise" => Ok(Action::Raise {
            path: path_of(alloc, path)?,
            level: Level(3),
        }),
        "leave" => Ok(Action::Leave),
        _ => Err(Fail::from("no action")),
    }
}

/// Words in the order of the network: decimal, or hex behind `0x`.
fn words_in(alloc: Global, text: &str) -> Result<Vec<u8>, Fail> {
    let mut bytes = Vec::new(alloc);
    for word in text.split_whitespace() {
        let number = match word.strip_prefix("0x") {
            Some(digits) => u32::from_str_radix(digits, 16).ok(),
            None => word.parse().ok(),
        };
        bytes.extend_from_slice(&number.ok_or("no number")?.to_be_bytes())?;
    }
    Ok(bytes)
}

/// What a guest's request has from its `msg_type` through the verifier: AUTH_SYS of the uid 100 of the machine `client`.
const CALL: &str = "0 2 100003 4 1 1 28 0 6 0x636c6965 0x6e740000 100 0 0 0 0";

/// What a plain reply has from its `msg_type` through the `accept_stat`.
const REPLY: &str = "1 0 0 0 0";

/// The words of a row, in which `CALL` and `REPLY` stand for those.
fn words_of(alloc: Global, row: &str) -> Result<Vec<u8>, Fail> {
    let mut bytes = Vec::new(alloc);
    for part in row.split_whitespace() {
        let words = match part {
            "CALL" => words_in(alloc, CALL)?,
            "REPLY" => words_in(alloc, REPLY)?,
            word => words_in(alloc, word)?,
        };
        bytes.extend_from_slice(&words)?;
    }
    Ok(bytes)
}

/// What is printed of an answer.
fn told(alloc: Global, answer: Result<Progress, Refusal>) -> Result<String, AllocError> {
    match answer {
        Ok(progress) => format!(in alloc; "{progress:?}"),
        Err(cause) => format!(in alloc; "{cause:?}"),
    }
}

/// Whether an action may begin.
fn may_begin(client: &Client, action: &Action) -> bool
    ensures { result ≡ (is_none client.now.running
        && (is_mount action.now || client.now.mounted)) }
{
    client.is_idle() && (matches!(action, Action::Mount) || client.is_mounted())
}

/// Begins the action of a row.
fn begin(
    rt: &impl Abort,
    alloc: Global,
    policy: &Policy,
    client: &mut Client,
    row: &str,
) -> Result<(), Fail>
    requires levels { 3 < length policy.now.labels }
    requires site { Suits policy.now client.old }
    ensures { OnOk result (Suits policy.now client.new) }
{
    beginning();
    let action = action_of(alloc, row)?;
    assert!(rt; may_begin(client, &action), "{row}");
    client.begin(action);
    Ok(())
}

/// Makes the next request, which is that of a row. It is the only one then.
fn ask(
    rt: &impl Abort,
    alloc: Global,
    policy: &Policy,
    codecs: &Codecs,
    client: &mut Client,
    row: &str,
) -> Result<(), Fail>
    requires { Suits policy.now client.old }
    ensures { OnOk result (Suits policy.now client.new) }
{
    assert!(rt; client.sent() < 1000, "{row}");
    assert!(rt;
        client.next_request(policy, codecs, &TestMechanism)?,
        "{row}"
    );
    assert!(rt; client.sent() < 1000, "{row}");
    assert!(rt;
        !client.next_request(policy, codecs, &TestMechanism)?,
        "{row}"
    );
    let wanted = words_of(alloc, row)?;
    assert_eq!(rt;
        client.resend().ok_or("no request")?,
        wanted.as_slice(),
        "{row}"
    );
    Ok(())
}

/// Takes the reply of a row, and says what is printed of its answer.
fn take(
    alloc: Global,
    policy: &Policy,
    codecs: &Codecs,
    client: &mut Client,
    row: &str,
) -> Result<String, Fail>
    requires { Suits policy.now client.old }
    ensures { OnOk result (Suits policy.now client.new) }
{
    let message = words_of(alloc, row)?;
    let answer = client.take_reply(policy, codecs, &TestMechanism, &message);
    Ok(told(alloc, answer)?)
}

/// A row: an action that begins behind `!`, the request that is made behind `>`, a reply behind `<`, and what it is answered
/// behind `=`.
fn one_row(
    rt: &impl Abort,
    alloc: Global,
    policy: &Policy,
    codecs: &Codecs,
    client: &mut Client,
    answer: &mut String,
    row: &str,
) -> Result<(), Fail>
    requires levels { 3 < length policy.now.labels }
    requires site { Suits policy.now client.old }
    ensures { OnOk result (Suits policy.now client.new) }
{
    let Some((kind, text)) = row.split_once(' ') else {
        return Ok(());
    };
    match kind {
        "!" => begin(rt, alloc, policy, client, text),
        ">" => ask(rt, alloc, policy, codecs, client, text),
        "<" => {
            *answer = take(alloc, policy, codecs, client, text)?;
            Ok(())
        }
        _ => {
            assert_eq!(rt; answer.as_str(), text, "{row}");
            Ok(())
        }
    }
}

fn each_row(
    rt: &impl Abort,
    alloc: Global,
    policy: &Policy,
    codecs: &Codecs,
    client: &mut Client,
    rows: &str,
) -> Result<(), Fail>
    requires levels { 3 < length policy.now.labels }
    requires site { Suits policy.now client.old }
{
    let mut answer = format!(in alloc; "none")?;
    for row in rows.lines() {
        one_row(rt, alloc, policy, codecs, client, &mut answer, row)?;
    }
    Ok(())
}

/// Whether the policy has who asks.
fn has_caller(policy: &Policy, identity: Identity) -> bool
    ensures { result ≡ true → IdentitySuits policy.now identity }
{
    match identity {
        Identity::Guest { uid: _ } => true,
        Identity::Full { parent } => policy.parent(parent).is_some(),
    }
}

/// Drives a client through rows.
fn drive(
    rt: &impl Abort,
    alloc: Global,
    level: Level,
    identity: Identity,
    rows: &str,
) -> Result<(), Fail>
    requires { level.0 < 4 }
{
    beginning();
    let codecs = codecs_of(alloc)?;
    let policy = read_policy(alloc, POLICY.as_bytes(), &codecs)?;
    assert!(rt; policy.lattice().len() == 4);
    assert!(rt; has_caller(&policy, identity));
    let mut client = Client::start(alloc, level, identity, b"client")?;
    each_row(rt, alloc, &policy, &codecs, &mut client, rows)
}

/// A guest of level 1 mounts, writes, lists and leaves. The label of level 1 is 1 0x01018000 0.
const GUEST: &str = "
! mount
> 1 CALL 0 2 1 42 0 0 6 0x636c6965 0x6e740000 0 0 0
< 1 REPLY 0 0 1 42 0 1 1 1 65536 0 0 0 1 0x61000000 1 0x62000000 0
= More
> 2 CALL 0 2 1 43 1 1 1 0 0 65536 65536 65536 32 16 0 0 65536 65536 65536 32 16 0 0 0
< 1 REPLY 0 0 1 43 0
= More
< 2 REPLY 0 0 1 43 0 1 0 1 0 1 0 0 65536 65536 65536 32 16 0 0 65536 65536 65536 32 16 0
= More
> 3 CALL 0 2 2 53 1 0 1 0 1 0 0 1 58 0
< 3 REPLY 0 0 2 53 0 1 0 1 0 1 0 0 15 0 58 0
= Done(Mounted)
! write /f
> 4 CALL 0 2 4 53 1 0 1 0 2 0 0 1 24 15 1 0x66000000 9 3 0 0 65536
< 4 REPLY 0 0 4 53 0 1 0 1 0 2 0 0 15 0 24 0 15 0 9 0 3 0 0 65536 24 101 1 10 1 0x01018000 0
= More
> 5 CALL 0 2 5 53 1 0 1 0 3 0 0 1 24 15 1 0x66000000 37 3 0 0 65536 24 101 1 10 1 0x01018000 0 38 0 0 0 0 0 0 2 2 0x68690000
< 5 REPLY 0 0 5 53 0 1 0 1 0 3 0 0 15 0 24 0 15 0 37 0 38 0 2 2 0 0
= Done(Wrote(2))
! write /f
> 6 CALL 0 2 4 53 1 0 1 0 4 0 0 1 24 15 1 0x66000000 9 3 0 0 65536
< 6 REPLY 0 0 4 53 0 1 0 1 0 4 0 0 15 0 24 0 15 0 9 0 3 0 0 65536 20 101 1 6 1 0
= NotEqual
! make /d/a
> 7 CALL 0 2 4 53 1 0 1 0 5 0 0 1 24 15 1 0x64000000 9 3 0 0 65536
< 7 REPLY 0 0 4 53 0 1 0 1 0 5 0 0 15 0 24 0 15 0 9 0 3 0 0 65536 20 102 1 5 0x73313a63 0x30000000
= More
> 8 CALL 0 2 5 53 1 0 1 0 6 0 0 1 24 15 1 0x64000000 37 3 0 0 65536 20 102 1 5 0x73313a63 0x30000000 18 0 2 0 1 1 6 0x636c6965 0x6e740000 1 1 0 0 0 1 0x61000000
< 8 REPLY 0 0 5 53 0 1 0 1 0 6 0 0 15 0 24 0 15 0 37 0 18 0 1 0 1 0 1 0 5 0 6 4 0 0
= More
> 9 CALL 0 2 5 53 1 0 1 0 7 0 0 1 24 15 1 0x64000000 15 1 0x61000000 4 0 1 0 1 0
< 9 REPLY 0 0 5 53 0 1 0 1 0 7 0 0 15 0 24 0 15 0 15 0 4 0 2 0 1 0
= Done(Made)
! list /
> 10 CALL 0 2 4 53 1 0 1 0 8 0 0 1 24 9 3 0 0 65536 26 0 0 0 0 32768 32768 3 2048 0 65536
< 10 REPLY 0 0 4 53 0 1 0 1 0 8 0 0 15 0 24 0 9 0 3 0 0 65536 20 101 1 6 1 0 26 0 0 0 1 0 3 1 0x78000000 3 2048 0 65536 24 0 101 1 6 1 0 0 0
= More
> 11 CALL 0 2 4 53 1 0 1 0 9 0 0 1 24 9 3 0 0 65536 26 0 3 0 0 32768 32768 3 2048 0 65536
< 11 REPLY 0 0 4 53 0 1 0 1 0 9 0 0 15 0 24 0 9 0 3 0 0 65536 20 101 1 6 1 0 26 0 0 0 1 0 4 1 0x79000000 3 2048 0 65536 24 13 999 1 6 1 0 0 1
= Done(Entries(Items { inner: [Shown { name: Octets { inner: [120] }, level: Some(Level(0)) }, Shown { name: Octets { inner: [121] }, level: None }] }))
! read /f
> 12 CALL 0 2 5 53 1 0 1 0 10 0 0 1 24 15 1 0x66000000 9 3 0 0 65536 25 0 0 0 0 0 0 10
< 12 REPLY 0 0 5 53 0 1 0 1 0 10 0 0 15 0 24 0 15 0 9 0 3 0 0 65536 24 101 1 10 1 0x01014000 0 25 0 1 2 0x68690000
= NotDominated
! read /f
> 13 CALL 0 2 5 53 1 0 1 0 11 0 0 1 24 15 1 0x66000000 9 3 0 0 65536 25 0 0 0 0 0 0 10
< 13 REPLY 0 0 5 53 0 1 0 1 0 11 0 0 15 0 24 0 15 0 9 0 3 0 0 65536 24 101 1 10 1 0x01018000 0 25 0 1 2 0x68690000
= Done(Data(Octets { inner: [104, 105] }))
! read /f
> 14 CALL 0 2 5 53 1 0 1 0 12 0 0 1 24 15 1 0x66000000 9 3 0 0 65536 25 0 0 0 0 0 0 10
< 14 REPLY 70 0 2 53 0 1 0 1 0 12 0 0 15 0 24 70
= ServerSaid { status: 70 }
! remove /f
> 15 CALL 0 2 3 53 1 0 1 0 13 0 0 1 24 9 3 0 0 65536
< 15 1 1 1 13
= Denied { auth: 13 }
! remove /f
> 16 CALL 0 2 3 53 1 0 1 0 14 0 0 1 24 9 3 0 0 65536
< 16 REPLY 0 0 3 53 0 1 0 1 0 14 0 0 15 0 24 0 9 0 3 0 0 65537
= BadReply { at: 108 }
! raise /f
> 17 CALL 0 2 4 53 1 0 1 0 15 0 0 1 24 15 1 0x66000000 9 3 0 0 65536
< 17 REPLY 0 0 4 53 0 1 0 1 0 15 0 0 15 0 24 0 15 0 9 0 3 0 0 65536 24 999 1 10 1 0x01018000 0
= UnknownLabel
! leave
> 18 CALL 0 2 1 44 1 0 1 0
< 18 REPLY 0 0 1 44 0
= More
> 19 CALL 0 2 1 57 1 1
< 19 REPLY 0 0 1 57 0
= Done(Left)
";

#[test]
fn a_guest_is_served(rt: HostRuntime) -> Result<(), Fail> {
    let guest = Identity::Guest { uid: 100 };
    drive(&rt, rt.alloc(), Level(1), guest, GUEST)
}

/// A client of level 3 mounts under parent 7, and its second reply isn't signed well. The label of level 3 is
/// 1 0x0103e400 0; a signature is the parent's number, the length of what is signed, and zeros.
const FULL: &str = "
! mount
> 1 0 2 100003 4 0 6 24 3 5 1 2 4 7 6 32 7 56 0 0 0 0 0 0 44 1 0 0 1 0 101 1 10 1 0x0103e400 0 32 7 44 0 0 0 0 0 0
< 1 1 0 6 32 7 56 0 0 0 0 0 0 0 64 1 16 7 3 0 1 0 0 1 0 101 1 10 1 0x0103e400 0 32 7 64 0 0 0 0 0 0
= More
> 2 0 2 100003 4 1 6 36 3 0 2 2 16 7 3 0 1 6 32 7 68 0 0 0 0 0 0 52 2 0 2 1 42 0 0 6 0x636c6965 0x6e740000 0 0 0 32 7 52 0 0 0 0 0 0
< 2 1 0 6 32 7 67 0 0 0 0 0 0 0
= BadReply { at: 12 }
! mount
> 3 0 2 100003 4 0 6 24 3 5 3 2 4 7 6 32 7 56 0 0 0 0 0 0 44 3 0 0 1 0 101 1 10 1 0x0103e400 0 32 7 44 0 0 0 0 0 0
< 3 1 1 1 5
= Denied { auth: 5 }
";

#[test]
fn a_member_is_served(rt: HostRuntime) -> Result<(), Fail> {
    let member = Identity::Full { parent: 7 };
    drive(&rt, rt.alloc(), Level(3), member, FULL)
}
