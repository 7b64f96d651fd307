//! Scripts that are talked through with a server.
ghost use Rattle.std.specs.Prelude.{◌≡◌, ◌≤◌, None, [], length, refl};

use crate::acting::{act, guest_of, path_of};
use crate::codecs::codecs_of;
use crate::server::{Server, vault_of};
use crate::site::policy_of;
use crate::talked::talk;
use lnfs_calipso::Level;
use lnfs_format::Codecs;
use lnfs_gss3::KeyedDigest;
use lnfs_outside::{Failed, Link, Sink, Source};
use lnfs_policy::Policy;
use lnfs_script::Action;
use lnfs_test_support::flaw::{Flaw, demand};
use lnfs_test_support::site::POLICY;
use lnfs_vault::Vault;
use std::alloc::{AllocError, Global};
use std::process::Abort;
use std::sync::Wait;

/// What was written to a server, and what it said.
#[derive(Drop)]
struct Frames<'a> {
    server: Server<'a>,
    /// What was written and isn't a whole frame yet.
    written: Vec<u8>,
    requests: Vec<u8>,
    replies: Vec<u8>,
}

impl Frames<'_> {
    /// Takes bytes, and serves the frame of them once it is whole.
    fn take(&mut self, bytes: &[u8]) -> Result<(), Flaw> {
        self.written.extend_from_slice(bytes)?;
        let Some((head, message)) = self.written.split_at_checked(4) else {
            return Ok(());
        };
        let &[first, second, third, fourth] = head else {
            return Ok(());
        };
        let length = u32::from_be_bytes([first, second, third, fourth]) & 0x7fff_ffff;
        if message.len() != length as usize {
            return Ok(());
        }
        self.requests.extend_from_slice(&self.written)?;
        if let Some(reply) = self.server.serve(message)? {
            let length = u32::try_from(reply.len()).unwrap_or(0);
            let head = 0x8000_0000u32.wrapping_add(length);
            self.replies.extend_from_slice(&head.to_be_bytes())?;
            self.replies.extend_from_slice(reply.as_slice())?;
        }
        self.written.clear();
        Ok(())
    }
}

/// A link to a server: what is written goes to it, and its replies are read.
#[derive(Drop)]
struct Served<'a> {
    frames: Frames<'a>,
    read: usize,
    faults: u64,
}

/// Puts as many bytes at the front of the buffer as it has room for, and says how many.
fn give(rest: &[u8], buf: &mut [u8]) -> usize
    ensures count { result ≤ length buf.new }
{
    let count = rest.len().min(buf.len());
    buf[..count].copy_from_slice(&rest[..count]);
    count
}

impl Source for Served<'_> {
    ghost left = { λ s. None };

    ghost read_faults = { λ s. 0 };

    ghost beside_source = { λ s. (None, s.faults) };

    fn read(&mut self, buf: &mut [u8]) -> Result<usize, Failed> {
        let Some(rest) = self.frames.replies.get(self.read..) else {
            return Ok(0);
        };
        let count = give(rest, buf);
        self.read = self.read.saturating_add(count);
        Ok(count)
    }
}

impl Sink for Served<'_> {
    ghost taken = { λ s. None };

    ghost write_faults = { λ s. s.faults };

    ghost beside_sink = { λ s. (None, 0) };

    ghost waiting = { λ s. [] };

    fn write(&mut self, bytes: &[u8]) -> Result<usize, Failed> {
        if self.frames.take(bytes).is_ok() {
            return Ok(bytes.len());
        }
        self.faults = self.faults.saturating_add(1);
        Err(Failed)
    }

    fn flush(&mut self) -> Result<(), Failed> {
        Ok(())
    }
}

impl Link for Served<'_> {
    ghost besides = { λ s. (refl, refl) };

    fn close(&mut self) {}
}

/// A link to a server over which another client of level 1 raises `/one/a`, before a certain
/// request is sent.
#[derive(Drop)]
struct Rivalled<'a> {
    link: Served<'a>,
    policy: &'a Policy,
    /// The number of that request, from 1.
    before: u32,
    sent: u32,
    faults: u64,
}

/// The other client comes.
fn rival(server: &mut Server<'_>, policy: &Policy) -> Result<(), Flaw> {
    let alloc = server.alloc;
    let level = Level(3);
    if !policy.lattice().holds(level) {
        return Err(Flaw::new(alloc, "a level", "another client"));
    }
    let mut client = guest_of(alloc, policy, Level(1), 100, b"another")?;
    let path = path_of(alloc, "/one/a")?;
    act(server, policy, &mut client, Action::Mount, 0)?;
    act(
        server,
        policy,
        &mut client,
        Action::Raise { path, level },
        0,
    )?;
    Ok(())
}

impl Source for Rivalled<'_> {
    ghost left = { λ s. None };

    ghost read_faults = { λ s. 0 };

    ghost beside_source = { λ s. (None, s.faults) };

    fn read(&mut self, buf: &mut [u8]) -> Result<usize, Failed> {
        self.link.read(buf)
    }
}

impl Sink for Rivalled<'_> {
    ghost taken = { λ s. None };

    ghost write_faults = { λ s. s.faults };

    ghost beside_sink = { λ s. (None, 0) };

    ghost waiting = { λ s. [] };

    fn write(&mut self, bytes: &[u8]) -> Result<usize, Failed> {
        self.sent = self.sent.saturating_add(1);
        let server = &mut self.link.frames.server;
        let ready = self.sent != self.before || rival(server, self.policy).is_ok();
        if ready && let Ok(count) = self.link.write(bytes) {
            return Ok(count);
        }
        self.faults = self.faults.saturating_add(1);
        Err(Failed)
    }

    fn flush(&mut self) -> Result<(), Failed> {
        Ok(())
    }
}

impl Link for Rivalled<'_> {
    ghost besides = { λ s. (refl, refl) };

    fn close(&mut self) {}
}

/// A link of a class to a server.
fn link_to<'a>(
    alloc: Global,
    codecs: &'a Codecs,
    vault: &'a mut Vault<KeyedDigest>,
    class: u32,
) -> Served<'a> {
    let server = Server {
        alloc,
        vault,
        codecs,
        class,
    };
    let frames = Frames {
        server,
        written: Vec::new(alloc),
        requests: Vec::new(alloc),
        replies: Vec::new(alloc),
    };
    Served {
        frames,
        read: 0,
        faults: 0,
    }
}

/// A visit to a server.
pub struct Visit {
    pub class: u32,
    pub level: u32,
    pub script: &'static str,
    /// What is shown.
    pub shown: &'static str,
}

/// Talks the script of a visit through over a link, and compares what is shown.
fn check<R: Wait + Abort, L: Link>(
    rt: &R,
    alloc: Global,
    codecs: &Codecs,
    policy: &Policy,
    link: &mut L,
    visit: &Visit,
) -> Result<(), Flaw> {
    let script = visit.script;
    let talked = talk(
        rt,
        alloc,
        policy,
        codecs,
        &KeyedDigest,
        visit.level,
        script,
        link,
    )?;
    let same = talked.out.as_slice() == visit.shown.as_bytes();
    demand(alloc, same, "what is shown", script)?;
    demand(alloc, talked.status == 0, "status", script)
}

/// A guest makes a file, writes and reads it; a member of a level above lists and reads, and may
/// not write.
pub const ORDINARY: [Visit; 3] = [
    Visit {
        class: 0,
        level: 0,
        script: "link 0 guest 0\n",
        shown: "mounted\nleft\n",
    },
    Visit {
        class: 1,
        level: 1,
        script: "link 1 guest 100\nmake /one/a\nwrite /one/a 0 6869\nread /one/a 0 10\n",
        shown: "mounted\nmade\nwrote 2\ndata 6869\nleft\n",
    },
    Visit {
        class: 1,
        level: 3,
        script: "link 1 full 7\nlist /one\nread /one/a 0 10\nwrite /one/a 0 00\n",
        shown: "mounted\nentry a 1\nend\ndata 6869\nrefused NotEqual\nleft\n",
    },
];

/// Each of the actions, with and without an answer. Behind a refusal the next line follows.
const ACTIONS: [Visit; 2] = [
    Visit {
        class: 1,
        level: 1,
        script: "link 1 guest 100\nmake /one/a\nmkdir /one/d 3\nlist /\nremove /one/no\nremove /one/a\nread /one/a 0 1\n",
        shown: "mounted\nmade\nmade\nentry one 1\nentry two 2\nentry top 3\nend\nserver 2\nremoved\nserver 2\nleft\n",
    },
    Visit {
        class: 1,
        level: 3,
        script: "link 1 full 7\nlist /one\nlist /one/d\nmake /one/d/f\nmake /one/e\nread / 0 1\n",
        shown: "mounted\nentry d 3\nend\nend\nmade\nrefused NotEqual\nserver 21\nleft\n",
    },
];

/// Under a limited policy the server keeps nothing apart, and the client enforces: a file of level
/// 2 isn't read at level 1.
const LIMITED: [Visit; 2] = [
    Visit {
        class: 0,
        level: 0,
        script: "link 0 guest 0\nmake /f\nwrite /f 0 6869\nraise /f 2\n",
        shown: "mounted\nmade\nwrote 2\nraised\nleft\n",
    },
    Visit {
        class: 1,
        level: 1,
        script: "link 1 guest 100\nread /f 0 10\n",
        shown: "mounted\nrefused NotDominated\nleft\n",
    },
];

/// For a client in whose policy no level has the file's label it is unknown.
const LACKING: [Visit; 1] = [Visit {
    class: 1,
    level: 1,
    script: "link 1 guest 100\nread /f 0 10\n",
    shown: "mounted\nrefused UnknownLabel\nleft\n",
}];

/// Talks visits through with a server.
fn visit_all<R: Wait + Abort>(
    rt: &R,
    alloc: Global,
    codecs: &Codecs,
    policy: &Policy,
    vault: &mut Vault<KeyedDigest>,
    visits: &[Visit],
) -> Result<(), Flaw> {
    for visit in visits {
        let mut link = link_to(alloc, codecs, vault, visit.class);
        check(rt, alloc, codecs, policy, &mut link, visit)?;
    }
    Ok(())
}

/// Under the policy that a text spells, which is the clients'.
fn visit_under<R: Wait + Abort>(
    rt: &R,
    alloc: Global,
    codecs: &Codecs,
    text: &str,
    vault: &mut Vault<KeyedDigest>,
    visits: &[Visit],
) -> Result<(), Flaw> {
    let policy = policy_of(alloc, codecs, text)?;
    visit_all(rt, alloc, codecs, &policy, vault, visits)
}

/// With a new server under the same policy.
fn visit_new<R: Wait + Abort>(
    rt: &R,
    alloc: Global,
    text: &str,
    visits: &[Visit],
) -> Result<(), Flaw> {
    let codecs = codecs_of(alloc)?;
    let mut vault = vault_of(alloc, &codecs, text)?;
    visit_under(rt, alloc, &codecs, text, &mut vault, visits)
}

#[test]
fn an_ordinary_session(rt: HostRuntime) -> Result<(), Flaw> {
    visit_new(&rt, rt.alloc(), POLICY, &ORDINARY)
}

#[test]
fn all_actions(rt: HostRuntime) -> Result<(), Flaw> {
    visit_new(&rt, rt.alloc(), POLICY, &ACTIONS)
}

/// Visits of clients whose policies differ, to a server that is limited.
fn visit_limited<R: Wait + Abort>(
    rt: &R,
    alloc: Global,
    codecs: &Codecs,
    limited: &str,
    lacking: &str,
) -> Result<(), Flaw> {
    let mut vault = vault_of(alloc, codecs, limited)?;
    visit_under(rt, alloc, codecs, limited, &mut vault, &LIMITED)?;
    visit_under(rt, alloc, codecs, lacking, &mut vault, &LACKING)
}

#[test]
fn a_limited_server(rt: HostRuntime) -> Result<(), Flaw> {
    let alloc = rt.alloc();
    let limited = POLICY.replace(alloc, "mode enforcing", "mode limited")?;
    let lacking = limited.replace(alloc, "level 2 1 1 c1", "level 2 1 2 c1")?;
    let codecs = codecs_of(alloc)?;
    visit_limited(&rt, alloc, &codecs, &limited, &lacking)
}

/// The frames of a visit: those that it sent, and those that it got.
#[derive(Drop)]
pub struct Driven {
    pub requests: Vec<u8>,
    pub replies: Vec<u8>,
}

/// The frames of a link.
fn driven_over(alloc: Global, link: &Served<'_>) -> Result<Driven, AllocError> {
    let requests = Vec::from_slice(alloc, &link.frames.requests)?;
    let replies = Vec::from_slice(alloc, &link.frames.replies)?;
    Ok(Driven { requests, replies })
}

/// Talks a visit through with a server, and gives its frames.
fn drive_one<R: Wait + Abort>(
    rt: &R,
    alloc: Global,
    codecs: &Codecs,
    policy: &Policy,
    vault: &mut Vault<KeyedDigest>,
    visit: &Visit,
) -> Result<Driven, Flaw> {
    let mut link = link_to(alloc, codecs, vault, visit.class);
    check(rt, alloc, codecs, policy, &mut link, visit)?;
    Ok(driven_over(alloc, &link)?)
}

/// Drives the ordinary session with a server.
fn drive_all<R: Wait + Abort>(
    rt: &R,
    alloc: Global,
    codecs: &Codecs,
    policy: &Policy,
    vault: &mut Vault<KeyedDigest>,
) -> Result<Vec<Driven>, Flaw> {
    let mut all = Vec::new(alloc);
    for visit in &ORDINARY {
        all.push(drive_one(rt, alloc, codecs, policy, vault, visit)?)?;
    }
    Ok(all)
}

/// Drives the ordinary session with a new server.
pub fn drive<R: Wait + Abort>(rt: &R, alloc: Global) -> Result<Vec<Driven>, Flaw> {
    let codecs = codecs_of(alloc)?;
    let policy = policy_of(alloc, &codecs, POLICY)?;
    let mut vault = vault_of(alloc, &codecs, POLICY)?;
    drive_all(rt, alloc, &codecs, &policy, &mut vault)
}

/// Behind the request that reads the file's label, and before the one that writes, another client
/// raises it: the file isn't written.
const RIVALLED: Visit = Visit {
    class: 1,
    level: 1,
    script: "link 1 guest 100\nmake /one/a\nwrite /one/a 0 6869\n",
    shown: "mounted\nmade\nserver 10027\nleft\n",
};

/// Talks it through with a server.
fn visit_rivalled<'a, R: Wait + Abort>(
    rt: &R,
    alloc: Global,
    codecs: &'a Codecs,
    policy: &'a Policy,
    vault: &'a mut Vault<KeyedDigest>,
) -> Result<(), Flaw> {
    let mut link = Rivalled {
        link: link_to(alloc, codecs, vault, 1),
        policy,
        before: 8,
        sent: 0,
        faults: 0,
    };
    check(rt, alloc, codecs, policy, &mut link, &RIVALLED)
}

#[test]
fn a_label_that_changes(rt: HostRuntime) -> Result<(), Flaw> {
    let alloc = rt.alloc();
    let codecs = codecs_of(alloc)?;
    let policy = policy_of(alloc, &codecs, POLICY)?;
    let mut vault = vault_of(alloc, &codecs, POLICY)?;
    visit_rivalled(&rt, alloc, &codecs, &policy, &mut vault)
}
