//! The forms of the command line.
ghost use Rattle.std.specs.Prelude.{◌≡◌, ◌≤◌, ◌<◌, ◌∷◌, [], IfOk, IfSome, Some, length};
ghost use Rattle.std.specs.Option.{option_map};
ghost use Rattle.lnfs_commands.specs.Words.{form_of, texts, asked, pair_in, bytes_in, seed_in, count_in, classes_in, workers_in, translation, generation, service, level_in, visit, judgement, purging, save, resume, option, alone, under, task_of, with_policy, with_traffic, with_two_words, with_two_texts, with_replies, with_formats, help_text, version_text};

use crate::command::{Asked, Audit, Command, Resumption, Saving, Service, Task, Visit, Work};
use crate::team::Team;
use lnfs_map::Pair;
use lnfs_policy::MAX_CLASS;
use lnfs_words::{Parts, number, number_up_to};
use std::alloc::{AllocError, Global};

/// The longest word that spells bytes, in digits.
const MAX_HEX: usize = 2048;

/// The most events that are generated.
const MOST_EVENTS: u64 = 100_000;

/// The most links that are served.
const MOST_LINKS: usize = 64;

/// The most workers that serve them.
const MOST_WORKERS: u64 = 16;

const VERSION: &str = "lnfs 0.1.0\n";

const HELP: &str = "usage: lnfs check POLICY\n\
usage: lnfs migrate POLICY\n\
usage: lnfs translate POLICY LFS PI HEX LFS PI\n\
usage: lnfs replay POLICY TRAFFIC\n\
usage: lnfs generate POLICY SEED N\n\
usage: lnfs serve POLICY LINKS WORKERS\n\
usage: lnfs client POLICY LEVEL SCRIPT\n\
usage: lnfs audit POLICY TRAFFIC REPLIES [purged]\n\
usage: lnfs checkpoint POLICY TRAFFIC\n\
usage: lnfs resume POLICY CHECKPOINT TRAFFIC\n\
usage: lnfs --help\n\
usage: lnfs --version\n\
\n\
check shows the lines of POLICY, without comments and empty lines.\n\
\n\
migrate shows these lines with 'lnfs-policy 2' in the place of the first. They say the\n\
same in version 2.\n\
\n\
translate shows in hex, with a newline, the bytes that spell a label in the second\n\
format, by its number LFS and its policy identifier PI, where the bytes HEX spell\n\
that label in the first.\n\
\n\
replay serves the events of the recording TRAFFIC, one after another, in a new\n\
server under POLICY. Standard output gets the reply to each, as a record with its\n\
fragment head (RFC 5531). Standard error gets one audit line for each refusal,\n\
EVENT PLACE NUMBER GATE STATUS.\n\
\n\
generate serves N events, from 1 to 100000, which guests of POLICY might send, drawn by\n\
SEED, in a new server. It shows how many events and replies there were, how many were\n\
refused, and the SHA-256 of all replies with their fragment heads.\n\
\n\
serve accepts one link for each class of LINKS, in their order, and then serves them all\n\
in a new server under POLICY, by WORKERS threads, from 1 to 16. LINKS are 1 to 64 numbers\n\
from 0 to 7 with single commas; those of class C come by port 20490 + C of the loopback.\n\
When all links have ended, standard output gets the recording of their requests, in the\n\
order in which these were served. Standard error gets the audit lines, and then one line\n\
for each link, link I ENDING RECORDS.\n\
\n\
client talks SCRIPT through as a client of the level LEVEL of POLICY, over one link to\n\
the port 20490 + C of the loopback. The first line of SCRIPT is link C guest UID or link C\n\
full PARENT; each further line is list PATH, read PATH OFFSET COUNT, write PATH OFFSET\n\
HEX, make PATH, mkdir PATH LEVEL, remove PATH or raise PATH LEVEL. The client mounts\n\
first and leaves last, and takes and gives by the labels alone. Standard output gets for\n\
each action its answer, or why it has none.\n\
\n\
audit judges the recorded replies REPLIES to the recording TRAFFIC, from whatever server.\n\
It shows faithful N where they are, record by record, what replay writes of its N events,\n\
differs E where the reply to event E is the first that isn't, and surplus O where more\n\
bytes are left from byte O on. With purged each level's replies are told by a new server\n\
that is given only the events whose level this one dominates.\n\
\n\
checkpoint serves the events of TRAFFIC in a new server under POLICY, as replay does, without\n\
the replies: standard error gets the audit lines. Behind all events standard output gets a\n\
checkpoint, which is the state of the server as bytes, with the data of all levels.\n\
\n\
resume goes on from the checkpoint CHECKPOINT, which a server under the same POLICY wrote. It\n\
serves the events of TRAFFIC behind those that the checkpoint stands for, and writes what\n\
replay writes, with their numbers.\n\
\n\
Standard error gets a line that begins with 'fault' where the run ends with status\n\
2, 3, 4, 9, 10, 12, 13 or 14.\n\
\n\
exit status:\n\
0 all was written\n\
2 the words are no form of the above\n\
3 POLICY is refused\n\
4 TRAFFIC is damaged; replay and resume have replied to the events before the damage\n\
5 a file could not be read\n\
6 a stream could not be written\n\
7 there was no memory\n\
8 the network failed\n\
9 there is no such file\n\
10 the label has no translation\n\
12 SCRIPT is refused\n\
13 the link ended, or gave too much, before a reply that was awaited\n\
14 CHECKPOINT is refused\n";

/// What the words ask for; none where they are no form of the command line.
pub fn command_of<'a>(alloc: Global, words: &'a [String]) -> Result<Option<Asked<'a>>, AllocError>
    ensures { IfOk result (λ found. option_map asked found ≡ form_of (texts words.now)) }
{
    match words {
        [word] => Ok(option_of(word)),
        [word, policy] => Ok(with_policy(word, policy)),
        [word, policy, traffic] => Ok(with_traffic(word, policy, traffic)),
        [word, policy, third, fourth] => with_two_words(alloc, word, policy, third, fourth),
        [word, policy, traffic, replies, purged] => {
            Ok(with_replies(word, policy, traffic, replies, purged))
        }
        [word, policy, lfs, pi, hex, to_lfs, to_pi] => {
            with_formats(
                alloc,
                word,
                policy,
                pair_of(lfs, pi),
                pair_of(to_lfs, to_pi),
                hex,
            )
        }
        _ => Ok(None),
    }
}

/// What a word asks for under the policy of a name alone.
fn with_policy<'a>(word: &str, policy: &'a str) -> Option<Asked<'a>>
    ensures { option_map asked result ≡ with_policy word.now policy.now }
{
    match word {
        "check" => Some(under(policy, Task::Check)),
        "migrate" => Some(under(policy, Task::Migrate)),
        _ => None,
    }
}

/// What a word asks for with the recording of a name, under the policy of a name.
fn with_traffic<'a>(word: &str, policy: &'a str, traffic: &'a str) -> Option<Asked<'a>>
    ensures { option_map asked result ≡ with_traffic word.now policy.now traffic.now }
{
    match word {
        "replay" => Some(under(policy, Task::Replay { traffic })),
        "checkpoint" => saving_of(policy, traffic),
        _ => None,
    }
}

/// What a word asks for with two further words, under the policy of a name.
fn with_two_words<'a>(
    alloc: Global,
    word: &str,
    policy: &'a str,
    third: &'a str,
    fourth: &'a str,
) -> Result<Option<Asked<'a>>, AllocError>
    ensures { IfOk result (λ found. option_map asked found
        ≡ with_two_words word.now policy.now third.now fourth.now) }
{
    match word {
        "serve" => service_of(alloc, policy, third, fourth),
        _ => Ok(with_two_texts(word, policy, third, fourth)),
    }
}

/// The same, of those words that take no memory.
fn with_two_texts<'a>(
    word: &str,
    policy: &'a str,
    third: &'a str,
    fourth: &'a str,
) -> Option<Asked<'a>>
    ensures { option_map asked result ≡ with_two_texts word.now policy.now third.now fourth.now }
{
    match word {
        "generate" => generation_of(policy, third, fourth),
        "client" => visit_of(policy, third, fourth),
        "audit" => audit_of(policy, third, fourth, false),
        "resume" => resumption_of(policy, third, fourth),
        _ => None,
    }
}

/// What a word asks for with recorded replies and a further word, under the policy of a name.
fn with_replies<'a>(
    word: &str,
    policy: &'a str,
    traffic: &'a str,
    replies: &'a str,
    purged: &str,
) -> Option<Asked<'a>>
    ensures { option_map asked result
        ≡ with_replies word.now policy.now traffic.now replies.now purged.now }
{
    match word {
        "audit" => purged_of(policy, traffic, replies, purged),
        _ => None,
    }
}

/// What a word asks for with two formats and bytes, under the policy of a name.
fn with_formats<'a>(
    alloc: Global,
    word: &str,
    policy: &'a str,
    source: Option<Pair>,
    target: Option<Pair>,
    hex: &str,
) -> Result<Option<Asked<'a>>, AllocError>
    ensures { IfOk result (λ found. option_map asked found
        ≡ with_formats word.now policy.now source target (bytes_in hex.now)) }
{
    match word {
        "translate" => translation_of(alloc, policy, source, target, hex),
        _ => Ok(None),
    }
}

/// A task of this crate, under the policy of a name.
fn under<'a>(policy: &'a str, task: Task<'a>) -> Asked<'a>
    ensures { asked result ≡ alone (under policy.now (task_of task.entry)) }
{
    Asked::Alone(Command::Under { policy, task })
}

/// A translation under the policy of a name, where the words for its formats and its bytes spell some.
fn translation_of<'a>(
    alloc: Global,
    policy: &'a str,
    source: Option<Pair>,
    target: Option<Pair>,
    hex: &str,
) -> Result<Option<Asked<'a>>, AllocError>
    ensures { IfOk result (λ found. option_map asked found
        ≡ translation policy.now source target (bytes_in hex.now)) }
{
    let Some(source) = source else {
        return Ok(None);
    };
    let Some(target) = target else {
        return Ok(None);
    };
    let Some(bytes) = bytes_of(alloc, hex)? else {
        return Ok(None);
    };
    Ok(Some(Asked::Alone(Command::Under {
        policy,
        task: Task::Translate {
            source,
            target,
            bytes,
        },
    })))
}

/// Generated events under the policy of a name, where the words spell a seed and how many there are.
fn generation_of<'a>(policy: &'a str, seed: &str, count: &str) -> Option<Asked<'a>>
    ensures { option_map asked result ≡ generation policy.now (seed_in seed.now)
        (count_in count.now) }
{
    let seed = number_up_to(u64::MAX, seed.as_bytes())?;
    let count = number_up_to(MOST_EVENTS, count.as_bytes())?;
    if count == 0 {
        return None;
    }
    Some(Asked::Alone(Command::Under {
        policy,
        task: Task::Generate {
            seed,
            count: count as u32,
        },
    }))
}

/// The classes that a word lists with single commas, from 1 to 64.
fn classes_of(alloc: Global, word: &str) -> Result<Option<Vec<u32>>, AllocError>
    ensures spelled { IfOk result (λ classes. option_map (λ found. found.items) classes
        ≡ classes_in word.now) }
    ensures few { IfOk result (λ found. IfSome found (λ classes. length classes.items ≤ 64)) }
{
    let mut parts = Parts::new(word.as_bytes(), b',');
    let mut classes = Vec::new(alloc);
    while let Some(part) = parts.next() {
        let Some(class) = number_up_to(MAX_CLASS as u64, part) else {
            return Ok(None);
        };
        classes.push(class as u32)?;
    }
    if classes.len() > MOST_LINKS {
        return Ok(None);
    }
    Ok(Some(classes))
}

/// How many workers a word says, from 1 to 16.
fn workers_of(word: &str) -> Option<u32>
    ensures spelled { result ≡ workers_in word.now }
    ensures few { IfSome result (λ workers. (0 < workers) × (workers ≤ 16)) }
{
    let workers = number_up_to(MOST_WORKERS, word.as_bytes())?;
    if workers == 0 {
        return None;
    }
    Some(workers as u32)
}

/// A service under the policy of a name, where the words list classes and say how many workers there are.
fn service_of<'a>(
    alloc: Global,
    policy: &'a str,
    links: &str,
    workers: &str,
) -> Result<Option<Asked<'a>>, AllocError>
    ensures { IfOk result (λ found. option_map asked found
        ≡ service policy.now (classes_in links.now) (workers_in workers.now)) }
{
    let Some(links) = classes_of(alloc, links)? else {
        return Ok(None);
    };
    let Some(workers) = workers_of(workers) else {
        return Ok(None);
    };
    Ok(Some(Asked::Other(Work::Serve(Service {
        policy,
        team: Team { links, workers },
    }))))
}

/// A client's script under the policy of a name, where the word for its level is a number.
fn visit_of<'a>(policy: &'a str, level: &str, script: &'a str) -> Option<Asked<'a>>
    ensures { option_map asked result ≡ visit policy.now (level_in level.now) script.now }
{
    let level = number(level.as_bytes())?;
    Some(Asked::Other(Work::Talk(Visit {
        policy,
        level,
        script,
    })))
}

/// The recorded replies of a name to the recording of a name, under the policy of a name.
fn audit_of<'a>(
    policy: &'a str,
    traffic: &'a str,
    replies: &'a str,
    purged: bool,
) -> Option<Asked<'a>>
    ensures { option_map asked result ≡ judgement policy.now traffic.now replies.now purged }
{
    Some(Asked::Other(Work::Judge(Audit {
        policy,
        traffic,
        replies,
        purged,
    })))
}

/// The same where the word behind the names says that the replies are told level by level.
fn purged_of<'a>(
    policy: &'a str,
    traffic: &'a str,
    replies: &'a str,
    word: &str,
) -> Option<Asked<'a>>
    ensures { option_map asked result ≡ purging policy.now traffic.now replies.now word.now }
{
    match word {
        "purged" => audit_of(policy, traffic, replies, true),
        _ => None,
    }
}

/// The recording of a name, and the checkpoint behind it, under the policy of a name.
fn saving_of<'a>(policy: &'a str, traffic: &'a str) -> Option<Asked<'a>>
    ensures { option_map asked result ≡ Some (save policy.now traffic.now) }
{
    Some(Asked::Other(Work::Save(Saving { policy, traffic })))
}

/// The recording of a name, behind the checkpoint of a name, under the policy of a name.
fn resumption_of<'a>(policy: &'a str, checkpoint: &'a str, traffic: &'a str) -> Option<Asked<'a>>
    ensures { option_map asked result ≡ Some (resume policy.now checkpoint.now traffic.now) }
{
    Some(Asked::Other(Work::Resume(Resumption {
        policy,
        checkpoint,
        traffic,
    })))
}

/// The format that two words name.
fn pair_of(lfs: &str, pi: &str) -> Option<Pair>
    ensures { result ≡ pair_in lfs.now pi.now }
{
    let lfs = number(lfs.as_bytes())?;
    let pi = number(pi.as_bytes())?;
    Some(Pair { lfs, pi })
}

/// The bytes that a word spells in hex, where they are at most 1,024.
fn bytes_of(alloc: Global, hex: &str) -> Result<Option<Vec<u8>>, AllocError>
    ensures { IfOk result (λ bytes. option_map (λ found. found.items) bytes ≡ bytes_in hex.now) }
{
    if hex.len() > MAX_HEX {
        return Ok(None);
    }
    lnfs_words::bytes_of(alloc, hex.as_bytes())
}

/// The text of `--help`.
pub fn help() -> &'static str
    ensures { result.now ≡ help_text }
{
    HELP
}

/// The text of `--version`.
pub fn version() -> &'static str
    ensures { result.now ≡ version_text }
{
    VERSION
}

/// What a word asks for that stands alone.
fn option_of<'a>(word: &str) -> Option<Asked<'a>>
    ensures { option_map asked result ≡ option word.now }
{
    match word {
        "--help" => Some(Asked::Alone(Command::Help)),
        "--version" => Some(Asked::Alone(Command::Version)),
        _ => None,
    }
}
