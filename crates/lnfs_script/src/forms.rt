//! What the lines of a script say, one function for each form.

ghost use Rattle.std.specs.Prelude.{◌≡◌, Some, MatchResult};
ghost use Rattle.std.specs.Option.{option_copied, option_map};
ghost use Rattle.lnfs_words.specs.Words.{words};
ghost use Rattle.lnfs_script.specs.Forms.{path_in, named_path_in, offset_in, count_in, content_in, level_in, parent_in, identity_in, says_link, says_list, says_read, says_write, says_make, says_mkdir, says_remove, says_raise, action_of, link_at, action_at};
ghost use Rattle.lnfs_script.specs.Script.{IsStop};

use crate::action::Action;
use crate::error::Stop;
use crate::identity::Identity;
use crate::limits::{MAX_CONTENT, MAX_COUNT, MAX_OFFSET};
use crate::paths::is_root_or_path;
use lnfs_calipso::Level;
use lnfs_policy::{MAX_CLASS, Policy};
use lnfs_types::Octets;
use lnfs_words::{Parts, bytes_of, is_path, number, number_up_to, spells};
use std::alloc::Global;

/// What the first line says.
#[derive(Clone, Copy)]
pub struct Link {
    pub class: u32,
    pub identity: Identity,
}

// ---- what a word spells

fn path_of(alloc: Global, word: &[u8]) -> Result<Octets, Stop>
    ensures { MatchResult result (λ path. path_in word.now ≡ Some path) (IsStop (path_in word.now)) }
{
    if !is_root_or_path(word) {
        return Err(Stop::Unlisted);
    }
    Ok(Octets::from_slice(alloc, word)?)
}

fn named_path_of(alloc: Global, word: &[u8]) -> Result<Octets, Stop>
    ensures { MatchResult result (λ path. named_path_in word.now ≡ Some path)
        (IsStop (named_path_in word.now)) }
{
    if !is_path(word) {
        return Err(Stop::Unlisted);
    }
    Ok(Octets::from_slice(alloc, word)?)
}

fn offset_of(word: &[u8]) -> Result<u64, Stop>
    ensures { MatchResult result (λ offset. offset_in word.now ≡ Some offset)
        (IsStop (offset_in word.now)) }
{
    number_up_to(MAX_OFFSET, word).ok_or(Stop::Unlisted)
}

fn count_of(word: &[u8]) -> Result<u32, Stop>
    ensures { MatchResult result (λ count. count_in word.now ≡ Some count)
        (IsStop (count_in word.now)) }
{
    let count = number_up_to(u64::from(MAX_COUNT), word).ok_or(Stop::Unlisted)?;
    Ok(count as u32)
}

/// The bytes that a word spells in hex. A word that is too long takes no memory.
fn content_of(alloc: Global, word: &[u8]) -> Result<Octets, Stop>
    ensures { MatchResult result (λ content. content_in word.now ≡ Some content)
        (IsStop (content_in word.now)) }
{
    if word.len() > 2 * MAX_CONTENT {
        return Err(Stop::Unlisted);
    }
    let content = bytes_of(alloc, word)?.ok_or(Stop::Unlisted)?;
    Ok(Octets::new(content))
}

fn level_of(policy: &Policy, word: &[u8]) -> Result<Level, Stop>
    ensures { MatchResult result (λ level. level_in policy.now word.now ≡ Some level)
        (IsStop (level_in policy.now word.now)) }
{
    let level = Level(number(word).ok_or(Stop::Unlisted)?);
    if !policy.lattice().holds(level) {
        return Err(Stop::Unlisted);
    }
    Ok(level)
}

fn parent_of(policy: &Policy, word: &[u8]) -> Option<u32>
    ensures { result ≡ parent_in policy.now word.now }
{
    let number = number(word)?;
    policy.parent(number)?;
    Some(number)
}

// ---- the first line

fn identity_of(policy: &Policy, kind: &[u8], word: &[u8]) -> Option<Identity>
    ensures { result ≡ identity_in policy.now kind.now word.now }
{
    if spells(kind, "guest") {
        let uid = number(word)?;
        Some(Identity::Guest { uid })
    } else if spells(kind, "full") {
        let parent = parent_of(policy, word)?;
        Some(Identity::Full { parent })
    } else {
        None
    }
}

fn link_of(policy: &Policy, words: Parts<'_>) -> Option<Link>
    ensures { result ≡ says_link policy.now words.entry }
{
    let (name, class, kind, number) = words.four()?;
    if !spells(name, "link") {
        return None;
    }
    let class = number_up_to(u64::from(MAX_CLASS), class)?;
    Some(Link {
        class: class as u32,
        identity: identity_of(policy, kind, number)?,
    })
}

/// The link and the identity that a line tells, where there is a line and it is of that form.
pub fn link_at(policy: &Policy, line: Option<&[u8]>) -> Option<Link>
    ensures { result ≡ link_at policy.now (option_copied line.entry) }
{
    link_of(policy, Parts::new(line?, b' '))
}

// ---- the other lines

fn list(alloc: Global, words: Parts<'_>) -> Result<Action, Stop>
    ensures { MatchResult result (λ action. says_list words.entry ≡ Some action)
        (IsStop (says_list words.entry)) }
{
    let path = words.one().ok_or(Stop::Unlisted)?;
    Ok(Action::List {
        path: path_of(alloc, path)?,
    })
}

fn read(alloc: Global, words: Parts<'_>) -> Result<Action, Stop>
    ensures { MatchResult result (λ action. says_read words.entry ≡ Some action)
        (IsStop (says_read words.entry)) }
{
    let (path, offset, count) = words.three().ok_or(Stop::Unlisted)?;
    Ok(Action::Read {
        path: path_of(alloc, path)?,
        offset: offset_of(offset)?,
        count: count_of(count)?,
    })
}

fn write(alloc: Global, words: Parts<'_>) -> Result<Action, Stop>
    ensures { MatchResult result (λ action. says_write words.entry ≡ Some action)
        (IsStop (says_write words.entry)) }
{
    let (path, offset, hex) = words.three().ok_or(Stop::Unlisted)?;
    Ok(Action::Write {
        path: path_of(alloc, path)?,
        offset: offset_of(offset)?,
        content: content_of(alloc, hex)?,
    })
}

fn make(alloc: Global, words: Parts<'_>) -> Result<Action, Stop>
    ensures { MatchResult result (λ action. says_make words.entry ≡ Some action)
        (IsStop (says_make words.entry)) }
{
    let path = words.one().ok_or(Stop::Unlisted)?;
    Ok(Action::Make {
        path: named_path_of(alloc, path)?,
    })
}

fn mkdir(alloc: Global, policy: &Policy, words: Parts<'_>) -> Result<Action, Stop>
    ensures { MatchResult result (λ action. says_mkdir policy.now words.entry ≡ Some action)
        (IsStop (says_mkdir policy.now words.entry)) }
{
    let (path, level) = words.two().ok_or(Stop::Unlisted)?;
    Ok(Action::Mkdir {
        path: named_path_of(alloc, path)?,
        level: level_of(policy, level)?,
    })
}

fn remove(alloc: Global, words: Parts<'_>) -> Result<Action, Stop>
    ensures { MatchResult result (λ action. says_remove words.entry ≡ Some action)
        (IsStop (says_remove words.entry)) }
{
    let path = words.one().ok_or(Stop::Unlisted)?;
    Ok(Action::Remove {
        path: named_path_of(alloc, path)?,
    })
}

fn raise(alloc: Global, policy: &Policy, words: Parts<'_>) -> Result<Action, Stop>
    ensures { MatchResult result (λ action. says_raise policy.now words.entry ≡ Some action)
        (IsStop (says_raise policy.now words.entry)) }
{
    let (path, level) = words.two().ok_or(Stop::Unlisted)?;
    Ok(Action::Raise {
        path: named_path_of(alloc, path)?,
        level: level_of(policy, level)?,
    })
}

#[tactic(auto, unfolding(crate::specs::Forms::action_of))]
fn action(alloc: Global, policy: &Policy, text: &[u8]) -> Result<Action, Stop>
    ensures { MatchResult result (λ action. action_of policy.now (words text.now) ≡ Some action)
        (IsStop (action_of policy.now (words text.now))) }
{
    let mut words = Parts::new(text, b' ');
    let Some(name) = words.next() else {
        return Err(Stop::Unlisted);
    };
    if spells(name, "list") {
        list(alloc, words)
    } else if spells(name, "read") {
        read(alloc, words)
    } else if spells(name, "write") {
        write(alloc, words)
    } else if spells(name, "make") {
        make(alloc, words)
    } else if spells(name, "mkdir") {
        mkdir(alloc, policy, words)
    } else if spells(name, "remove") {
        remove(alloc, words)
    } else if spells(name, "raise") {
        raise(alloc, policy, words)
    } else {
        Err(Stop::Unlisted)
    }
}

/// The action that a line asks for, where there is a line and it is of a listed form.
pub fn action_at(alloc: Global, policy: &Policy, line: Option<&[u8]>) -> Result<Action, Stop>
    ensures { MatchResult result (λ action. action_at policy.now (option_copied line.entry)
        ≡ Some action) (IsStop (action_at policy.now (option_copied line.entry))) }
{
    let Some(text) = line else {
        return Err(Stop::Unlisted);
    };
    action(alloc, policy, text)
}
