//! The dialogue over a link.
ghost use Rattle.std.specs.Prelude.{◌≡◌, ◌≤◌, ◌<◌, ◌⊎◌, ◌+◌, false, map, IfErr, OnOk};
ghost use Rattle.std.specs.List.{flat_map};
ghost use Rattle.lnfs_outside.specs.Bytes.{Puts};
ghost use Rattle.lnfs_rpc.specs.Formats.{frame_of};
ghost use Rattle.lnfs_client.specs.Machine.{asked, request_in};
ghost use Rattle.lnfs_stage.specs.Writes.{to_out};
ghost use Rattle.lnfs_stage.specs.Ending.{status_of};
ghost use Rattle.lnfs_stage.specs.Due.{written};
ghost use Rattle.lnfs_stage.specs.Does.{Does, DoesBy};
ghost use Rattle.lnfs_talk.specs.Exchange.{IsOfLink};
ghost use Rattle.lnfs_talk.specs.Talk.{fresh, heard, message_of};
ghost use Rattle.lnfs_talk.specs.Fits.{Goes, texts_in};
ghost use Rattle.lnfs_talk.specs.Talks.{AreShown, MayTalk, Talks, WithoutFiles};
ghost use Rattle.lnfs_talk.specs.Talks.{frames_of, link_with};

use crate::dialogue::Dialogue;
use crate::exchange::{receive, send};
use lnfs_calipso::Level;
use lnfs_client::laws::beginning;
use lnfs_format::Codecs;
use lnfs_gss3::Mechanism;
use lnfs_incoming::{BUDGET, Incoming};
use lnfs_outside::Link;
use lnfs_policy::Policy;
use lnfs_script::Script;
use lnfs_stage::{Ending, Outside, Stop};
use std::alloc::Global;
use std::sync::Wait;

/// Sends the next request, where there is one.
fn ask<M: Mechanism, L: Link>(
    alloc: Global,
    policy: &Policy,
    codecs: &Codecs,
    mechanism: &M,
    dialogue: &mut Dialogue,
    link: &mut L,
) -> Result<(), Stop>
    requires room { dialogue.old.client.sent < 4294967295 }
    requires goes { Goes policy.now dialogue.old }
    ensures client { OnOk result (dialogue.new
        ≡ record dialogue.old { client = asked M.signing policy.now dialogue.old.client }) }
    ensures goes { OnOk result (Goes policy.now dialogue.new) }
    ensures sent { Puts (L.taken link.old) (L.taken link.new) result
        (flat_map frame_of (message_of (request_in M.signing policy.now dialogue.old.client))) }
    ensures excused { IfErr result (IsOfLink (L.write_faults link.old) (L.write_faults link.new)) }
    ensures later { L.write_faults link.old ≤ L.write_faults link.new }
    ensures left { L.left link.new ≡ L.left link.old }
    ensures read_faults { L.read_faults link.new ≡ L.read_faults link.old }
{
    if !dialogue.ask(policy, codecs, mechanism)? {
        return Ok(());
    }
    match dialogue.request() {
        Some(message) => send(alloc, link, message),
        None => Ok(()),
    }
}

/// Shows a text, where there is one, and hands it on.
fn show<O: Outside>(text: Option<Vec<u8>>, outside: &mut O) -> Result<(), Stop>
    ensures does { Does result (O.seen outside.old) (O.seen outside.new)
        (written (map to_out (texts_in text))) }
    ensures shown { OnOk result (AreShown (O.seen outside.old) (O.seen outside.new)
        (texts_in text)) }
    ensures files { WithoutFiles (status_of result) }
{
    match text {
        Some(text) => {
            outside.put_text(&text)?;
            outside.hand_on()
        }
        None => Ok(()),
    }
}

/// Takes a record that came: shows the text of the action that it ends, and then sends the next request.
fn take<M: Mechanism, L: Link, O: Outside>(
    alloc: Global,
    policy: &Policy,
    codecs: &Codecs,
    mechanism: &M,
    dialogue: &mut Dialogue,
    message: &[u8],
    link: &mut L,
    outside: &mut O,
) -> Result<(), Stop>
    requires room { dialogue.old.client.sent < 4294967295 }
    requires goes { Goes policy.now dialogue.old }
    requires goes_on { dialogue.old.is_over ≡ false }
    ensures state { OnOk result (dialogue.new
        ≡ (heard M.signing policy.now (fresh dialogue.old) message.now).state) }
    ensures goes { OnOk result (Goes policy.now dialogue.new) }
    ensures sent { Puts (L.taken link.old) (L.taken link.new) result
        (frames_of (heard M.signing policy.now (fresh dialogue.old) message.now)) }
    ensures shown { DoesBy (L.write_faults link.old) (L.write_faults link.new) result
        (O.seen outside.old) (O.seen outside.new)
        (written (map to_out (heard M.signing policy.now (fresh dialogue.old) message.now).texts)) }
    // Nothing is sent before the text is shown.
    ensures in_turn { AreShown (O.seen outside.old) (O.seen outside.new)
        (heard M.signing policy.now (fresh dialogue.old) message.now).texts
        ⊎ (L.taken link.new ≡ L.taken link.old) }
    ensures files { WithoutFiles (status_of result) }
    ensures later { L.write_faults link.old ≤ L.write_faults link.new }
    ensures left { L.left link.new ≡ L.left link.old }
    ensures read_faults { L.read_faults link.new ≡ L.read_faults link.old }
    ensures count { OnOk result (dialogue.new.client.sent ≤ dialogue.old.client.sent + 1) }
{
    let text = dialogue.hear(policy, codecs, mechanism, message)?;
    show(text, outside)?;
    ask(alloc, policy, codecs, mechanism, dialogue, link)
}

/// Talks a script through over a link. Each text is shown before the next request is sent. It may wait for a record.
///
/// # Errors
///
/// `Ends` with `LinkClosed` where a reply is awaited and no further record can come: the link has ended, its next record is
/// too long, or 65,536 records have come. `NetFault` where a call of the link failed, `WriteFault` where a text couldn't be
/// shown, `Memory` where there is no memory.
pub fn converse<M: Mechanism, L: Link, O: Outside, R: Wait>(
    rt: &R,
    alloc: Global,
    policy: &Policy,
    codecs: &Codecs,
    mechanism: &M,
    level: Level,
    script: &Script,
    link: &mut L,
    outside: &mut O,
) -> Result<(), Stop>
    requires { MayTalk policy.now level.0 script.now }
    ensures { Talks M.signing policy.now level.0 script.now result
        (O.seen outside.old) (O.seen outside.new)
        (link_with (L.left link.old) (L.taken link.old) (L.read_faults link.old)
        (L.write_faults link.old))
        (link_with (L.left link.new) (L.taken link.new) (L.read_faults link.new)
        (L.write_faults link.new)) }
{
    beginning();
    let mut dialogue = Dialogue::begin(alloc, level, script)?;
    ask(alloc, policy, codecs, mechanism, &mut dialogue, link)?;
    let mut incoming = Incoming::new(alloc);
    for _count in 0..BUDGET {
        let message = receive(rt, link, &mut incoming)?;
        take(
            alloc,
            policy,
            codecs,
            mechanism,
            &mut dialogue,
            message.as_slice(),
            link,
            outside,
        )?;
        if dialogue.is_over() {
            return Ok(());
        }
    }
    Err(Stop::Ends(Ending::LinkClosed))
}
