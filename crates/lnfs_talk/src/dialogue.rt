//! A script that is talked through, record by record.
ghost use Rattle.std.specs.Prelude.{◌≡◌, ◌<◌, ◌++◌, ◌∷◌, [], false, All, Err, IfErr, IfOk, None, OnOk, OnErr};
ghost use Rattle.std.specs.Option.{option_map};
ghost use Rattle.lnfs_script.specs.Fits.{ActionFits};
ghost use Rattle.lnfs_script.specs.declared.action.Action.TheVariants.{Leave};
ghost use Rattle.lnfs_client.specs.Machine.{asked, awaited, may_ask, turn};
ghost use Rattle.lnfs_talk.specs.Talk.{beginning, led, over, proceeded, shown_of};
ghost use Rattle.lnfs_talk.specs.Fits.{Goes, IsTold, texts_in};

use crate::texts::{answer_text, refusal_text};
use lnfs_calipso::Level;
use lnfs_client::laws::beginning;
use lnfs_client::{Client, Progress, Refusal};
use lnfs_format::Codecs;
use lnfs_gss3::Mechanism;
use lnfs_policy::Policy;
use lnfs_script::{Action, Script};
use lnfs_stage::Stop;
use lnfs_types::Octets;
use std::alloc::{AllocError, Global};
use std::collections::VecDeque;
use std::marker::Model;

/// The name under which the client makes itself known.
const OWNER: &[u8] = b"client";

fn copy_octets(alloc: Global, octets: &Octets) -> Result<Octets, AllocError>
    ensures { IfOk result (λ copy. copy ≡ octets.now) }
{
    Octets::from_slice(alloc, octets.as_slice())
}

fn copy_action(alloc: Global, action: &Action) -> Result<Action, AllocError>
    ensures { IfOk result (λ copy. copy ≡ action.now) }
{
    match action {
        Action::Mount => Ok(Action::Mount),
        Action::List { path } => Ok(Action::List {
            path: copy_octets(alloc, path)?,
        }),
        Action::Read {
            path,
            offset,
            count,
        } => Ok(Action::Read {
            path: copy_octets(alloc, path)?,
            offset: *offset,
            count: *count,
        }),
        Action::Write {
            path,
            offset,
            content,
        } => Ok(Action::Write {
            path: copy_octets(alloc, path)?,
            offset: *offset,
            content: copy_octets(alloc, content)?,
        }),
        Action::Make { path } => Ok(Action::Make {
            path: copy_octets(alloc, path)?,
        }),
        Action::Mkdir { path, level } => Ok(Action::Mkdir {
            path: copy_octets(alloc, path)?,
            level: *level,
        }),
        Action::Remove { path } => Ok(Action::Remove {
            path: copy_octets(alloc, path)?,
        }),
        Action::Raise { path, level } => Ok(Action::Raise {
            path: copy_octets(alloc, path)?,
            level: *level,
        }),
        Action::Leave => Ok(Action::Leave),
    }
}

/// Some actions, and then Leave.
fn with_leave(alloc: Global, actions: &[Action]) -> Result<VecDeque<Action>, AllocError>
    ensures { IfOk result (λ all. all.items ≡ actions.now ++ Leave ∷ []) }
{
    let mut all = VecDeque::new(alloc);
    for action in actions {
        all.push_back(copy_action(alloc, action)?)?;
    }
    all.push_back(Action::Leave)?;
    Ok(all)
}

/// The client of a script, and the actions that are still to begin.
#[derive(Drop)]
pub struct Dialogue {
    alloc: Global,
    client: Client,
    actions: VecDeque<Action>,
    is_over: bool,
}

impl Model for Dialogue {
    ghost use Rattle.std.specs.Prelude.{All};
    ghost use Rattle.lnfs_script.specs.Fits.{ActionFits};
    ghost use Rattle.lnfs_talk.specs.Talk.{State};

    ghost Value = { State };

    ghost view = { λ d. record { client = d.client; actions = d.actions.items; is_over = d.is_over } };

    ghost invariant = { λ d. All ActionFits d.actions.items };
}

impl Dialogue {
    /// The dialogue of a script at a level, with the Mount begun.
    ///
    /// # Errors
    ///
    /// `AllocError` where there is no memory.
    pub fn begin(alloc: Global, level: Level, script: &Script) -> Result<Dialogue, AllocError>
        requires { All ActionFits script.now.actions }
        ensures { IfOk result (λ dialogue. dialogue ≡ beginning level.0 script.now) }
    {
        let actions = with_leave(alloc, script.actions.as_slice())?;
        let mut client = Client::start(alloc, level, script.identity, OWNER)?;
        client.begin(Action::Mount);
        Ok(Dialogue {
            alloc,
            client,
            actions,
            is_over: false,
        })
    }

    /// Whether nothing more is asked.
    pub fn is_over(&self) -> bool
        ensures { result ≡ self.now.is_over }
    {
        self.is_over
    }

    /// Begins the next action, where there is one and the client is mounted. Otherwise all is over.
    fn proceed(&mut self)
        requires { self.old.client.running ≡ None }
        ensures { self.new ≡ proceeded self.old }
    {
        let Some(action) = self.actions.pop_front() else {
            self.is_over = true;
            return;
        };
        if self.client.is_mounted() {
            self.client.begin(action);
        } else {
            self.is_over = true;
        }
    }

    /// The text of a refusal, behind which the next action begins, unless the reply was no answer.
    fn refused(&mut self, cause: Refusal) -> Result<Vec<u8>, Stop>
        requires { self.old.client.running ≡ None }
        ensures led { IfOk result (λ text. (self.new ≡ led self.old (Err cause))
            × (text.items ∷ [] ≡ shown_of (Err cause))) }
        ensures told { IfOk result (λ text. IsTold cause) }
        ensures short { IfErr result (λ stop. stop ≡ Stop.Memory) }
    {
        let text = refusal_text(self.alloc, cause)?;
        match cause {
            Refusal::Memory => return Err(Stop::Memory),
            Refusal::BadReply { at: _ } => self.is_over = true,
            Refusal::NotDominated
            | Refusal::UnknownLabel
            | Refusal::NotEqual
            | Refusal::ServerSaid { status: _ }
            | Refusal::Denied { auth: _ } => self.proceed(),
        }
        Ok(text)
    }

    /// Takes a record that came. Gives the text that is shown of the action that it ends, if it ends one.
    ///
    /// # Errors
    ///
    /// `Memory` where there is no memory.
    pub fn hear<M: Mechanism>(
        &mut self,
        policy: &Policy,
        codecs: &Codecs,
        mechanism: &M,
        message: &[u8],
    ) -> Result<Option<Vec<u8>>, Stop>
        requires { Goes policy.now self.old }
        ensures heard { IfOk result (λ text.
            let t = turn M.signing policy.now self.old.client message.now in
            (self.new ≡ led (record self.old { client = t.client }) t.told)
            × (texts_in text ≡ shown_of t.told)) }
        ensures short { IfErr result (λ stop. stop ≡ Stop.Memory) }
        ensures goes { OnOk result (Goes policy.now self.new) }
    {
        beginning();
        match self.client.take_reply(policy, codecs, mechanism, message) {
            Ok(Progress::More) => Ok(None),
            Ok(Progress::Done(answer)) => {
                let text = answer_text(self.alloc, &answer)?;
                self.proceed();
                Ok(Some(text))
            }
            Err(cause) => Ok(Some(self.refused(cause)?)),
        }
    }

    /// Makes the next request, which `request` then lends. Answers false where nothing is to be asked now.
    ///
    /// # Errors
    ///
    /// `AllocError` where there is no memory. Then nothing has changed.
    pub fn ask<M: Mechanism>(
        &mut self,
        policy: &Policy,
        codecs: &Codecs,
        mechanism: &M,
    ) -> Result<bool, AllocError>
        requires room { self.old.client.sent < 4294967295 }
        requires goes { Goes policy.now self.old }
        ensures made { IfOk result (λ made. made ≡ may_ask self.old.client) }
        ensures client { OnOk result (self.new
            ≡ record self.old { client = asked M.signing policy.now self.old.client }) }
        ensures err { OnErr result (self.new ≡ self.old) }
        ensures goes { Goes policy.now self.new }
    {
        self.client.next_request(policy, codecs, mechanism)
    }

    /// The request that is unanswered.
    pub fn request(&self) -> Option<&[u8]>
        ensures { option_map (λ bytes. bytes.now) result
            ≡ option_map (λ sent. sent.message) (awaited self.now.client) }
    {
        self.client.resend()
    }
}
