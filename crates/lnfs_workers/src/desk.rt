//! What lies under the lock, and the service of a record: it is decoded before the lock is taken, and its reply is sealed when
//! the lock is free again.
ghost use Rattle.std.specs.Prelude.{◌≡◌, ◌≤◌, ◌<◌, ◌+◌, ◌++◌, ◌∷◌, ℕ, [], Some, false, All, IfOk, IfSome, OnOk, length};
ghost use Rattle.std.specs.Option.{option_to_list};
ghost use Rattle.std.specs.Vec.{vec_len, vec_capacity};
ghost use Rattle.lnfs_types.specs.declared.limits.TheConstants.{RECORD_LIMIT};
ghost use Rattle.lnfs_types.specs.Moments.{Fits};
ghost use Rattle.lnfs_step.specs.Journal.{reply_with, line_with};
ghost use Rattle.lnfs_vault.specs.Pieces.{held};
ghost use Rattle.lnfs_vault.specs.Lines.{IsLineOf};
ghost use Rattle.lnfs_vault.specs.Prepared.{IsPrepared};
ghost use Rattle.lnfs_vault.specs.Sealed.{sealed_of};
ghost use Rattle.lnfs_history.specs.Entries.{of, entry, known, part};
ghost use Rattle.lnfs_workers.specs.Transcripts.{entries_of};
ghost use Rattle.lnfs_workers.specs.Lines.{lines_in, lines_of};
ghost use Rattle.lnfs_workers.specs.Told.{Told, IsShort};

use crate::outcome::Outcome;
use lnfs_engine::{Extra, ReadExtra};
use lnfs_format::Codecs;
use lnfs_gss3::Mechanism;
use lnfs_history::{History, LinkView, Recorder, Room, Saying};
use lnfs_site::Site;
use lnfs_types::{Event, Moment, Octets};
use lnfs_vault::{AuditLine, Books, Front, Prepared, Said, Unsealed};
use std::alloc::AllocError;
use std::marker::Brand;
use std::sync::{Mutex, Wait};

/// What is noted beside the books: the audit lines of their journal, and all replies to its events.
#[derive(Drop)]
pub struct Notes<B: Room> {
    pub lines: Vec<AuditLine>,
    pub keeper: Recorder<B>,
}

/// The books, with the notes of their journal. While an event is pending in the books, neither has it.
#[derive(Drop)]
pub struct Desk<B: Room, M: Mechanism + Drop, X: Extra> {
    pub books: Books<M, X>,
    pub notes: Notes<B>,
    pub ghost site: { books.policy ≡ B.policy },
    pub ghost told: { notes.keeper.log ≡ entries_of X.extra M.signing B.policy books.journal },
    pub ghost said: { lines_in notes.lines.items ≡ lines_of X.extra M.signing B.policy books.journal },
    pub ghost whole: { notes.keeper.made ≡ B.links },
    pub ghost fits: { All Fits books.journal },
}

/// A record of a link, with the link's class and the moment when it is served.
#[derive(Drop)]
pub struct LinkRecord {
    pub class: u32,
    pub moment: Moment,
    pub message: Octets,
}

/// Puts a line behind the others, where there is one. There is room for it.
fn put_line(lines: &mut Vec<AuditLine>, line: Option<AuditLine>)
    requires { vec_len lines.old < vec_capacity lines.old }
    ensures { lines.new.items ≡ lines.old.items ++ option_to_list line }
{
    if let Some(line) = line {
        lines.push_reserved(line);
    }
}

impl<B: Room, M: Mechanism + Drop, X: Extra> Desk<B, M, X> {
    /// Makes the step of an event whose record was decoded, and leaves the event pending, with room for its line. An error
    /// leaves the journal.
    fn make_step<'p>(
        &mut self,
        site: &Site<'_>,
        event: &Event,
        prepared: Prepared<'p, '_>,
    ) -> Result<Said<'p>, AllocError>
        requires site { site.now ≡ B.policy }
        requires event { Fits event.now }
        requires prepared { IsPrepared X.extra.grammar M.signing site.now event.now.class
            event.now.message prepared }
        ensures reply { IfOk result (λ said. sealed_of M.signing said.unsealed
            ≡ reply_with X.extra M.signing B.policy self.old.books.journal event.now) }
        ensures line { IfOk result (λ said. IsLineOf (length self.old.books.journal + 1)
            (line_with X.extra M.signing B.policy self.old.books.journal event.now) said.line) }
        ensures short { IfOk result (λ said. IfSome (sealed_of M.signing said.unsealed) (λ reply.
            length reply ≤ RECORD_LIMIT)) }
        ensures room { OnOk result (vec_len self.new.notes.lines
            < vec_capacity self.new.notes.lines) }
        ensures ok { OnOk result (self.new.books
            ≡ held B.policy self.old.books.journal (Some event.now) false) }
    {
        self.notes.lines.reserve(1)?;
        self.books.make_step(site, event, prepared)
    }

    /// Puts the event of the last step into the journal, and its line behind the others. The link's place is told of it, and of
    /// the reply that is to be sealed. Takes no memory.
    fn keep(
        &mut self,
        history: &History<B>,
        place: LinkView<B>,
        event: Event,
        line: Option<AuditLine>,
        unsealed: &Unsealed<'_>,
    ) -> LinkView<B>
        requires room { vec_len self.old.notes.lines < vec_capacity self.old.notes.lines }
        requires event { Fits event }
        requires line { IsLineOf (length self.old.books.journal + 1)
            (line_with X.extra M.signing B.policy self.old.books.journal event) line }
        requires pending { self.old.books.pending ≡ Some event }
        requires reply { sealed_of M.signing unsealed.now
            ≡ reply_with X.extra M.signing B.policy self.old.books.journal event }
        requires link { event.link ≡ place.link }
        ensures { result ≡ part place.link (place.entries
            ++ entry event (sealed_of M.signing unsealed.now) ∷ []) }
    {
        let place = add_entry::<Brand, B, M>(
            history,
            &mut self.notes.keeper,
            place,
            &event,
            unsealed,
        );
        self.books.keep(event);
        put_line(&mut self.notes.lines, line);
        place
    }

    /// The place of a link has all of its entries.
    pub fn learn(&mut self, history: &History<B>, place: LinkView<B>)
        ensures books { self.new.books ≡ self.old.books }
        ensures lines { self.new.notes.lines ≡ self.old.notes.lines }
        ensures whole { place.entries ≡ of place.link
            (entries_of X.extra M.signing B.policy self.old.books.journal) }
    {
        history.learn(&mut self.notes.keeper, place);
    }

    /// Links that have no place have no entry.
    pub fn look(&mut self, history: &History<B>)
        ensures books { self.new.books ≡ self.old.books }
        ensures lines { self.new.notes.lines ≡ self.old.notes.lines }
        ensures others { (link : ℕ) → B.links ≤ link →
            of link (entries_of X.extra M.signing B.policy self.old.books.journal) ≡ [] }
    {
        history.look(&mut self.notes.keeper);
    }
}

/// Adds an event and the reply that is to be sealed. They only say which entry it is.
fn add_entry<E: Saying, B: Room, M: Mechanism>(
    history: &History<B>,
    keeper: &mut Recorder<B>,
    place: LinkView<B>,
    event: &Event,
    unsealed: &Unsealed<'_>,
) -> LinkView<B>
    requires entry { E.entry ≡ entry event.now (sealed_of M.signing unsealed.now) }
    requires link { event.now.link ≡ place.link }
    ensures place { result ≡ part place.link (place.entries
        ++ entry event.now (sealed_of M.signing unsealed.now) ∷ []) }
    ensures keeper { keeper.new ≡ known (keeper.old.log
        ++ entry event.now (sealed_of M.signing unsealed.now) ∷ []) keeper.old.made }
{
    history.add::<E>(keeper, place)
}

/// Serves a record of a link: its step alone is made under the lock. The link's place is told of what came of it.
pub fn serve_record<B: Room, M: Mechanism + Drop, X: ReadExtra>(
    rt: &impl Wait,
    codecs: &Codecs,
    front: &Front<M, X>,
    history: &History<B>,
    desk: &Mutex<Desk<B, M, X>>,
    place: LinkView<B>,
    arrival: LinkRecord,
) -> (LinkView<B>, Outcome)
    requires site { front.now.policy ≡ B.policy }
    requires short { length arrival.message ≤ RECORD_LIMIT }
    requires secs { arrival.moment.secs ≤ 9223372036854775807 }
    requires nanos { arrival.moment.nanos < 1000000000 }
    ensures told { Told place (record { class = arrival.class; link = place.link; moment = arrival.moment; message = arrival.message })
        result.1 result.0 }
    ensures short { IsShort result.1 }
{
    let LinkRecord {
        class,
        moment,
        message,
    } = arrival;
    let event = Event {
        class,
        link: place.number(),
        moment,
        message,
    };
    let Ok(prepared) = front.decode(codecs, &event) else {
        return (place, Outcome::NoMemory);
    };
    let site = front.site();
    let mut desk = desk.lock(rt);
    let Ok(said) = desk.make_step(&site, &event, prepared) else {
        return (place, Outcome::NoMemory);
    };
    let Said { unsealed, line } = said;
    let place = desk.keep(history, place, event, line, &unsealed);
    drop(desk);
    match front.seal(unsealed) {
        Ok(reply) => (place, Outcome::Replied { reply }),
        Err(_) => (place, Outcome::Lost),
    }
}
