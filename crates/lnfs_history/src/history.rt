//! The history, its keeper and its places.
ghost use Rattle.std.specs.Prelude.{◌≡◌, ◌≤◌, ◌+◌, ◌++◌, ◌∷◌, ℕ, []};
ghost use Rattle.lnfs_history.specs.Entries.{of, known, part};
ghost use Rattle.lnfs_history.specs.Rules.{keeper};

use crate::entry::View;
use atomic_table::{Join, Play, Seat, Split, Table, TableRule};
use std::alloc::{AllocError, Global};
use std::marker::{Brand, Model, PhantomData};

/// The rule of the history: what a seat knows fits the one history that there is.
pub struct Law;

impl TableRule<(), View, ()> for Law {
    ghost use Rattle.std.specs.Prelude.{[]};
    ghost use Rattle.lnfs_history.specs.Rules.{Kept, keeper};

    ghost holds = { λ _. Kept };

    ghost first = { λ _. keeper [] 0 };
}

// the keeper makes a place
struct NewPlace;

impl Split<View> for NewPlace {
    ghost use Rattle.lnfs_history.specs.Rules.{one_more, new_place};

    ghost left = { one_more };

    ghost right = { new_place };
}

// the keeper takes a place in
struct Together;

impl Join<View> for Together {
    ghost use Rattle.lnfs_history.specs.Rules.{with_place, nobody};

    ghost both = { with_place };

    ghost spent = { nobody };
}

// and gives it back
struct Apart;

impl Split<View> for Apart {
    ghost use Rattle.lnfs_history.specs.Rules.{without_place, place_of};

    ghost left = { without_place };

    ghost right = { place_of };
}

/// Which entry a step adds. Each call picks it.
pub trait Saying {
    ghost use Rattle.lnfs_history.specs.declared.entry.Entry.{Entry};

    ghost entry: { Entry };
}

impl Saying for Brand {
    ghost use Rattle.std.specs.Prelude.{[], None};

    ghost entry = { record { event = record { class = 0; link = 0; moment = record { secs = 0; nanos = 0 }; message = [] }; reply = None } };
}

// an entry comes to the whole, and to the place that the keeper has
struct Adds<E: Saying> {
    of: PhantomData<E>,
}

impl<E: Saying> Play<(), View> for Adds<E> {
    ghost use Rattle.lnfs_history.specs.Rules.{Added};

    ghost then = { Added E.entry };
}

// a place that the keeper has is compared with the whole
struct Learns;

impl Play<(), View> for Learns {
    ghost use Rattle.lnfs_history.specs.Rules.{Learned};

    ghost then = { Learned };
}

/// Which history it is, how many links have a place in it, and of which site. Each run picks it.
pub trait Room {
    ghost use Rattle.std.specs.Prelude.{ℕ};
    ghost use Rattle.atomic_table.specs.Seated.{TableId};
    ghost use Rattle.lnfs_policy.specs.Policy.{Policy};

    ghost table: { TableId };

    ghost links: { ℕ };

    ghost policy: { Policy };
}

impl Room for Brand {
    ghost use Rattle.std.specs.Prelude.{[]};
    ghost use Rattle.lnfs_policy.specs.Policy.{policy_in};
    ghost use Rattle.lnfs_history.specs.Rules.{no_table};

    ghost table = { no_table };

    ghost links = { 0 };

    ghost policy = { policy_in [] [] };
}

/// An empty history, which has no name yet.
#[derive(Drop)]
pub struct Opened {
    pub table: Table<(), View, (), Law, Global>,
    seat: Seat<(), View>,
    ghost one_word: { table.shared.table_id.words ≡ 1 },
    ghost seated: { seat.table_id ≡ table.shared.table_id },
    ghost empty: { seat.me ≡ (keeper [] 0, []) },
}

impl Opened {
    /// A history of nothing. What it is, its fields say.
    ///
    /// # Errors
    ///
    /// `AllocError` where there is no memory.
    pub fn new(alloc: Global) -> Result<Opened, AllocError> {
        let (table, seat) = Table::<(), View, (), Law, Global>::of_words(alloc, &[0], &())?;
        Ok(Opened { table, seat })
    }

    /// The history under a name, with its keeper.
    pub fn named<B: Room>(self) -> (History<B>, Recorder<B>)
        requires { self.table.shared.table_id ≡ B.table }
        ensures { result.1 ≡ known [] 0 }
    {
        let Opened { table, seat } = self;
        (
            History {
                table,
                of: PhantomData,
            },
            Recorder {
                seat,
                of: PhantomData,
            },
        )
    }
}

/// What all threads share. Its one word never changes: the history is known to seats alone.
#[derive(Drop)]
pub struct History<B: Room> {
    table: Table<(), View, (), Law, Global>,
    of: PhantomData<B>,
    ghost one_word: { table.shared.table_id.words ≡ 1 },
    ghost named: { table.shared.table_id ≡ B.table },
}

/// Who knows the whole history.
#[derive(Drop)]
pub struct Recorder<B: Room> {
    seat: Seat<(), View>,
    of: PhantomData<B>,
}

impl<B: Room> Model for Recorder<B> {
    ghost use Rattle.std.specs.Prelude.{◌≡◌, []};
    ghost use Rattle.lnfs_history.specs.Entries.{Known, known};
    ghost use Rattle.lnfs_history.specs.Rules.{keeper};

    ghost Value = { Known };

    ghost view = { λ k. known k.seat.me.0.log k.seat.me.0.made };

    ghost invariant = { λ k. (k.seat.table_id ≡ B.table) × (k.seat.me ≡ (keeper k.seat.me.0.log k.seat.me.0.made, [])) };
}

/// Who knows the entries of one link.
#[derive(Drop)]
pub struct LinkView<B: Room> {
    number: u32,
    seat: Seat<(), View>,
    of: PhantomData<B>,
}

impl<B: Room> Model for LinkView<B> {
    ghost use Rattle.std.specs.Prelude.{◌≡◌, []};
    ghost use Rattle.lnfs_history.specs.Entries.{Part, part};
    ghost use Rattle.lnfs_history.specs.Rules.{place};

    ghost Value = { Part };

    ghost view = { λ p. part p.seat.me.0.link p.seat.me.0.entries };

    ghost invariant = { λ p. (p.seat.table_id ≡ B.table) × (p.seat.me ≡ (place p.seat.me.0.link p.seat.me.0.entries, [])) × (p.number ≡ p.seat.me.0.link) };
}

impl<B: Room> LinkView<B> {
    /// The number of its link.
    pub fn number(&self) -> u32
        ensures { result ≡ self.now.link }
    {
        self.number
    }
}

impl<B: Room> History<B> {
    /// The place of the next link, which has this number.
    pub fn place(&self, keeper: &mut Recorder<B>, number: u32) -> LinkView<B>
        requires { keeper.old.made ≡ number }
        ensures place { result ≡ part number [] }
        ensures keeper { keeper.new ≡ known keeper.old.log (keeper.old.made + 1) }
    {
        let seat = self.table.shared.split_seat::<NewPlace>(&mut keeper.seat);
        LinkView {
            number,
            seat,
            of: PhantomData,
        }
    }

    /// Adds an entry to what the keeper and the place of its link know. Nothing says at run time which entry it is.
    pub fn add<E: Saying>(&self, keeper: &mut Recorder<B>, place: LinkView<B>) -> LinkView<B>
        requires { E.entry.event.link ≡ place.link }
        ensures place { result ≡ part place.link (place.entries ++ E.entry ∷ []) }
        ensures keeper { keeper.new ≡ known (keeper.old.log ++ E.entry ∷ []) keeper.old.made }
    {
        let LinkView { number, seat, of } = place;
        self.table
            .shared
            .join_seat::<Together>(&mut keeper.seat, seat);
        self.table.shared.load::<Adds<E>>(&mut keeper.seat, 0);
        let seat = self.table.shared.split_seat::<Apart>(&mut keeper.seat);
        LinkView { number, seat, of }
    }

    /// The keeper learns that a place has all entries of its link.
    pub fn learn(&self, keeper: &mut Recorder<B>, place: LinkView<B>)
        ensures keeper { keeper.new ≡ keeper.old }
        ensures whole { place.entries ≡ of place.link keeper.old.log }
    {
        let LinkView {
            number: _,
            seat,
            of: _,
        } = place;
        self.table
            .shared
            .join_seat::<Together>(&mut keeper.seat, seat);
        self.table.shared.load::<Learns>(&mut keeper.seat, 0);
    }

    /// The keeper learns that no link without a place has an entry.
    pub fn look(&self, keeper: &mut Recorder<B>)
        ensures keeper { keeper.new ≡ keeper.old }
        ensures others { (link : ℕ) → keeper.old.made ≤ link → of link keeper.old.log ≡ [] }
    {
        self.table.shared.load::<Learns>(&mut keeper.seat, 0);
    }
}
