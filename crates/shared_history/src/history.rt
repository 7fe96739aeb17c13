//! The history that threads share, the whole log under the lock, and what each thread knows of it.

ghost use Rattle.std.specs.Prelude.{◌≡◌, ◌+◌, ◌<◌, ◌++◌, ◌∷◌, ◌⊎◌, [], true};
ghost use mathlib.Core.List.{IsPrefix};
ghost use Rattle.shared_history.specs.Views.{Extends, IsFresh, both, thread_log, whole_log, own, view_in};

use crate::views::{Added, Adds, Enters, Grows, Meets, View};
use atomic_table::{Badge, Seat, Shared, Table};
use std::alloc::{AllocError, Global};
use std::marker::{Brand, Model, PhantomData};
use std::mem;

/// Which history it is, and which logs are lawful. Each call of a program chooses the first.
pub trait Naming<E> {
    ghost use Rattle.std.specs.Prelude.{ℕ, List};
    ghost use Rattle.atomic_table.specs.Seated.{TableId};

    ghost table: { TableId };

    ghost lawful: { List (ℕ × E) → Type 0 };
}

/// An empty history, which has no name yet.
#[derive(Drop)]
pub struct Opened<E> {
    table: Table<u64, View<E>, (), Grows, Global>,
    seat: Seat<u64, View<E>>,
    pub ghost words: { 0 < table.shared.table_id.words },
    pub ghost seat_is: { (seat.table_id ≡ table.shared.table_id) × (seat.me ≡ (whole_log [] 0, [])) },
}

/// The history. Threads share it.
#[derive(Drop)]
pub struct History<E, J: Naming<E>> {
    table: Table<u64, View<E>, (), Grows, Global>,
    of: PhantomData<J>,
}

impl<E, J: Naming<E>> Model for History<E, J> {
    ghost use Rattle.std.specs.Prelude.{◌≡◌, ◌<◌};
    ghost use Rattle.atomic_table.specs.Seated.{TableId, table_id_coded};

    ghost Value = { TableId };

    ghost coded = { table_id_coded };

    ghost view = { λ h. h.table.shared.table_id };

    ghost invariant = { λ h. (h.table.shared.table_id ≡ J.table) × (0 < h.table.shared.table_id.words) };
}

/// The whole log of the history, without which nothing can be added. It is kept under the lock.
#[derive(Drop)]
pub struct WholeLog<E, J: Naming<E>> {
    badge: Badge<View<E>>,
    of: PhantomData<J>,
}

impl<E, J: Naming<E>> Model for WholeLog<E, J> {
    ghost use Rattle.std.specs.Prelude.{◌≡◌, ◌∷◌, []};
    ghost use Rattle.shared_history.specs.Views.{IsFresh, whole_log, view_in};
    ghost use Rattle.shared_history.specs.declared.views.View.{View};

    ghost Value = { View E };

    ghost view = { λ k. view_in k.badge.views };

    ghost invariant = { λ k. (k.badge.table_id ≡ J.table) × (k.badge.views ≡ view_in k.badge.views ∷ []) × (view_in k.badge.views ≡ whole_log (view_in k.badge.views).log (view_in k.badge.views).given) × J.lawful (view_in k.badge.views).log × IsFresh (view_in k.badge.views) };
}

/// What one thread knows of the history: a prefix of its log, which is lawful, and in which the entries with the
/// thread's index are those that it made.
#[derive(Drop)]
pub struct ThreadLog<E, J: Naming<E>> {
    badge: Badge<View<E>>,
    of: PhantomData<J>,
}

impl<E, J: Naming<E>> Model for ThreadLog<E, J> {
    ghost use Rattle.std.specs.Prelude.{◌≡◌, ◌∷◌, []};
    ghost use Rattle.shared_history.specs.Views.{thread_log, own, view_in};
    ghost use Rattle.shared_history.specs.declared.views.View.{View};

    ghost Value = { View E };

    ghost view = { λ f. view_in f.badge.views };

    ghost invariant = { λ f. (f.badge.table_id ≡ J.table) × (f.badge.views ≡ view_in f.badge.views ∷ []) × (view_in f.badge.views ≡ thread_log (view_in f.badge.views).by (view_in f.badge.views).seen (view_in f.badge.views).mine) × J.lawful (view_in f.badge.views).seen × (own (view_in f.badge.views).by (view_in f.badge.views).seen ≡ (view_in f.badge.views).mine) };
}

impl<E> Opened<E> {
    /// An empty history.
    pub fn new(alloc: Global) -> Result<Opened<E>, AllocError> {
        let (table, seat) = Table::of_words(alloc, &[0], &())?;
        Ok(Opened { table, seat })
    }

    /// The history with a name, and its whole log.
    pub fn named<J: Naming<E>>(self) -> (History<E, J>, WholeLog<E, J>)
        requires name { self.table.shared.table_id ≡ J.table }
        requires lawful { J.lawful [] }
        ensures log { result.1.log ≡ [] }
        ensures given { result.1.given ≡ 0 }
    {
        let Opened { table, seat } = self;
        (
            History {
                table,
                of: PhantomData,
            },
            WholeLog {
                badge: seat.into_badge(),
                of: PhantomData,
            },
        )
    }
}

// Takes the token out of a badge, which becomes blank.
fn taken_out<E>(badge: &mut Badge<View<E>>) -> Seat<u64, View<E>>
    requires { badge.old.views ≡ view_in badge.old.views ∷ [] }
    ensures table { result.table_id ≡ badge.old.table_id }
    ensures view { result.me ≡ (view_in badge.old.views, []) }
{
    mem::replace(badge, Badge::blank()).into_seat::<u64>()
}

// Brings the whole log and that of a thread together.
fn meet<E>(
    shared: &Shared<u64, View<E>, (), Grows>,
    seat: &mut Seat<u64, View<E>>,
    own: Seat<u64, View<E>>,
)
    requires whole_log { seat.old.table_id ≡ shared.now.table_id }
    requires thread { own.table_id ≡ shared.now.table_id }
    requires words { 0 < shared.now.table_id.words }
    requires slots { own.me.1 ≡ [] }
    ensures table { seat.new.table_id ≡ seat.old.table_id }
    ensures view { seat.new.me ≡ (both seat.old.me.0 own.me.0, seat.old.me.1) }
{
    shared.join_seat::<Meets>(seat, own);
}

// The step in which the two add an entry.
fn add<E, A: Added<E>>(
    shared: &Shared<u64, View<E>, (), Grows>,
    seat: &mut Seat<u64, View<E>>,
    entry: &E,
)
    requires entry { A.entries ≡ entry.now ∷ [] }
    requires table { seat.old.table_id ≡ shared.now.table_id }
    requires words { 0 < shared.now.table_id.words }
    requires both { (seat.old.me.0.keeps ≡ true) × (seat.old.me.0.signs ≡ true) }
    ensures table { seat.new.table_id ≡ seat.old.table_id }
    ensures slots { seat.new.me.1 ≡ seat.old.me.1 }
    ensures extends { Extends (entry.now ∷ []) seat.old.me.0 seat.new.me.0 }
{
    let _ = entry;
    shared.load::<Adds<A>>(seat, 0);
}

// The step in which the two add nothing.
fn look<E>(shared: &Shared<u64, View<E>, (), Grows>, seat: &mut Seat<u64, View<E>>)
    requires table { seat.old.table_id ≡ shared.now.table_id }
    requires words { 0 < shared.now.table_id.words }
    requires both { (seat.old.me.0.keeps ≡ true) × (seat.old.me.0.signs ≡ true) }
    ensures table { seat.new.table_id ≡ seat.old.table_id }
    ensures slots { seat.new.me.1 ≡ seat.old.me.1 }
    ensures extends { Extends [] seat.old.me.0 seat.new.me.0 }
{
    shared.load::<Adds<Brand>>(seat, 0);
}

// Separates the two again.
fn part<E>(
    shared: &Shared<u64, View<E>, (), Grows>,
    seat: &mut Seat<u64, View<E>>,
) -> Seat<u64, View<E>>
    requires table { seat.old.table_id ≡ shared.now.table_id }
    requires words { 0 < shared.now.table_id.words }
    requires both { (seat.old.me.0.keeps ≡ true) × (seat.old.me.0.signs ≡ true) }
    ensures tables { (seat.new.table_id ≡ seat.old.table_id) × (result.table_id ≡ seat.old.table_id) }
    ensures whole_log { seat.new.me ≡ (whole_log seat.old.me.0.log seat.old.me.0.given, seat.old.me.1) }
    ensures thread { result.me ≡ (thread_log seat.old.me.0.by seat.old.me.0.seen seat.old.me.0.mine, []) }
{
    shared.split_seat::<Meets>(seat)
}

// One more thread gets the next index.
fn enter<E>(
    shared: &Shared<u64, View<E>, (), Grows>,
    seat: &mut Seat<u64, View<E>>,
) -> Seat<u64, View<E>>
    requires table { seat.old.table_id ≡ shared.now.table_id }
    requires words { 0 < shared.now.table_id.words }
    requires keeps { seat.old.me.0.keeps ≡ true }
    ensures tables { (seat.new.table_id ≡ seat.old.table_id) × (result.table_id ≡ seat.old.table_id) }
    ensures whole_log { seat.new.me ≡ (whole_log seat.old.me.0.log (seat.old.me.0.given + 1), seat.old.me.1) }
    ensures thread { result.me ≡ (thread_log seat.old.me.0.given seat.old.me.0.log [], []) }
{
    shared.split_seat::<Enters>(seat)
}

impl<E, J: Naming<E>> History<E, J> {
    /// One more thread, with the next index. It knows everything that happened, and has done nothing.
    pub fn enter(&self, whole_log: &mut WholeLog<E, J>) -> ThreadLog<E, J>
        ensures whole_log { (whole_log.new.log ≡ whole_log.old.log) × (whole_log.new.given ≡ whole_log.old.given + 1) }
        ensures thread { result ≡ thread_log whole_log.old.given whole_log.old.log [] }
    {
        let mut seat = taken_out(&mut whole_log.badge);
        let own = enter(&self.table.shared, &mut seat);
        whole_log.badge = seat.into_badge();
        ThreadLog {
            badge: own.into_badge(),
            of: PhantomData,
        }
    }

    /// Adds an entry to the history, with the thread's index.
    pub fn record(&self, whole_log: &mut WholeLog<E, J>, me: &mut ThreadLog<E, J>, entry: &E)
        requires lawful { J.lawful (whole_log.old.log ++ (me.old.by, entry.now) ∷ []) }
        ensures log { whole_log.new.log ≡ whole_log.old.log ++ (me.old.by, entry.now) ∷ [] }
        ensures given { whole_log.new.given ≡ whole_log.old.given }
        ensures thread { me.new ≡ thread_log me.old.by (whole_log.old.log ++ (me.old.by, entry.now) ∷ []) (me.old.mine ++ entry.now ∷ []) }
        ensures begins { IsPrefix me.old.seen whole_log.old.log }
    {
        let mut seat = taken_out(&mut whole_log.badge);
        let own = taken_out(&mut me.badge);
        meet(&self.table.shared, &mut seat, own);
        add::<E, Brand>(&self.table.shared, &mut seat, entry);
        let own = part(&self.table.shared, &mut seat);
        whole_log.badge = seat.into_badge();
        me.badge = own.into_badge();
    }

    /// Makes the thread know the whole history, and adds nothing.
    pub fn observe(&self, whole_log: &mut WholeLog<E, J>, me: &mut ThreadLog<E, J>)
        ensures whole_log { whole_log.new ≡ whole_log.old }
        ensures thread { me.new ≡ thread_log me.old.by whole_log.old.log me.old.mine }
        ensures begins { IsPrefix me.old.seen whole_log.old.log }
    {
        let mut seat = taken_out(&mut whole_log.badge);
        let own = taken_out(&mut me.badge);
        meet(&self.table.shared, &mut seat, own);
        look(&self.table.shared, &mut seat);
        let own = part(&self.table.shared, &mut seat);
        whole_log.badge = seat.into_badge();
        me.badge = own.into_badge();
    }

    /// What one of two threads knows is a prefix of what the other knows. No program calls it: it says that all threads have one order.
    pub fn compare(
        &self,
        whole_log: &mut WholeLog<E, J>,
        one: &mut ThreadLog<E, J>,
        other: &mut ThreadLog<E, J>,
    )
        ensures order { IsPrefix one.old.seen other.old.seen ⊎ IsPrefix other.old.seen one.old.seen }
        ensures whole_log { whole_log.new ≡ whole_log.old }
        ensures one { one.new ≡ thread_log one.old.by whole_log.old.log one.old.mine }
        ensures other { other.new ≡ thread_log other.old.by whole_log.old.log other.old.mine }
    {
        self.observe(whole_log, one);
        self.observe(whole_log, other);
    }
}

impl<E, J: Naming<E>> WholeLog<E, J> {
    /// For the prover: the whole log is lawful, and has no entry of an index that was not given out yet. It does
    /// nothing.
    pub fn attest(&self)
        ensures lawful { J.lawful self.now.log }
        ensures fresh { IsFresh self.now }
    {
        let _badge = &self.badge;
    }
}

impl<E, J: Naming<E>> ThreadLog<E, J> {
    /// For the prover: what the thread knows is lawful, and its entries with the thread's index are exactly those that
    /// the thread made. It does nothing.
    pub fn attest(&self)
        ensures lawful { J.lawful self.now.seen }
        ensures own { own self.now.by self.now.seen ≡ self.now.mine }
        ensures thread_log { self.now ≡ thread_log self.now.by self.now.seen self.now.mine }
    {
        let _badge = &self.badge;
    }
}
