ghost use Rattle.std.specs.Prelude.{◌≡◌, ◌<◌, IfOk};
ghost use Rattle.std.specs.Coded.{Coded-set};
ghost use Rattle.atomic_table.specs.Seated.{table_id_coded};

use crate::{Change, Start};
use atomic_table::{Play, Seat, Table, TableRule};
use std::alloc::{AllocError, Global};
use std::marker::PhantomData;

// The rule of the table, which asks nothing.
struct Free<P> {
    of: PhantomData<P>,
}

impl<T, V, K, P: Start<V, K>> TableRule<T, V, K> for Free<P> {
    ghost holds = { λ _ _. Unit {0} };

    ghost first = { P.first };
}

// The step of a change, which is told a value.
struct Changed<M> {
    by: PhantomData<M>,
}

impl<T, V, M: Change<T, V>> Play<T, V> for Changed<M> {
    ghost use Rattle.std.specs.Prelude.{◌≡◌};
    ghost use Rattle.known.specs.Told.{when_told};

    ghost then = { λ st m r n. n.0 ≡ when_told M.after st.said m.0 };
}

/// Knowledge of type `V`, which changes that are told a `T` add to. It begins with what `P` says of
/// a `K`. A clause reads what is known as `seat.me.0`.
pub struct Known<T, V, K, P: Start<V, K>> {
    table: Table<T, V, K, Free<P>, Global>,
    pub seat: Seat<T, V>,
    ghost same: { seat.table_id ≡ table.shared.table_id } by { Coded-set table_id_coded _ _ },
    ghost word: { 0 < table.shared.table_id.words },
}

impl<T: Drop, V, K, P: Start<V, K>> Known<T, V, K, P> {
    /// Knows what there is to know at first. It takes the memory of one word.
    pub fn new(alloc: Global, about: &K) -> Result<Known<T, V, K, P>, AllocError>
        ensures { IfOk result (λ known. known.seat.me.0 ≡ P.first about.now) }
    {
        let (table, seat) = Table::of_words(alloc, &[0], about)?;
        Ok(Known { table, seat })
    }

    /// Knows what the change makes of it. It takes one step on a word that nobody else has.
    pub fn change<M: Change<T, V>>(&mut self, said: &T)
        ensures { self.new.seat.me.0 ≡ M.after said.now self.old.seat.me.0 }
    {
        let table = &self.table;
        table
            .shared
            .compare_exchange_with::<Changed<M>>(&mut self.seat, 0, 0, 0, said);
    }
}

impl<T: Drop, V, K, P: Start<V, K>> Drop for Known<T, V, K, P> {
    fn drop(self) {
        let Self { table: _, seat: _ } = self;
    }
}
