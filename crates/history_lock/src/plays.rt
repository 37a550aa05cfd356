//! The lock's rule, and what each of its steps tells. These types are for the proofs alone; their meaning stands in
//! specs/.
ghost use Rattle.history_lock.specs.Sights.{opened, spent, kept_draws, given_draws, joined};
ghost use Rattle.history_lock.specs.Internal.Lock.{Lock};
ghost use Rattle.history_lock.specs.Internal.Steps.{draws_ticket, looks, leaves, peeks, tries, learns};
ghost use Rattle.std.specs.Prelude.{ℕ, ◌^◌, length};

use crate::pass::Sight;
use crate::trailed::Trailed;
use atomic_table::{Join, Play, Split, TableRule};
use std::marker::{Brand, PhantomData};
use std::snapshot::Snapshot;

/// The rule of the lock.
pub struct Served;

impl<T: Trailed> TableRule<Option<T>, Sight<T::Entry>, Snapshot<T>> for Served {
    ghost holds = { λ about. Lock T.trail T.mark (length (T.trail about.value)) };

    ghost first = { λ about. opened (2 ^ 62) (T.trail about.value) };
}

// Step 1.
pub(crate) struct Draws;

impl<T: Trailed> Play<Option<T>, Sight<T::Entry>> for Draws {
    ghost then = { draws_ticket T.trail T.mark };
}

// Steps 2 and 3.
pub(crate) struct Looks;

impl<T: Trailed> Play<Option<T>, Sight<T::Entry>> for Looks {
    ghost then = { looks T.trail T.mark };
}

// Step 4.
pub(crate) struct Leaves;

impl<T: Trailed> Play<Option<T>, Sight<T::Entry>> for Leaves {
    ghost then = { leaves T.trail T.mark };
}

// Step 5.
pub(crate) struct Peeks;

impl<T: Trailed> Play<Option<T>, Sight<T::Entry>> for Peeks {
    ghost then = { peeks T.trail T.mark };
}

// Steps 6 and 7.
pub(crate) struct Tries;

impl<T: Trailed> Play<Option<T>, Sight<T::Entry>> for Tries {
    ghost then = { tries T.trail T.mark };
}

// The load that ends a join, none of the seven.
pub(crate) struct Learns;

impl<T: Trailed> Play<Option<T>, Sight<T::Entry>> for Learns {
    ghost then = { learns T.trail T.mark };
}

/// How many draws a split hands over. The call picks it.
pub(crate) trait Amount {
    ghost amount: { ℕ };
}

impl Amount for Brand {
    ghost amount = { 0 };
}

// A split of so many draws.
pub(crate) struct Hands<N> {
    amount: PhantomData<N>,
}

impl<E, N: Amount> Split<Sight<E>> for Hands<N> {
    ghost left = { kept_draws N.amount };

    ghost right = { given_draws N.amount };
}

// A join.
pub(crate) struct Takes;

impl<E> Join<Sight<E>> for Takes {
    ghost both = { joined };

    ghost spent = { spent };
}
