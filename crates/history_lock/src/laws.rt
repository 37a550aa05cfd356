//! What holds of all that passes know, whatever they did: each law is the contract of a function that does nothing,
//! so that it is proved with the crate.
ghost use Rattle.std.specs.Prelude.{◌≡◌, ℕ, ◌+◌, List};
ghost use Rattle.history_lock.specs.declared.pass.Sight.{Sight};
ghost use Rattle.history_lock.specs.Told.{Finds};
ghost use Rattle.history_lock.specs.Turns.{LeftFor, Grows};

use crate::trailed::Trailed;

/// What a pass knows of the turns it knows for good.
pub fn what_was_left_stays<T: Trailed>()
    ensures stays { (v w : Sight T.Entry) (n : ℕ) (trail : List T.Entry) → Grows v w → LeftFor v n trail → LeftFor w n trail }
    ensures grows { (u v w : Sight T.Entry) → Grows u v → Grows v w → Grows u w }
{}

/// Each turn begins with one trail: two passes that knew of one for the turn, and whose knowledge went into one pass
/// since, knew of the same.
pub fn one_trail_for_each_turn<T: Trailed>()
    ensures { (u v w : Sight T.Entry) (n : ℕ) (s t : List T.Entry) → Grows v u → Grows w u → LeftFor v n s → LeftFor w n t → s ≡ t }
{}

/// A turn finds just the trail that the turn before it left, whichever passes took them. It is told where what both
/// passes know has gone into one.
pub fn the_next_turn_finds_what_was_left<T: Trailed>()
    ensures { (before after left both : Sight T.Entry) (n : ℕ) (trail : List T.Entry) (x : T)
        → LeftFor left (n + 1) trail → Finds T.trail T.mark before after (n + 1) x
        → Grows left both → Grows after both → T.trail x ≡ trail }
{}
