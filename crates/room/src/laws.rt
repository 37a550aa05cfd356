//! What holds of the definitions: each law is the contract of a function that does nothing, so that it is proved with the crate.
//! By these one concludes from a history what `Room::{call, run}` say of a room.
ghost use Rattle.std.specs.Prelude.{ℕ, ◌<◌, ◌≤◌, List, length};
ghost use Rattle.std.specs.List.{AllByRecursion};
ghost use Rattle.opid.specs.Operations.{Operation};
ghost use Rattle.opid.specs.Lawful.{IsLawful};
ghost use Rattle.room_model.specs.declared.call.Call.{Call};
ghost use Rattle.room_model.specs.Machine.{room_over};
ghost use Rattle.room_model.specs.History.{Account, IsLegal, HandsOperations, replayed, IsConsistent, PlacesInsertion};
ghost use Rattle.room_model.specs.Convergence.{EditorsConverge, EditorsKeepUp};
ghost use Rattle.room_model.specs.Intention.{KeepsIntentions, OnlyGrows};

use opid::{MAX_OPERATIONS, SITES};

/// A legal history over a lawful log makes a consistent room, whatever its calls are; and in each consistent room editors that play
/// the replies of their sessions read what the room reads and keep up with it, an insertion that is accepted stands where it was asked for,
/// what they asked for stays there, and the log only grows.
#[tactic(auto, using(crate::proofs::Rooms::of_rooms))]
pub fn rooms_keep_their_promises()
    ensures consistent { (site : ℕ) (log : List Operation) (history : List (ℕ × Call)) → site < SITES → IsLawful log
        → length log ≤ MAX_OPERATIONS → IsLegal history → AllByRecursion (λ e. HandsOperations e.1) history
        → IsConsistent (replayed (room_over site log) history) }
    ensures editors_converge { (room : Account) → IsConsistent room → EditorsConverge room }
    ensures editors_keep_up { (room : Account) → IsConsistent room → EditorsKeepUp room }
    ensures placed { (room : Account) → (call : Call) → IsConsistent room → PlacesInsertion room.state call }
    ensures keeps_intentions { (room : Account) → IsConsistent room → KeepsIntentions room }
    ensures only_grows { (room : Account) → IsConsistent room → OnlyGrows room }
{}
