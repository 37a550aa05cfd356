//! The outcomes in a reply.
ghost use Rattle.std.specs.Prelude.{◌≡◌};

use crate::outcome::Outcome;
use std::marker::Model;

/// Outcomes in order, seen by contracts as their list.
#[derive(Debug, Drop)]
pub struct Outcomes {
    items: Vec<Outcome>,
}

impl Model for Outcomes {
    ghost use Rattle.std.specs.Prelude.{List};
    ghost use Rattle.room_model.specs.declared.outcome.Outcome.{Outcome};

    ghost Value = { List Outcome };

    ghost view = { λ o. o.items.items };
}

impl Outcomes {
    /// The outcomes of a vector. Constant time; takes no memory.
    pub fn new(items: Vec<Outcome>) -> Self
        ensures { result ≡ items.items }
    {
        Outcomes { items }
    }

    /// The outcomes in order. Constant time.
    pub fn as_slice(&self) -> &[Outcome]
        ensures { result.now ≡ self.now }
    {
        &self.items
    }

    /// The vector of the outcomes. Constant time; takes no memory.
    pub fn into_vec(self) -> Vec<Outcome>
        ensures { result.items ≡ self }
    {
        let Outcomes { items } = self;
        items
    }
}
