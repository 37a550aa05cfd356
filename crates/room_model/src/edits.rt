//! The edits in a reply.
ghost use Rattle.std.specs.Prelude.{◌≡◌};

use opid::Edit;
use std::marker::Model;

/// Edits in order, seen by contracts as their list.
#[derive(Debug, Drop)]
pub struct Edits {
    items: Vec<Edit>,
}

impl Model for Edits {
    ghost use Rattle.std.specs.Prelude.{List};
    ghost use Rattle.opid.specs.declared.edit.Edit.{Edit};

    ghost Value = { List Edit };

    ghost view = { λ e. e.items.items };
}

impl Edits {
    /// The edits of a vector. Constant time; takes no memory.
    pub fn new(items: Vec<Edit>) -> Self
        ensures { result ≡ items.items }
    {
        Edits { items }
    }

    /// The edits in order. Constant time.
    pub fn as_slice(&self) -> &[Edit]
        ensures { result.now ≡ self.now }
    {
        &self.items
    }

    /// The vector of the edits. Constant time; takes no memory.
    pub fn into_vec(self) -> Vec<Edit>
        ensures { result.items ≡ self }
    {
        let Edits { items } = self;
        items
    }
}
