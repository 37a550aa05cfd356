//! The operations in a call or a reply.
ghost use Rattle.std.specs.Prelude.{◌≡◌};

use causal_clock::Op;
use std::alloc::AllocError;
use std::marker::Model;

/// Operations in order, seen by contracts as their list.
#[derive(Debug, Drop)]
pub struct Operations {
    items: Vec<Op>,
}

impl Model for Operations {
    ghost use Rattle.std.specs.Prelude.{List};
    ghost use Rattle.opid.specs.Operations.{Operation};

    ghost Value = { List Operation };

    ghost view = { λ o. o.items.items };
}

impl Clone for Operations {
    ghost is_clone = { λ s t. t ≡ s };

    /// The same operations once more. Takes a step for each, and memory, some 160 bytes each.
    fn clone(&self) -> Result<Operations, AllocError> {
        Ok(Operations {
            items: self.items.clone()?,
        })
    }
}

impl Operations {
    /// The operations of a vector. Constant time; takes no memory.
    pub fn new(items: Vec<Op>) -> Self
        ensures { result ≡ items.items }
    {
        Operations { items }
    }

    /// The operations in order. Constant time.
    pub fn as_slice(&self) -> &[Op]
        ensures { result.now ≡ self.now }
    {
        &self.items
    }

    /// The vector of the operations. Constant time; takes no memory.
    pub fn into_vec(self) -> Vec<Op>
        ensures { result.items ≡ self }
    {
        let Operations { items } = self;
        items
    }
}
