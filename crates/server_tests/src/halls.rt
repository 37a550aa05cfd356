//! What the tests of connections share: a hall, and a gate that lets everything pass.
ghost use Rattle.std.specs.Prelude.{IfOk};
ghost use Rattle.ws_server.specs.Halls.{IsHallPassOf};

use opid::Site;
use std::alloc::{AllocError, Global};
use ws_server::{Gate, Hall, HallPass};

// A hall of site 0 with rooms of these names.
pub(crate) fn hall_of(alloc: Global, names: &[&str]) -> Result<(Hall, HallPass), AllocError>
    ensures { IfOk result (λ r. IsHallPassOf r.0 r.1) }
{
    let Ok(site) = Site::new(0) else {
        return Err(AllocError);
    };
    let mut owned = Vec::new(alloc);
    for name in names {
        owned.push(String::from_str(alloc, name)?)?;
    }
    match Hall::new(alloc, site, &owned) {
        Ok(made) => Ok(made),
        Err(_) => Err(AllocError),
    }
}

// A gate that lets everything pass.
#[derive(Drop)]
pub(crate) struct Free;

impl Gate for Free {
    ghost told_before = { λ _ _ _. Unit {0} };

    ghost told_after = { λ _ _ _. Unit {0} };

    fn before(&mut self, _n: u64) {}

    fn after(&mut self, _n: u64) {}
}
