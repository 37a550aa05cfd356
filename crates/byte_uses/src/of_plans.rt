//! A plan that is asked for.
ghost use Rattle.std.specs.Prelude.{◌≡◌, IfSome};
ghost use Rattle.plans.specs.declared.plan.Plan.TheVariants as plans;

use plans::{Plan, Sites};

/// The plan to play a script over a world of so many sites, if there may be so many.
pub fn world_of(count: u8) -> Option<Plan>
    ensures { IfSome result (λ plan. plan ≡ plans.World count) }
{
    let sites = Sites::new(count)?;
    Some(Plan::World { sites })
}
