//! An element put before another one, and where each version has it.
ghost use Rattle.std.specs.Prelude.{◌≡◌, IfOk, Some};

use counted_tree::{Steps, VersionTree};
use std::alloc::{AllocError, Global};

/// The first element of version 1, and that of version 2, where another one was put before it.
pub fn firsts(alloc: Global, steps: &mut Steps) -> Result<(Option<u32>, Option<u32>), AllocError>
    ensures { IfOk result (λ r. (r.0 ≡ Some 0) × (r.1 ≡ Some 1)) }
{
    let mut tree = VersionTree::new(alloc);
    tree.reserve(2)?;
    tree.insert_after(None, 0, 1, false, steps);
    tree.insert_after(None, 1, 2, false, steps);
    Ok((tree.find(1, 0, steps), tree.find(2, 0, steps)))
}
