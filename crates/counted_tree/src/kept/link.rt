//! A link to a node as it is kept in a node or a root: in 22 bits.
ghost use Rattle.std.specs.Prelude.{◌≡◌, ◌+◌, ◌^◌, ◌<◌};
ghost use Rattle.std.specs.Option.{ForSome};
ghost use Rattle.counted_tree.specs.Internal.Link.{link_of};

/// The number that a link is kept as. None is kept as 0, and each node's number as the one after it.
pub fn kept_of(link: Option<u32>) -> u32
    requires { ForSome link (λ k. k + 1 < 2 ^ 22) }
    ensures link { link_of result ≡ link }
    ensures small { result < 2 ^ 22 }
{
    match link {
        None => 0,
        Some(k) => k + 1,
    }
}

/// The link that is kept as a number.
pub fn link_of(kept: u32) -> Option<u32>
    ensures { result ≡ link_of kept }
{
    if kept == 0 { None } else { Some(kept - 1) }
}
