//! Elements in a vector, linked in their order by numbers: the walk, and the link of a new element.
ghost use Rattle.std.specs.Prelude.{◌≡◌, ◌<◌, ◌≤◌, ◌+◌, ℕ, length, IfSome, vec_len, vec_capacity};
ghost use Rattle.std.specs.Option.{ForSome};
ghost use Rattle.rga_list.specs.Internal.Links.{Ends, Walked, following, put_in, first_then};

use crate::packed_node::PackedNode;
use opid::{MAX_OPERATIONS, Stamp};

/// An element: how many elements came before it.
pub type Elem = u32;

/// An element, and the one after it in the linked order.
#[derive(Clone, Copy, Debug)]
pub struct Node {
    pub stamp: Stamp,
    pub ch: char,
    pub shown: bool,
    pub next: Option<Elem>,
}

/// The element after this one (`None`: the first).
pub fn after(nodes: &[PackedNode], first: Option<Elem>, before: Option<Elem>) -> Option<Elem>
    requires { IfSome before (λ k. k < length nodes.now) }
    ensures { result ≡ following nodes.now first before }
{
    match before {
        None => first,
        Some(elem) => nodes[elem as usize].get().next,
    }
}

/// From `at`, which comes after `before`, past every greater stamp: the last element passed. Takes a step for each
/// element passed.
pub fn walk(
    nodes: &[PackedNode],
    before: Option<Elem>,
    at: Option<Elem>,
    stamp: &Stamp,
) -> Option<Elem>
    requires { Ends nodes.now at }
    ensures { Walked nodes.now stamp.now before at result }
{
    let mut last = before;
    let mut next = at;
    while let Some(elem) = next {
        let node = nodes[elem as usize].get();
        if !(*stamp < node.stamp) {
            return last;
        }
        last = next;
        next = node.next;
    }
    last
}

/// Adds a node, which names the element after it already, and links it behind `last` (`None`: at the head).
/// Constant time; takes no memory.
pub fn link(nodes: &mut Vec<PackedNode>, first: &mut Option<Elem>, node: Node, last: Option<Elem>)
    requires reserved { vec_len nodes.old < vec_capacity nodes.old }
    requires few { vec_len nodes.old < MAX_OPERATIONS }
    requires next { ForSome node.next (λ k. k < MAX_OPERATIONS) }
    requires within { IfSome last (λ k. k < vec_len nodes.old) }
    ensures nodes { nodes.new.items ≡ put_in nodes.old.items node last }
    ensures first { first.new ≡ first_then nodes.old.items first.old last }
    ensures len { vec_len nodes.new ≡ vec_len nodes.old + 1 }
    ensures capacity { vec_capacity nodes.old ≤ vec_capacity nodes.new }
{
    let elem = nodes.len() as Elem;
    nodes.push(PackedNode::new(node)).unwrap();
    match last {
        None => *first = Some(elem),
        Some(last) => {
            let before = &mut nodes[last as usize];
            before.set_next(elem);
        }
    }
}
