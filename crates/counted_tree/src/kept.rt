//! Nodes, roots and the newest tree's table, as they are and as they are kept.
pub(crate) mod above;
pub(crate) mod build;
pub(crate) mod link;
pub(crate) mod node;
pub(crate) mod nodes;
pub(crate) mod packed_node;
pub(crate) mod packed_root;
pub(crate) mod packed_row;
pub(crate) mod root;
pub(crate) mod row;
pub(crate) mod side;
