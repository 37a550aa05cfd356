//! What an operation does to the document.

use crate::stamp::Stamp;

/// An insertion of one character after `parent` (`None`: at the head), or a deletion of the element with
/// the stamp `target`. (Roh and others 2011.)
#[derive(Clone, Copy, Debug, PartialEq, Eq)]
pub enum OpKind {
    Ins { parent: Option<Stamp>, ch: char },
    Del { target: Stamp },
}
