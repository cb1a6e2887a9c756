//! What a seat knows of a book's history. These types stand in clauses alone: no value of them is
//! made when the program runs.

use dns_admission::{Call, Look, Reply};
use std::collections::LinkedList;

/// One call in the history, with the name of the seat that made it. No value of it is made.
pub struct Entry {
    pub by: LinkedList<bool>,
    pub call: Call,
    pub reply: Reply,
}

/// The calls that were made under one name. No value of it is made.
pub struct Share {
    pub name: LinkedList<bool>,
    pub calls: LinkedList<Entry>,
}

/// What a seat knows: the state that the book began with and the seat's name. Then the history as far as the seat has seen it, and
/// the calls kept by name. No value of it is made.
pub struct Known {
    pub opening: Look,
    pub name: LinkedList<bool>,
    pub seen: LinkedList<Entry>,
    pub mine: LinkedList<Share>,
}
