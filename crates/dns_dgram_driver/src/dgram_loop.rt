//! What the loop of datagrams works in.

use crate::running::Running;
use crate::spare::Spare;
use dns_book::Book;
use dns_recorder::Waits;
use dns_service::SharedService;
use std::alloc::Global;

/// What datagrams are served with, where what is kept of them stands, and how many waits ended in vain since one came or was sent.
/// After it the memory that is used again.
#[derive(Drop)]
pub(crate) struct DgramLoop<'a, R, W: SharedService, D, C, J> {
    pub(crate) rt: &'a R,
    pub(crate) alloc: Global,
    pub(crate) book: &'a Book,
    pub(crate) service: &'a W,
    pub(crate) sock: &'a mut D,
    pub(crate) clock: &'a mut C,
    pub(crate) journal: &'a mut J,
    pub(crate) state: &'a mut Running<W>,
    pub(crate) waits: Waits,
    pub(crate) spare: &'a mut Spare,
}
