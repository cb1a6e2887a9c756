//! What is kept of the requests of a connection that aren't done, by number.

ghost use Rattle.std.specs.Prelude.{◌≡◌, ℕ, ◌+◌, ◌<◌, ◌≤◌, OnOk, MatchOption, None, [], length};

use crate::connection_request::ConnectionRequest;
use crate::spares::Spares;
use dns_name::OutOfMemory;
use std::alloc::Global;
use std::collections::{BTreeMap, VecDeque};
use std::ops::Bound;

/// What is kept of the requests of a connection that aren't done: how many requests were made; a row of those of the last numbers,
/// without a gap; and, of those before the row, the ones that were passed by, since one after them was done before them. Messages of
/// those that are done are kept for the next ones.
#[derive(Drop)]
pub struct Unfinished<Q> {
    pub(crate) count: u64,
    pub(crate) row: VecDeque<Q>,
    pub(crate) passed: BTreeMap<u64, Q>,
    pub(crate) spares: Spares,
}

impl<Q> Unfinished<Q> {
    ghost use Rattle.dns_session.specs.Unfinished.{IsFirstFrom, IsInOrder, request_at, row_start};

    /// A row without requests.
    pub fn new(alloc: Global) -> Self
        ensures count { result.count ≡ 0 }
        ensures nothing { (k : ℕ) → request_at result k ≡ None }
        ensures in_order { IsInOrder result }
    {
        Unfinished {
            count: 0,
            row: VecDeque::new(alloc),
            passed: BTreeMap::new(alloc),
            spares: Spares::new(alloc),
        }
    }

    /// How many requests were made.
    pub fn count(&self) -> u64
        ensures { result ≡ self.now.count }
    {
        self.count
    }

    /// The number at which the row starts.
    pub(crate) fn row_start(&self) -> u64
        ensures { result ≡ row_start self.now }
    {
        self.count.saturating_sub(self.row.len() as u64)
    }

    /// The number of the first request of the row.
    fn first_of_row(&self) -> Option<u64>
        ensures { MatchOption result (self.now.row.items ≡ []) (λ n. (n ≡ row_start self.now) × (1 ≤ length self.now.row.items)) }
    {
        if self.row.is_empty() {
            return None;
        }
        Some(self.row_start())
    }

    /// The number of the first request.
    pub fn first(&self) -> Option<u64>
        ensures { IsInOrder self.now → IsFirstFrom 0 (request_at self.now) result }
    {
        match self.passed.first_key_value() {
            Some((number, _)) => Some(*number),
            None => self.first_of_row(),
        }
    }

    /// The number of the first request after the one of a number that is before the row.
    fn next_passed(&self, request: u64) -> Option<u64>
        requires { request < row_start self.now }
        ensures { IsInOrder self.now → IsFirstFrom (request + 1) (request_at self.now) result }
    {
        if self.passed.is_empty() {
            return self.first_of_row();
        }
        let behind = (Bound::Excluded(request), Bound::Unbounded);
        match self.passed.range(behind).next() {
            Some((number, _)) => Some(*number),
            None => self.first_of_row(),
        }
    }

    /// The number of the first request after the one of a number.
    pub fn next(&self, request: u64) -> Option<u64>
        ensures { IsInOrder self.now → IsFirstFrom (request + 1) (request_at self.now) result }
    {
        if request < self.row_start() {
            return self.next_passed(request);
        }
        if request >= self.count {
            return None;
        }
        let next = request + 1;
        if next >= self.count {
            return None;
        }
        Some(next)
    }
}

impl<Q: Drop> Unfinished<Q> {
    ghost use Rattle.dns_session.specs.Unfinished.{Enters, PassesBy};

    /// Enters a request under the next number.
    pub fn enter(&mut self, kept: Q) -> Result<(), OutOfMemory>
        requires { self.old.count < 18446744073709551615 }
        ensures { OnOk result (Enters self.old kept self.new) }
    {
        self.row.push_back(kept)?;
        self.count += 1;
        Ok(())
    }

    /// The first one of the row is passed by.
    fn pass_first(&mut self) -> Result<(), OutOfMemory>
        requires { 1 ≤ length self.old.row.items }
        ensures { OnOk result (PassesBy self.old 1 self.new) }
    {
        let number = self.row_start();
        match self.row.pop_front() {
            Some(kept) => {
                self.passed.insert(number, kept)?;
                Ok(())
            }
            None => Ok(()),
        }
    }

    /// Takes the entries before a place out of the row. Requests stay under their numbers.
    fn pass_before(&mut self, place: usize) -> Result<(), OutOfMemory>
        requires { place ≤ length self.old.row.items }
        ensures { OnOk result (PassesBy self.old place self.new) }
    {
        for _one in 0..place {
            self.pass_first()?;
        }
        Ok(())
    }
}

impl<F: Drop, R: Drop> Unfinished<ConnectionRequest<F, R>> {
    ghost use Rattle.dns_session.specs.Unfinished.{LetsGo, row_start};

    /// Lets go of the request at a place of the row, which is done.
    pub(crate) fn let_go(&mut self, place: usize) -> Result<(), OutOfMemory>
        requires { place < length self.old.row.items }
        ensures { OnOk result (LetsGo self.old (row_start self.old + place) self.new) }
    {
        self.pass_before(place)?;
        let done = self.row.pop_front();
        self.spares.keep(done);
        Ok(())
    }
}
