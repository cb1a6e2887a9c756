//! Connections are received, one by one.

ghost use Rattle.std.specs.Prelude.{◌≡◌, ◌≤◌, false, IfOk};
ghost use Rattle.std.specs.Arc.{arc_value};
ghost use Rattle.dns_io.specs.Causes.{Observed};
ghost use Rattle.dns_io.specs.AcceptTraffic.{AcceptMoves, AcceptCause};
ghost use Rattle.dns_io.specs.Starts.{StartMoves, StartCause};
ghost use Rattle.dns_book.specs.Seats.{first_half};
ghost use Rattle.dns_accepts.specs.Arrivals.{AskedOne, Brought, StartFaults, AcceptFaults, EndedSo, AcceptsRan, arrival_of};

use crate::accepts::AcceptEnd;
use crate::pre_connect::PreConnect;
use crate::taking::{Arrival, Tally, arrival_of};
use crate::work::ConnectionWork;
use dns_admission::Look;
use dns_book::{Admission, Book, BookSeat};
use dns_io::{AcceptAnswer, AsyncAccept, Clock, Link, Spawner, Start};
use dns_name::{OutOfMemory, SocketAddr};
use dns_service::SharedService;
use dns_stream_driver::{MAX_WAIT_MS, Silent};
use std::alloc::Global;
use std::sync::{Arc, Wait};
use std::thread::Threads;

/// How long the loop waits after an accept that failed, in ms.
const WAIT_AFTER_FAULT: u64 = 10;

/// What connections are received with. No call changes it.
#[derive(Drop)]
pub(crate) struct Acceptor<'a, R, C, W, H> {
    pub(crate) rt: &'a R,
    pub(crate) alloc: Global,
    pub(crate) book: &'a Arc<Book>,
    pub(crate) service: &'a Arc<W>,
    /// What the clock of each connection is made of.
    pub(crate) clock: &'a C,
    pub(crate) hook: &'a H,
}

/// A connection that came. Its number is that of the next client that is admitted.
#[derive(Drop)]
struct AcceptedConn<L> {
    client: u64,
    from: SocketAddr,
    link: L,
}

/// What a connection shares with all others, and a clock of its own.
#[derive(Drop)]
struct WorkerShares<C, W> {
    book: Arc<Book>,
    service: Arc<W>,
    clock: C,
}

impl<C, W: SharedService> WorkerShares<C, W> {
    /// The work of a connection that was admitted by a look that shows no shutdown.
    fn work<L>(
        self,
        seat: BookSeat,
        look: &Look,
        conn: AcceptedConn<L>,
    ) -> ConnectionWork<L, C, Silent, W>
        requires book { seat.book ≡ arc_value self.book }
        requires running { look.now.closed ≡ false }
        requires can_call { W.can_call (arc_value self.service) }
        ensures addr { result.addr ≡ conn.from }
        ensures seat { result.seat.book ≡ arc_value result.book }
        ensures running { result.look.closed ≡ false }
        ensures can_call { W.can_call (arc_value result.service) }
    {
        let WorkerShares {
            book,
            service,
            clock,
        } = self;
        let AcceptedConn { client, from, link } = conn;
        ConnectionWork::new(
            book,
            seat,
            client,
            from,
            *look,
            service,
            link,
            clock,
            Silent::new(),
        )
    }
}

/// What a connection shares with all others, once more.
fn clones<W>(book: &Arc<Book>, service: &Arc<W>) -> Result<(Arc<Book>, Arc<W>), OutOfMemory>
    ensures { IfOk result (λ s. (arc_value s.0 ≡ arc_value book.now) × (arc_value s.1 ≡ arc_value service.now)) }
{
    let book = Arc::try_clone(book)?;
    let service = Arc::try_clone(service)?;
    Ok((book, service))
}

/// Closes the link of a connection.
fn turn_away<L: Link + Drop>(mut conn: AcceptedConn<L>) {
    conn.link.close();
}

/// Gives the slot of an admitted connection back, and closes its link.
fn give_up<R: Wait, L: Link + Drop>(rt: &R, book: &Book, mut seat: BookSeat, conn: AcceptedConn<L>)
    requires { seat.book ≡ book.now }
{
    book.release(rt, &mut seat);
    turn_away(conn);
}

/// Makes one accept. If it brought no connection, it waits.
fn accept_or_wait<R: Wait, A: AsyncAccept>(rt: &R, accept: &mut A) -> AcceptAnswer<A::Link>
    ensures moves { Observed (A.tells accept.new) (A.tells accept.old)
        (AcceptMoves result (A.accept_traffic accept.old) (A.accept_traffic accept.new)) }
    ensures later { A.faults accept.old ≤ A.faults accept.new }
    ensures cause { AcceptCause result (A.faults accept.old) (A.faults accept.new) }
{
    match accept.poll_accept() {
        AcceptAnswer::Again => {
            accept.wait(rt, MAX_WAIT_MS);
            AcceptAnswer::Again
        }
        AcceptAnswer::Failed => {
            accept.wait(rt, WAIT_AFTER_FAULT);
            AcceptAnswer::Failed
        }
        accepted => accepted,
    }
}

impl<
    R: Threads + Wait + Copy + Send + 'static,
    C: Clock + Send + Drop + 'static,
    W: SharedService + Send + Sync + 'static,
    H,
> Acceptor<'_, R, C, W, H>
where
    W::Future: Send,
    W::Stream: Send,
{
    /// Takes the memory that the work of a connection needs.
    fn shares(&self) -> Result<WorkerShares<C, W>, OutOfMemory>
        ensures { IfOk result (λ s. (arc_value s.book ≡ arc_value self.now.book.now)
            × (arc_value s.service ≡ arc_value self.now.service.now)) }
    {
        match clones(self.book, self.service) {
            Ok((book, service)) => match self.clock.another(self.alloc) {
                Ok(clock) => Ok(WorkerShares {
                    book,
                    service,
                    clock,
                }),
                Err(error) => Err(error),
            },
            Err(error) => Err(error),
        }
    }

    /// The work of an admitted connection, with a seat of its own. If there is no memory for it, its slot is given back and
    /// the link closed.
    fn work_admitted<L: Link + Drop>(
        &self,
        seat: BookSeat,
        look: &Look,
        conn: AcceptedConn<L>,
    ) -> Result<ConnectionWork<L, C, Silent, W>, OutOfMemory>
        requires book { seat.book ≡ arc_value self.now.book.now }
        requires running { look.now.closed ≡ false }
        requires can_call { W.can_call (arc_value self.now.service.now) }
        ensures { IfOk result (λ w. (w.addr ≡ conn.from) × (w.seat.book ≡ arc_value w.book) × (w.look.closed ≡ false)
            × W.can_call (arc_value w.service)) }
    {
        match self.shares() {
            Ok(shares) => Ok(shares.work(seat, look, conn)),
            Err(error) => {
                give_up(self.rt, self.book, seat, conn);
                Err(error)
            }
        }
    }

    /// Gives an admitted connection to the spawner, as work with a seat of its own.
    fn start_admitted<L: Link + Send + Drop + 'static, P: Spawner<ConnectionWork<L, C, Silent, W>>>(
        &self,
        seat: BookSeat,
        look: &Look,
        conn: AcceptedConn<L>,
        spawner: &mut P,
    ) -> Result<Start, OutOfMemory>
        requires book { seat.book ≡ arc_value self.now.book.now }
        requires running { look.now.closed ≡ false }
        requires can_call { W.can_call (arc_value self.now.service.now) }
        ensures given { Observed (P.tells spawner.new) (P.tells spawner.old)
            (StartMoves result conn.from (P.given spawner.old) (P.given spawner.new)) }
        ensures later { P.faults spawner.old ≤ P.faults spawner.new }
        ensures cause { StartCause result (P.faults spawner.old) (P.faults spawner.new) }
    {
        match self.work_admitted(seat, look, conn) {
            Ok(work) => spawner.start(self.rt, self.alloc, work),
            Err(error) => Err(error),
        }
    }

    /// Serves an admitted connection by work of its own, with the second half of the seat.
    #[tactic(auto, using(crate::proofs::AdmissionOutcomes::cause_of_start))]
    fn serve_admitted<L: Link + Send + Drop + 'static, P: Spawner<ConnectionWork<L, C, Silent, W>>>(
        &self,
        seat: BookSeat,
        look: &Look,
        mut conn: AcceptedConn<L>,
        spawner: &mut P,
    ) -> (BookSeat, Result<Arrival, OutOfMemory>)
    where
        H: PreConnect<L>,
        requires book { seat.book ≡ arc_value self.now.book.now }
        requires running { look.now.closed ≡ false }
        requires can_call { W.can_call (arc_value self.now.service.now) }
        ensures half { result.0.known ≡ first_half seat.known }
        ensures same { result.0.book ≡ seat.book }
        ensures started { (started : _) × (result.1 ≡ arrival_of started)
            × Observed (P.tells spawner.new) (P.tells spawner.old)
            (StartMoves started conn.from (P.given spawner.old) (P.given spawner.new)) }
        ensures later { P.faults spawner.old ≤ P.faults spawner.new }
        ensures cause { StartFaults result.1 (P.faults spawner.old) (P.faults spawner.new) }
    {
        self.hook.call(&mut conn.link);
        let (first, second) = self.book.split(self.rt, seat);
        let started = self.start_admitted(second, look, conn, spawner);
        (first, arrival_of(started))
    }

    /// Asks the book for a slot. A connection that is admitted is served by work of its own, with the second half of the seat;
    /// every other one is closed.
    #[tactic(auto, using(crate::proofs::AdmissionOutcomes::asked_full, crate::proofs::AdmissionOutcomes::asked_closed))]
    fn take_connection<
        L: Link + Send + Drop + 'static,
        P: Spawner<ConnectionWork<L, C, Silent, W>>,
    >(
        &self,
        mut seat: BookSeat,
        conn: AcceptedConn<L>,
        spawner: &mut P,
    ) -> (BookSeat, Result<Arrival, OutOfMemory>)
    where
        H: PreConnect<L>,
        requires book { seat.book ≡ arc_value self.now.book.now }
        requires can_call { W.can_call (arc_value self.now.service.now) }
        ensures asked { AskedOne result.1 conn.from (P.tells spawner.new) (P.tells spawner.old) seat.known result.0.known
            (P.given spawner.old) (P.given spawner.new) }
        ensures same { result.0.book ≡ seat.book }
        ensures later { P.faults spawner.old ≤ P.faults spawner.new }
        ensures cause { StartFaults result.1 (P.faults spawner.old) (P.faults spawner.new) }
    {
        match self.book.admit(self.rt, &mut seat) {
            Admission::Admitted(look) => self.serve_admitted(seat, &look, conn, spawner),
            Admission::Full { .. } | Admission::Closed => {
                turn_away(conn);
                (seat, Ok(Arrival::TurnedAway))
            }
        }
    }

    /// Makes one accept. A connection that comes is taken; if none came, it waits. Then it joins threads whose work has ended, so
    /// that their stacks are free even if nothing can be accepted any more.
    fn accept_once<A: AsyncAccept, P: Spawner<ConnectionWork<A::Link, C, Silent, W>>>(
        &self,
        seat: BookSeat,
        client: u64,
        accept: &mut A,
        spawner: &mut P,
    ) -> (BookSeat, Result<Arrival, OutOfMemory>)
    where
        A::Link: Send + Drop + 'static,
        H: PreConnect<A::Link>,
        requires book { seat.book ≡ arc_value self.now.book.now }
        requires can_call { W.can_call (arc_value self.now.service.now) }
        ensures brought { Brought result.1 (A.tells accept.new × P.tells spawner.new)
            (A.tells accept.old × P.tells spawner.old) seat.known result.0.known
            (A.accept_traffic accept.old) (A.accept_traffic accept.new) (P.given spawner.old) (P.given spawner.new)
            (A.faults accept.old) (A.faults accept.new) }
        ensures same { result.0.book ≡ seat.book }
        ensures accepts { AcceptFaults result.1 (A.faults accept.old) (A.faults accept.new) }
        ensures accepts_later { A.faults accept.old ≤ A.faults accept.new }
        ensures starts { StartFaults result.1 (P.faults spawner.old) (P.faults spawner.new) }
        ensures starts_later { P.faults spawner.old ≤ P.faults spawner.new }
    {
        match accept_or_wait(self.rt, accept) {
            AcceptAnswer::Accepted(link, from) => {
                self.take_connection(seat, AcceptedConn { client, from, link }, spawner)
            }
            AcceptAnswer::Again => {
                spawner.join_ended(self.rt);
                (seat, Ok(Arrival::Nobody))
            }
            AcceptAnswer::Failed => {
                spawner.join_ended(self.rt);
                (seat, Ok(Arrival::Fault))
            }
        }
    }

    /// How the loop ends before an accept: that many connections came, or a look shows a shutdown.
    fn ended(&self, seat: &mut BookSeat, taken: u64, count: u64) -> Option<AcceptEnd>
        requires { seat.old.book ≡ arc_value self.now.book.now }
        ensures same { seat.new.book ≡ seat.old.book }
        ensures ended { EndedSo result count taken seat.old.known seat.new.known }
    {
        if count != 0 && taken == count {
            return Some(AcceptEnd::Counted);
        }
        if self.book.look(self.rt, seat).closed {
            return Some(AcceptEnd::Shutdown);
        }
        None
    }

    /// Accepts connections, and gives each that the book admits to the spawner as work. The answer's last part says whether an
    /// accept failed or a start was refused.
    #[tactic(auto, using(crate::proofs::Loops::so_far_none, crate::proofs::Loops::so_far_ended, crate::proofs::Loops::so_far_lost, crate::proofs::Loops::so_far_more, crate::proofs::Loops::rose_where_none, crate::proofs::Loops::rose_where_more, crate::proofs::Loops::rose_where_lost))]
    pub(crate) fn accept_all<A: AsyncAccept, P: Spawner<ConnectionWork<A::Link, C, Silent, W>>>(
        &self,
        mut seat: BookSeat,
        accept: &mut A,
        spawner: &mut P,
        count: u64,
    ) -> (BookSeat, AcceptEnd, bool)
    where
        A::Link: Send + Drop + 'static,
        H: PreConnect<A::Link>,
        requires book { seat.book ≡ arc_value self.now.book.now }
        requires can_call { W.can_call (arc_value self.now.service.now) }
        ensures ran { AcceptsRan A.tells A.accept_traffic A.faults P.tells P.given P.faults result.1 result.2 count seat.known
            result.0.known accept.old accept.new spawner.old spawner.new }
        ensures same { result.0.book ≡ seat.book }
    {
        let mut tally = Tally::new();
        for _ in self.rt.forever() {
            if let Some(end) = self.ended(&mut seat, tally.taken, count) {
                return (seat, end, tally.faulted);
            }
            let (next, arrival) = self.accept_once(seat, tally.client, accept, spawner);
            seat = next;
            let Ok(arrival) = arrival else {
                return (seat, AcceptEnd::OutOfMemory, tally.faulted);
            };
            tally.note(arrival);
        }
        unreachable!()
    }
}
