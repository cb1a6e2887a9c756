//! The cores by client number.

ghost use Rattle.dns_session.specs.Serving.{Serving, serving};
ghost use Rattle.std.specs.Prelude.{◌≡◌, ◌≢◌, ℕ, List, [], ◌∷◌, ◌++◌, IfOk, OnOk, OnErr, None, Some, true, nat_eq, if◌then◌else◌};
ghost use Rattle.std.specs.Ordering.{nat_cmp};
ghost use Rattle.std.specs.BTreeMap.{get, keys, IsOrdered};
ghost use Rattle.std.specs.BTreeSet.{contains};
ghost use Rattle.dns_service.specs.PolledRequest.{request_answer};
ghost use Rattle.dns_session.specs.Rule.{rule};
ghost use Rattle.dns_session.specs.Slate.{Slate};
ghost use Rattle.dns_session.specs.Spent.{is_spent};
ghost use Rattle.dns_session.specs.Stands.{Stands, GoesAs, state_is_spent};
ghost use Rattle.dns_session_map.specs.Serves.{IsAt, IsOver, LooksOne, LooksAll, Steps, StepsKey, EntersWith};

use dns_admission::Look;
use dns_service::{Event, OutOfMemory, Output, SharedService};
use dns_session::ClientCore;
use std::alloc::Global;
use std::collections::{BTreeMap, BTreeSet};

/// What a client is sent for an event, whether it is finished after it, and whether it gave its slot back.
#[derive(Drop)]
pub struct Stepped {
    pub outs: Vec<Output>,
    pub finished: bool,
    pub freed: bool,
}

/// One event of a client of which a core is kept.
fn step_core<W: SharedService>(
    alloc: Global,
    service: &W,
    core: &mut ClientCore<W>,
    event: &Event,
) -> Result<Stepped, OutOfMemory>
    requires { W.can_call service.now }
    ensures goes { IfOk result (λ p. GoesAs (request_answer W.Future.answer W.Stream.answer)
        (serving (W.answer service.now) (W.hint service.now)) core.old core.new p.outs.items
        (rule (serving (W.answer service.now) (W.hint service.now)) event.now)) }
    ensures over { IfOk result (λ p. (answers : Serving) (s : Slate)
        → Stands (request_answer W.Future.answer W.Stream.answer) answers core.new s → IsOver p.finished p.freed s) }
    ensures version { OnOk result (core.new.version ≡ core.old.version) }
{
    let outs = core.step(alloc, service, event)?;
    Ok(Stepped {
        outs,
        finished: core.is_spent(),
        freed: core.is_freed(),
    })
}

/// One event that a client hears.
fn step_there<W: SharedService>(
    alloc: Global,
    service: &W,
    clients: &mut BTreeMap<u64, ClientCore<W>>,
    client: u64,
    event: &Event,
) -> Result<Stepped, OutOfMemory>
    requires { W.can_call service.now }
    ensures here { IfOk result (λ p. Steps (request_answer W.Future.answer W.Stream.answer)
        (serving (W.answer service.now) (W.hint service.now))
        (get nat_cmp clients.old client) event.now p.outs.items p.finished p.freed (get nat_cmp clients.new client)) }
    ensures others { OnOk result ((c : ℕ) → c ≢ client → get nat_cmp clients.new c ≡ get nat_cmp clients.old c) }
    ensures same_keys { OnOk result (keys clients.new ≡ keys clients.old) }
    ensures version { OnOk result ((v : ℕ) → IsAt (get nat_cmp clients.old client) v → IsAt (get nat_cmp clients.new client) v) }
{
    match clients.get_mut(&client) {
        None => Ok(Stepped {
            outs: Vec::new(alloc),
            finished: false,
            freed: false,
        }),
        Some(core) => {
            let stepped = step_core(alloc, service, core, event)?;
            Ok(stepped)
        }
    }
}

/// A look of one client at what the book shows. A client that isn't there is told nothing.
pub fn look_at<W: SharedService>(
    alloc: Global,
    clients: &mut BTreeMap<u64, ClientCore<W>>,
    number: u64,
    look: &Look,
) -> Result<Vec<Output>, OutOfMemory>
    ensures here { IfOk result (λ outs. (answers : Serving)
        → LooksOne (request_answer W.Future.answer W.Stream.answer) answers (get nat_cmp clients.old number) look.now outs.items
        (get nat_cmp clients.new number)) }
    ensures others { OnOk result ((c : ℕ) → c ≢ number → get nat_cmp clients.new c ≡ get nat_cmp clients.old c) }
    ensures same_keys { OnOk result (keys clients.new ≡ keys clients.old) }
{
    match clients.get_mut(&number) {
        None => Ok(Vec::new(alloc)),
        Some(core) => {
            let outs = core.saw(alloc, look)?;
            Ok(outs)
        }
    }
}

/// A client that is finished leaves.
fn leave<W: SharedService>(clients: &mut BTreeMap<u64, ClientCore<W>>, client: u64, finished: bool)
    ensures here { get nat_cmp clients.new client ≡ (if finished then None else get nat_cmp clients.old client) }
    ensures others { (c : ℕ) → c ≢ client → get nat_cmp clients.new c ≡ get nat_cmp clients.old c }
{
    if finished {
        drop(clients.remove(&client));
    }
}

/// One client's event, by which it leaves if it is finished after it. Whether it gave its slot back is answered too.
pub fn step_at<W: SharedService>(
    alloc: Global,
    service: &W,
    clients: &mut BTreeMap<u64, ClientCore<W>>,
    event: &Event,
) -> Result<(Vec<Output>, bool), OutOfMemory>
    requires { W.can_call service.now }
    ensures here { IfOk result (λ p. StepsKey (request_answer W.Future.answer W.Stream.answer)
        (serving (W.answer service.now) (W.hint service.now)) (get nat_cmp clients.old event.now.client) event.now p.0.items p.1
        (get nat_cmp clients.new event.now.client)) }
    ensures others { OnOk result ((c : ℕ) → c ≢ event.now.client → get nat_cmp clients.new c ≡ get nat_cmp clients.old c) }
    ensures version { OnOk result ((v : ℕ) → IsAt (get nat_cmp clients.old event.now.client) v
        → IsAt (get nat_cmp clients.new event.now.client) v) }
{
    let Stepped {
        outs,
        finished,
        freed,
    } = step_there(alloc, service, clients, event.client, event)?;
    leave(clients, event.client, finished);
    Ok((outs, freed))
}

/// The numbers of the clients, rising.
fn numbers_of<V>(alloc: Global, clients: &BTreeMap<u64, V>) -> Result<Vec<u64>, OutOfMemory>
    ensures numbers { IfOk result (λ v. v.items ≡ keys clients.now) }
    ensures rising { OnOk result (IsOrdered nat_cmp clients.now) }
{
    let numbers: Vec<u64> = clients.keys().copied().collect(alloc)?;
    Ok(numbers)
}

/// A look of one client, of which what it is told is appended to the outputs.
fn look_more<W: SharedService>(
    alloc: Global,
    clients: &mut BTreeMap<u64, ClientCore<W>>,
    number: u64,
    look: &Look,
    outs: &mut Vec<Output>,
) -> Result<(), OutOfMemory>
    ensures here { OnOk result ((more : List Output) × (outs.new.items ≡ outs.old.items ++ more) × ((answers : Serving)
        → LooksOne (request_answer W.Future.answer W.Stream.answer) answers (get nat_cmp clients.old number) look.now more
        (get nat_cmp clients.new number))) }
    ensures others { OnOk result ((c : ℕ) → c ≢ number → get nat_cmp clients.new c ≡ get nat_cmp clients.old c) }
    ensures same_keys { OnOk result (keys clients.new ≡ keys clients.old) }
{
    let more = look_at(alloc, clients, number, look)?;
    append(outs, more)?;
    Ok(())
}

/// The clients of these numbers look at what the book shows, in their order.
fn look_each<W: SharedService>(
    alloc: Global,
    clients: &mut BTreeMap<u64, ClientCore<W>>,
    numbers: &[u64],
    look: &Look,
) -> Result<Vec<Output>, OutOfMemory>
    requires all { numbers.now ≡ keys clients.old }
    requires rising { IsOrdered nat_cmp clients.old }
    ensures looked { IfOk result (λ outs. (answers : Serving)
        → LooksAll (request_answer W.Future.answer W.Stream.answer) answers clients.old clients.new look.now outs.items) }
    ensures same_keys { OnOk result (keys clients.new ≡ keys clients.old) }
{
    let mut outs = Vec::new(alloc);
    for number in numbers {
        look_more(alloc, clients, *number, look, &mut outs)?;
    }
    Ok(outs)
}

/// All clients look at what the book shows, by rising number.
pub fn look_all<W: SharedService>(
    alloc: Global,
    clients: &mut BTreeMap<u64, ClientCore<W>>,
    look: &Look,
) -> Result<Vec<Output>, OutOfMemory>
    ensures looked { IfOk result (λ outs. (answers : Serving)
        → LooksAll (request_answer W.Future.answer W.Stream.answer) answers clients.old clients.new look.now outs.items) }
    ensures same_keys { OnOk result (keys clients.new ≡ keys clients.old) }
    ensures rising { OnOk result (IsOrdered nat_cmp clients.old) }
{
    let numbers = numbers_of(alloc, clients)?;
    let outs = look_each(alloc, clients, numbers.as_slice(), look)?;
    Ok(outs)
}

/// A core is kept under the number of its client.
fn keep<W: SharedService>(
    clients: &mut BTreeMap<u64, ClientCore<W>>,
    client: u64,
    core: ClientCore<W>,
) -> Result<(), OutOfMemory>
    ensures here { OnOk result (get nat_cmp clients.new client ≡ Some core) }
    ensures others { OnOk result ((c : ℕ) → c ≢ client → get nat_cmp clients.new c ≡ get nat_cmp clients.old c) }
{
    drop(clients.insert(client, core)?);
    Ok(())
}

/// A client that begins enters, unless it is finished at once.
fn enter<W: SharedService>(
    clients: &mut BTreeMap<u64, ClientCore<W>>,
    client: u64,
    core: ClientCore<W>,
) -> Result<(), OutOfMemory>
    ensures here { OnOk result (get nat_cmp clients.new client
        ≡ (if state_is_spent core.state then get nat_cmp clients.old client else Some core)) }
    ensures others { OnOk result ((c : ℕ) → c ≢ client → get nat_cmp clients.new c ≡ get nat_cmp clients.old c) }
    ensures spent { OnOk result ((answers : Serving) (s : Slate)
        → Stands (request_answer W.Future.answer W.Stream.answer) answers core s → state_is_spent core.state ≡ is_spent s) }
{
    if core.is_spent() {
        drop(core);
        return Ok(());
    }
    keep(clients, client, core)
}

/// A number is used from now on.
fn use_number(used: &mut BTreeSet<u64>, client: u64) -> Result<(), OutOfMemory>
    ensures { OnOk result ((c : ℕ) → contains nat_cmp used.new c ≡ (if nat_eq c client then true else contains nat_cmp used.old c)) }
{
    used.insert(client)?;
    Ok(())
}

/// A client that begins enters, and its number is used from now on. What it is sent is handed back.
pub fn begin<W: SharedService>(
    clients: &mut BTreeMap<u64, ClientCore<W>>,
    used: &mut BTreeSet<u64>,
    client: u64,
    core: ClientCore<W>,
    outs: Vec<Output>,
) -> Result<Vec<Output>, OutOfMemory>
    ensures { IfOk result (λ r. (r ≡ outs) × ((answers : Serving)
        → EntersWith (request_answer W.Future.answer W.Stream.answer) answers clients.old clients.new used.old used.new core client)) }
{
    enter(clients, client, core)?;
    use_number(used, client)?;
    Ok(outs)
}

/// A client is turned away under its number, and told so.
pub fn turn_away(
    alloc: Global,
    used: &mut BTreeSet<u64>,
    client: u64,
    accepted: bool,
) -> Result<Vec<Output>, OutOfMemory>
    ensures { IfOk result (λ outs. (outs.items ≡ Output.TurnedAway client accepted ∷ [])
        × ((c : ℕ) → contains nat_cmp used.new c ≡ (if nat_eq c client then true else contains nat_cmp used.old c))) }
{
    use_number(used, client)?;
    let mut outs = Vec::new(alloc);
    outs.push(Output::TurnedAway { client, accepted })?;
    Ok(outs)
}

/// Outputs go after others, which stay as they are if memory runs out.
pub fn append(outs: &mut Vec<Output>, more: Vec<Output>) -> Result<(), OutOfMemory>
    ensures ok { OnOk result (outs.new.items ≡ outs.old.items ++ more.items) }
    ensures kept { OnErr result (outs.new.items ≡ outs.old.items) }
{
    let mut more = more;
    outs.append(&mut more)?;
    Ok(())
}
