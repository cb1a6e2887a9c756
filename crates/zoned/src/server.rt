//! A server: generation after generation at the listeners.

use crate::load::log_signed;
use crate::measures::{Measures, Shown};
use crate::served_config::ServedConfig;
use anyhow::Context;
use dns_config::Config;
use dns_control::{Caller, Control};
use dns_limited_sock::LimitSettings;
use dns_listener::{
    Counters, Listener, Offer, Running, Started, bind_all, close_all, has_ended, say_listeners,
    take_back,
};
use dns_metrics::Endpoint;
use dns_name::{OutOfMemory, SocketAddr};
use dns_notifier::Notifier;
use dns_socket_addr::{SocketAddrText, to_std};
use dns_zone_copies::{Copies, CopiesTarget};
use log::{Log, error, info};
use std::alloc::{AllocError, Global};
use std::hash::RandomState;
use std::net::Net;
use std::random::RandomSource;
use std::rt::{Clock, Files};
use std::sync::{Arc, Mutex, Wait};
use std::thread::{self, Threads};
use std::time::{Duration, Instant};

mod obey;

/// How often it looks whether something is asked.
const LOOK_MILLIS: u64 = 50;

/// How many milliseconds a second has.
const MILLIS: u64 = 1_000;

/// How long nothing is served after a listener ended by itself.
const PAUSE_MILLIS: u64 = 1_000;

/// The number of the moment at which the server began, in seconds: 136 years.
const BEGAN: u64 = 4_294_967_296;

/// How long it waits before zones are read again that couldn't be read, in seconds.
const AGAIN_SECONDS: u64 = 10;

/// How far the generation that is served is.
#[derive(Clone, Copy, PartialEq, Eq)]
enum Phase {
    /// It is served.
    Serving,
    /// Another one is to be served.
    Renewed,
    /// Nothing more is to be served.
    Stopped,
}

/// A server: what it serves and who controls it.
#[derive(Drop)]
struct Server {
    path: String,
    since: Instant,
    served: ServedConfig,
    /// Whether a copy came or went since the zones were read.
    is_stale: bool,
    /// When they are to be read again then.
    again: u64,
    /// Whether another configuration was read since limits were set.
    is_reread: bool,
    copies: Copies,
    notifier: Notifier,
    counters: Arc<Counters>,
    shown: Arc<Mutex<Shown>>,
    endpoint: Option<Endpoint>,
    control: Option<Control>,
    stopper: Option<Caller>,
    phase: Phase,
}

/// Opens the control socket, if one is named.
fn open_control<R: Net + Files>(
    machine: &R,
    alloc: Global,
    config: &Config,
) -> anyhow::Result<Option<Control>> {
    match &config.control {
        Some(path) => {
            let control = Control::bind(machine, alloc, path.as_str()).context(format_args!(
                "control {path}"
            ))?;
            Ok(Some(control))
        }
        None => Ok(None),
    }
}

impl Server {
    /// Reads and judges a configuration and its zones. Nothing is open yet.
    fn new(rt: &HostRuntime, path: &str) -> anyhow::Result<Server> {
        let alloc = rt.alloc();
        let since = Instant::now(rt)?;
        let counters = Arc::new(alloc, Counters::new(alloc)?)?;
        let copies = Copies::new(alloc)?;
        let served = ServedConfig::load(rt, 1, path, &[])?;
        let shown = Arc::new(alloc, Mutex::new(Shown::of(alloc, &served)?))?;
        let path = String::from_str(alloc, path)?;
        Ok(Server {
            path,
            since,
            served,
            is_stale: false,
            again: 0,
            is_reread: true,
            copies,
            notifier: Notifier::new(alloc),
            counters,
            shown,
            endpoint: None,
            control: None,
            stopper: None,
            phase: Phase::Serving,
        })
    }

    /// Starts the thread that tells the metrics at an address, and gives the address with the port that the system picked.
    fn open_metrics<R: Net + Clock + RandomSource + Threads + Wait + Copy + Send + Sync + 'static>(
        &mut self,
        machine: R,
        alloc: Global,
        wanted: SocketAddr,
    ) -> anyhow::Result<SocketAddr> {
        let measures = Measures {
            machine,
            since: self.since,
            counters: Arc::try_clone(&self.counters)?,
            shown: Arc::try_clone(&self.shown)?,
        };
        let endpoint = Endpoint::start(machine, alloc, to_std(wanted), measures).context(
            format_args!("metrics {}", SocketAddrText(wanted)),
        )?;
        let port = endpoint.address().port();
        self.endpoint = Some(endpoint);
        let ip = wanted.ip;
        Ok(SocketAddr { ip, port })
    }

    /// Opens all sockets, and writes the addresses at which it listens.
    fn open<R: Net + Files + Clock + RandomSource + Threads + Wait + Copy + Send + Sync + 'static>(
        &mut self,
        machine: R,
        rt: &HostRuntime,
    ) -> anyhow::Result<Vec<Listener<R>>> {
        let alloc = rt.alloc();
        let listeners = bind_all(machine, alloc, &self.served.config, &self.counters)?;
        self.control = open_control(&machine, alloc, &self.served.config)?;
        self.follow_copies(rt)?;
        let metrics = match self.served.config.metrics {
            Some(wanted) => Some(self.open_metrics(machine, alloc, wanted.address)?),
            None => None,
        };
        say_listeners(rt, listeners.as_slice())?;
        if let Some(address) = metrics {
            println!(rt; "metrics at {}", SocketAddrText(address))?;
        }
        Ok(listeners)
    }

    /// How many seconds the server runs.
    fn seconds(&self, rt: &HostRuntime) -> anyhow::Result<u64> {
        Ok(self.since.elapsed(rt)?.as_secs())
    }

    /// This moment, in seconds, so that moments before the server began have numbers too.
    fn moment(&self, rt: &HostRuntime) -> anyhow::Result<u64> {
        Ok(BEGAN.saturating_add(self.seconds(rt)?))
    }

    /// Goes on to the copies of the zones that are served. Those that are obsolete aren't served.
    fn follow_copies(&mut self, rt: &HostRuntime) -> anyhow::Result<()> {
        let now = self.moment(rt)?;
        let alloc = rt.alloc();
        let served = &self.served;
        let summaries = served.zones.summaries.as_slice();
        let keys = &served.keys.shared;
        self.copies
            .follow(rt, alloc, &served.config, keys, summaries, now)?;
        if self.copies.discard_obsolete(rt, now) {
            self.withhold_lost(rt)?;
        }
        Ok(())
    }

    /// Goes on to another generation.
    fn go_on(&mut self, rt: &HostRuntime, served: ServedConfig) -> anyhow::Result<()> {
        self.served = served;
        self.phase = Phase::Renewed;
        self.is_stale = true;
        self.follow_copies(rt)?;
        self.is_stale = false;
        Ok(())
    }

    /// Goes on without the data of zones that lost their copy, if there are any.
    fn withhold_lost(&mut self, rt: &HostRuntime) -> anyhow::Result<()> {
        let secondaries = self.copies.as_slice();
        if let Some(served) = self.served.without_lost(rt.alloc(), secondaries)? {
            self.served = served;
            self.phase = Phase::Renewed;
        }
        Ok(())
    }

    /// What is served at a listener.
    fn offer(&self, alloc: Global) -> Result<Offer<CopiesTarget>, OutOfMemory> {
        let served = &self.served;
        Offer::new(
            alloc,
            &served.settings,
            &served.zones.service,
            self.copies.target(),
            &served.config.nsid,
            self.counters.tally()?,
            served.keys.rules(alloc)?,
        )
    }

    /// Starts a thread for each listener, in which it serves. The listeners for which that can't be done are given back.
    fn start<R: Clock + Threads + Wait + Copy + Send + Sync + 'static>(
        &self,
        machine: R,
        alloc: Global,
        listeners: Vec<Listener<R>>,
    ) -> Result<(Vec<Running<R>>, Vec<Listener<R>>), OutOfMemory> {
        let mut running = Vec::new(alloc);
        let mut refused = Vec::new(alloc);
        for listener in listeners {
            let offer = self.offer(alloc)?;
            match Running::start(machine, alloc, listener, offer) {
                Started::Running(one) => running.push(one)?,
                Started::Refused(listener) => refused.push(listener)?,
            }
        }
        Ok((running, refused))
    }

    /// Reads and judges the zones again, if a copy came or went. If that fails, the zones that lost their copy are without
    /// data, and it is tried again later.
    fn renew(&mut self, rt: &HostRuntime, now: u64) -> anyhow::Result<()> {
        if !self.is_stale || now < self.again {
            return Ok(());
        }
        self.again = now.saturating_add(AGAIN_SECONDS);
        match self.served.renewed(rt, self.copies.as_slice()) {
            Ok(served) => self.go_on(rt, served),
            Err(fault) => {
                error!(rt; "{fault:#}; the zones are read again in {AGAIN_SECONDS} s");
                self.withhold_lost(rt)
            }
        }
    }

    /// Looks at the copies and at the announcements of serials. If another copy came, or one went, the zones are read and
    /// judged again.
    fn look<R: Net + Files + Clock + RandomSource + Threads + Log + Copy + Send + 'static>(
        &mut self,
        machine: &R,
        rt: &HostRuntime,
    ) -> anyhow::Result<()> {
        let now = self.moment(rt)?;
        let alloc = rt.alloc();
        self.notifier
            .look(machine, alloc, now.saturating_mul(MILLIS))?;
        if self.copies.look(machine, alloc, now)? {
            self.is_stale = true;
            self.again = now;
        }
        self.renew(rt, now)
    }

    /// Logs the transfers that were noted, and does what a caller asks, or what the copies lead to. What fails is logged, and what is
    /// served stays.
    fn turn<R: Net + Files + Clock + RandomSource + Threads + Wait + Log + Copy + Send + 'static>(
        &mut self,
        machine: &R,
        rt: &HostRuntime,
    ) {
        self.counters.log_transfers(machine);
        self.counters.log_limits(machine);
        self.obey_next(rt);
        if self.phase != Phase::Serving {
            return;
        }
        if let Err(fault) = self.look(machine, rt) {
            error!(rt; "{fault:#}");
        }
    }

    /// Waits until another generation is to be served, or none, or a listener ends by itself. Then each listener is shut down.
    fn wait<R: Net + Files + RandomSource + Threads + Wait + Clock + Log + Copy + Send + 'static>(
        &mut self,
        machine: &R,
        rt: &HostRuntime,
        running: &mut [Running<R>],
    ) {
        for _ in machine.forever() {
            if has_ended(machine, running) {
                error!(rt; "a listener ended by itself; all are started again");
                thread::sleep(machine, Duration::from_millis(PAUSE_MILLIS));
                break;
            }
            self.turn(machine, rt);
            if self.phase != Phase::Serving {
                break;
            }
            thread::sleep(machine, Duration::from_millis(LOOK_MILLIS));
        }
        close_all(machine, running);
    }

    /// Shuts each listener down where not all could be started, does what a caller asks, and waits.
    fn pause<R: Net + Files + RandomSource + Threads + Wait + Clock + Log + Copy + Send + 'static>(
        &mut self,
        machine: &R,
        rt: &HostRuntime,
        running: &mut [Running<R>],
    ) {
        error!(rt; "a listener can't be started; all are started again");
        close_all(machine, running);
        self.turn(machine, rt);
        thread::sleep(machine, Duration::from_millis(PAUSE_MILLIS));
    }

    /// Goes on to the limits of the configuration, if another one was read. The tables begin anew then.
    fn follow_limits<R: RandomSource + Wait>(
        &mut self,
        machine: &R,
        alloc: Global,
    ) -> anyhow::Result<()> {
        if !self.is_reread {
            return Ok(());
        }
        let served = &self.served;
        let settings = match &served.config.rate_limit {
            Some(limit) => Some(LimitSettings::of(alloc, limit, served.settings.cookies)?),
            None => None,
        };
        let seed = RandomState::new(machine)?;
        self.counters
            .limiting()
            .follow(machine, alloc, settings, seed)?;
        self.is_reread = false;
        Ok(())
    }

    /// Announces the serials that are served.
    fn tell(&mut self, alloc: Global) -> anyhow::Result<()> {
        let served = &self.served;
        let summaries = served.zones.summaries.as_slice();
        let keys = &served.keys.shared;
        self.notifier
            .tell_changes(alloc, &served.config, keys, summaries)
    }

    /// Shows the generation that is served in the metrics.
    fn show<R: Wait>(&self, machine: &R, alloc: Global) -> Result<(), AllocError> {
        let shown = Shown::of(alloc, &self.served)?;
        let mut kept = self.shown.lock(machine);
        *kept = shown;
        Ok(())
    }

    /// Serves a generation at these listeners, until another one is to be served, or none, or a listener ends by itself. Gives the
    /// listeners back.
    fn serve_generation<
        R: Net + Files + Clock + RandomSource + Threads + Wait + Log + Copy + Send + Sync + 'static,
    >(
        &mut self,
        machine: R,
        rt: &HostRuntime,
        listeners: Vec<Listener<R>>,
    ) -> anyhow::Result<Vec<Listener<R>>> {
        let served = &self.served;
        info!(rt; "generation {} is served", served.number);
        log_signed(rt, &served.config, served.zones.summaries.as_slice());
        self.phase = Phase::Serving;
        self.show(&machine, rt.alloc())?;
        if let Err(fault) = self.follow_limits(&machine, rt.alloc()) {
            error!(rt; "rate-limit: {fault:#}");
        }
        if let Err(fault) = self.tell(rt.alloc()) {
            error!(rt; "NOTIFY: {fault:#}");
        }
        let (mut running, refused) = self.start(machine, rt.alloc(), listeners)?;
        if refused.is_empty() {
            self.wait(&machine, rt, running.as_mut_slice());
        } else {
            self.pause(&machine, rt, running.as_mut_slice());
        }
        let mut listeners = take_back(&machine, rt.alloc(), running)?;
        for listener in refused {
            listeners.push(listener)?;
        }
        Ok(listeners)
    }

    /// Opens all sockets, and serves generation after generation until the server is stopped.
    fn run<
        R: Net + Files + Clock + RandomSource + Threads + Wait + Log + Copy + Send + Sync + 'static,
    >(&mut self, machine: R, rt: &HostRuntime) -> anyhow::Result<()> {
        let mut listeners = self.open(machine, rt)?;
        for _ in machine.forever() {
            listeners = self.serve_generation(machine, rt, listeners)?;
            if self.phase == Phase::Stopped {
                break;
            }
        }
        Ok(())
    }

    /// Ends the checks of copies and the page of metrics, and removes the control socket. It tells who asked for the end that it
    /// has come, and whether a fault did.
    fn end<R: Files + Threads + Log>(self, machine: &R, is_without_fault: bool) {
        let Server {
            copies,
            endpoint,
            control,
            stopper,
            ..
        } = self;
        copies.end(machine);
        if let Some(endpoint) = endpoint {
            if let Err(fault) = endpoint.shutdown(machine) {
                error!(machine; "metrics: {fault}");
            }
        }
        if let Some(control) = control {
            control.remove(machine);
        }
        if let Some(mut caller) = stopper {
            let _ = caller.say(if is_without_fault {
                "ok\n"
            } else {
                "ended with a fault\n"
            });
        }
    }
}

/// Serves by a configuration until the server is stopped.
pub(crate) fn serve<
    R: Net + Files + Clock + RandomSource + Threads + Wait + Log + Copy + Send + Sync + 'static,
>(machine: R, rt: &HostRuntime, path: &str) -> anyhow::Result<()> {
    let mut server = Server::new(rt, path)?;
    let outcome = server.run(machine, rt);
    server.end(&machine, outcome.is_ok());
    outcome
}
