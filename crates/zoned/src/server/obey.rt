//! What a server does that callers at its control socket ask for.

use crate::load::report;
use crate::orders::{Order, hear};
use crate::served_config::ServedConfig;
use crate::server::{Phase, Server};
use dns_control::Caller;
use log::error;
use std::alloc::Global;

/// Says why a reload is refused.
fn refuse(rt: &HostRuntime, caller: &mut Caller, fault: &anyhow::Error) -> anyhow::Result<()> {
    error!(rt; "reload refused: {fault:#}");
    let text = format!(in rt.alloc(); "refused: {fault:#}\n")?;
    caller.say(text.as_str())?;
    Ok(())
}

impl Server {
    /// Appends a line for each zone, after what stands before.
    fn say_zones(&self, alloc: Global, caller: &mut Caller) -> anyhow::Result<()> {
        let served = &self.served;
        let text = report(alloc, &served.config, served.zones.summaries.as_slice())?;
        caller.say(text.as_str())?;
        Ok(())
    }

    /// Says what is served, and what was counted.
    fn say_status(&self, rt: &HostRuntime, caller: &mut Caller) -> anyhow::Result<()> {
        let alloc = rt.alloc();
        let seconds = self.seconds(rt)?;
        let number = self.served.number;
        let text = format!(in alloc; "ok\ngeneration {number}, up for {seconds} s\n")?;
        caller.say(text.as_str())?;
        self.say_zones(alloc, caller)?;
        let text = self.counters.report(alloc)?;
        caller.say(text.as_str())?;
        Ok(())
    }

    /// Says what is known of each copy.
    fn say_transfers(&self, alloc: Global, caller: &mut Caller) -> anyhow::Result<()> {
        let text = self.copies.report(alloc)?;
        caller.say("ok\n")?;
        caller.say(text.as_str())?;
        Ok(())
    }

    /// Reads and judges what follows; if it is refused, what is served stays.
    fn following(&self, rt: &HostRuntime) -> anyhow::Result<ServedConfig> {
        let number = self.served.number.saturating_add(1);
        ServedConfig::load(rt, number, self.path.as_str(), self.copies.as_slice())
    }

    /// Goes on to what follows, if it isn't refused, and says so.
    fn reload(&mut self, rt: &HostRuntime, caller: &mut Caller) -> anyhow::Result<()> {
        match self.following(rt) {
            Ok(served) => {
                self.is_reread = true;
                self.go_on(rt, served)?;
                caller.say("ok\n")?;
                self.say_zones(rt.alloc(), caller)
            }
            Err(fault) => refuse(rt, caller, &fault),
        }
    }

    /// Nothing more is to be served. Who asks for it hears so once the server has ended.
    fn stop(&mut self, caller: Caller) {
        self.phase = Phase::Stopped;
        self.stopper = Some(caller);
    }

    /// Does what a caller asks.
    fn obey(&mut self, rt: &HostRuntime, caller: Caller) -> anyhow::Result<()> {
        let mut caller = caller;
        match hear(rt.alloc(), &mut caller)? {
            Some(Order::Status) => self.say_status(rt, &mut caller)?,
            Some(Order::Transfers) => self.say_transfers(rt.alloc(), &mut caller)?,
            Some(Order::Reload) => self.reload(rt, &mut caller)?,
            Some(Order::Stop) => self.stop(caller),
            None => caller.say("no such order\n")?,
        }
        Ok(())
    }

    /// Does what the next caller asks, if there is one. A caller that can't be heard or told is left.
    pub(super) fn obey_next(&mut self, rt: &HostRuntime) {
        let caller = match &self.control {
            Some(control) => control.caller(),
            None => None,
        };
        if let Some(caller) = caller {
            if let Err(fault) = self.obey(rt, caller) {
                error!(rt; "control: {fault:#}");
            }
        }
    }
}
