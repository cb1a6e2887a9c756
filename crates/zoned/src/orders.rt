//! What a running server is asked for.

use crate::configuration::load_config;
use anyhow::{Context, bail};
use dns_control::Caller;
use std::alloc::Global;
use std::net::Net;

/// What a running server is asked for.
#[derive(Clone, Copy)]
pub(crate) enum Order {
    Status,
    Reload,
    Transfers,
    Stop,
}

/// The order that octets are.
fn order_of(octets: &[u8]) -> Option<Order> {
    match octets {
        b"status" => Some(Order::Status),
        b"reload" => Some(Order::Reload),
        b"transfers" => Some(Order::Transfers),
        b"stop" => Some(Order::Stop),
        _ => None,
    }
}

/// The order of a caller, unless it says none in time.
pub(crate) fn hear(alloc: Global, caller: &mut Caller) -> anyhow::Result<Option<Order>> {
    match caller.order(alloc)? {
        Some(octets) => Ok(order_of(octets.as_slice())),
        None => Ok(None),
    }
}

/// Asks the server that runs by a configuration, and prints what it says.
pub(crate) fn ask<N: Net>(
    net: &N,
    rt: &HostRuntime,
    path: &str,
    order: &str,
) -> anyhow::Result<()> {
    let config = load_config(rt, path)?;
    let socket = match &config.control {
        Some(socket) => socket.as_str(),
        None => bail!("{path}: no control socket is named"),
    };
    dns_control::ask(net, rt, socket, order).context(format_args!("{socket}"))
}
