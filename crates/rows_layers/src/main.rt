//! Rows over services, streams, layers and composed messages: the table on standard input is judged row by row.
//!
//! - layer_rows, wrap_rows, cookie_rows, error_rows: what the layers give to a request, one by one and as one.
//! - service_rows, stream_rows, request_rows, reply_rows: what these stand on.
//! - router_rows, route_rows, forward_rows, cache_rows, zone_rows: services besides the layers.
//! - works, often_rows, router_often: work that is done many times over, which `bench/calls` times.
//!
//! `crates/rows_table` says how a row is written. The program prints each row that doesn't hold.
#![tactic(auto)]

mod cache_rows;
mod cookie_rows;
mod error_rows;
mod forward_rows;
mod inner;
mod layer_rows;
mod often_rows;
mod reply_rows;
mod request_rows;
mod route_rows;
mod router_often;
mod router_rows;
mod said;
mod service_rows;
mod slow;
mod stream_rows;
mod target;
mod words;
mod works;
mod wrap_rows;
mod zone_rows;

use layer_rows::{LayerRows, MandatoryRows};
use often_rows::OftenRows;
use reply_rows::ReplyRows;
use request_rows::RequestRows;
use router_rows::RouterRows;
use rows_table::run;
use service_rows::ServiceRows;
use std::hash::RandomState;
use std::io;
use std::process::ExitCode;

fn main(rt: HostRuntime) -> io::Result<ExitCode> {
    let seed = RandomState::new(&rt)?;
    run(
        &rt,
        &(
            (
                (ServiceRows, ReplyRows),
                (RouterRows { seed }, MandatoryRows),
            ),
            (LayerRows, (OftenRows, RequestRows)),
        ),
    )
}
