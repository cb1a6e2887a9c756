//! Rows of the layers: a request through them to a service that answers at once.

use crate::cookie_rows::guarded;
use crate::inner::{AsPlanned, planned};
use crate::request_rows::{hint_said, request_from};
use crate::said::{Shown, called};
use crate::target::Target;
use crate::words::{opt_rcode, reply, service_error};
use crate::wrap_rows::All;
use dns_base::AdditionalBuilder;
use dns_middleware::{EdnsMiddlewareSvc, MandatoryMiddlewareSvc, NotifyMiddlewareSvc};
use dns_name::IpAddr;
use dns_service::{CallResult, Request, Service, ServiceResult, mk_error_response, service_fn};
use rows_table::{Calls, Row, RowError};

/// The mandatory layer, round the service or round the EDNS layer, and the cookie layer.
#[derive(Drop)]
pub(crate) struct MandatoryRows;

impl Calls for MandatoryRows {
    fn answer(&self, call: &str, row: &mut Row<'_>) -> Result<(), RowError> {
        match call {
            "mandatory" => through(row, &Mandatory { strict: true }),
            "mandatory_relaxed" => through(row, &Mandatory { strict: false }),
            "both" => through(row, &Both { strict: true }),
            "both_relaxed" => through(row, &Both { strict: false }),
            "cookies" => guarded(row, true, false),
            "cookies_disabled" => guarded(row, false, false),
            "made_cookies" => guarded(row, true, true),
            _ => return Err(RowError::NoSuchCall),
        }
        Ok(())
    }
}

/// The EDNS layer, the NOTIFY layer and all layers, as the next words set them. Of the NOTIFY layer they say how often it is polled
/// and its target.
#[derive(Drop)]
pub(crate) struct LayerRows;

impl Calls for LayerRows {
    fn answer(&self, call: &str, row: &mut Row<'_>) -> Result<(), RowError> {
        match call {
            "edns_hint" => through(row, &Edns { on: true }),
            "edns_disabled" => through(row, &Edns { on: false }),
            "notify" => {
                let polls = row.number();
                let target = Target::next(row);
                through(row, &Notify { polls, target })
            }
            "wrap" => {
                let all = All::next(row);
                through(row, &all)
            }
            _ => return Err(RowError::NoSuchCall),
        }
        Ok(())
    }
}

/// Layers round a service.
pub(crate) trait Layers {
    /// What the service gives to the request in these layers.
    fn ask<S: Service<()>>(&self, row: &mut Row<'_>, service: S, request: &mut Request<()>)
        requires { S.can_call service };
}

/// What layers give to the request of the next words, round a service that answers with the item after it.
fn through<L: Layers>(row: &mut Row<'_>, layers: &L) {
    through_from(row, layers, IpAddr::V4([192, 0, 2, 1]), 100)
}

/// What the layers give to a request from an address, received at this second.
pub(crate) fn through_from<L: Layers>(row: &mut Row<'_>, layers: &L, ip: IpAddr, second: u64) {
    match request_from(row, ip, second) {
        Ok(mut request) => asked(row, layers, &mut request),
        Err(fault) => row.fail(fault),
    }
}

/// What the layers give to this request, round a service that answers with the item after it.
fn asked<L: Layers>(row: &mut Row<'_>, layers: &L, request: &mut Request<()>) {
    match item(row, request) {
        Ok(item) => layers.ask(row, service_fn::<AsPlanned, _, _>(planned, item), request),
        Err(fault) => row.fail(fault),
    }
}

/// The item of the next word: an error by its name, the error reply to the request with a response code, or octets.
fn item(row: &mut Row<'_>, request: &Request<()>) -> Result<ServiceResult, RowError> {
    let word = row.word();
    match service_error(word) {
        Some(error) => Ok(Err(error)),
        None => match item_reply(row, request, word) {
            Ok(reply) => Ok(Ok(CallResult::new(reply))),
            Err(fault) => Err(fault),
        },
    }
}

fn item_reply(
    row: &mut Row<'_>,
    request: &Request<()>,
    word: &str,
) -> Result<AdditionalBuilder, RowError> {
    match word.strip_prefix("rcode:") {
        Some(number) => {
            let rcode = opt_rcode(row.number_of(number));
            Ok(mk_error_response(row.alloc(), request.message(), rcode)?)
        }
        None => reply(row.alloc(), row.octets_of(word)),
    }
}

/// The mandatory layer, strict or not.
#[derive(Drop)]
struct Mandatory {
    strict: bool,
}

impl Layers for Mandatory {
    fn ask<S: Service<()>>(&self, row: &mut Row<'_>, service: S, request: &mut Request<()>) {
        if self.strict {
            called(
                row,
                MandatoryMiddlewareSvc::new(service),
                request,
                Shown::Only,
            )
        } else {
            called(
                row,
                MandatoryMiddlewareSvc::relaxed(service),
                request,
                Shown::Only,
            )
        }
    }
}

/// The EDNS layer within the mandatory one, which is strict or not.
#[derive(Drop)]
struct Both {
    strict: bool,
}

impl Layers for Both {
    fn ask<S: Service<()>>(&self, row: &mut Row<'_>, service: S, request: &mut Request<()>) {
        let mandatory = Mandatory {
            strict: self.strict,
        };
        mandatory.ask(row, EdnsMiddlewareSvc::new(service), request)
    }
}

/// The EDNS layer, on or not.
#[derive(Drop)]
struct Edns {
    on: bool,
}

impl Layers for Edns {
    /// The hint that the request has afterwards; or the item, if the layer is off.
    fn ask<S: Service<()>>(&self, row: &mut Row<'_>, service: S, request: &mut Request<()>) {
        let shown = if self.on {
            Shown::Polls(0)
        } else {
            Shown::Only
        };
        let layer = EdnsMiddlewareSvc::new(service).enable(self.on);
        called(row, layer, request, shown);
        if self.on {
            hint_said(row, request.transport_ctx())
        }
    }
}

/// The NOTIFY layer with a target, and how often its stream is polled.
#[derive(Drop)]
struct Notify {
    polls: u8,
    target: Target,
}

impl Layers for Notify {
    fn ask<S: Service<()>>(&self, row: &mut Row<'_>, service: S, request: &mut Request<()>) {
        let layer = NotifyMiddlewareSvc::new(service, self.target);
        called(row, layer, request, Shown::Polls(self.polls))
    }
}
