//! The calls of dns_key_access: a service whose transfers and NOTIFYs want a key.

ghost use Rattle.std.specs.Prelude.{◌≡◌};
ghost use Rattle.std.specs.Result.{ForOk};
ghost use Rattle.rows_keys.specs.KeyedReplies.{plain_reply};

use crate::layer::given_by;
use dns_authority::Network;
use dns_base::{Message, Name};
use dns_key_access::{Access, KeyAccess, KeyAccessSvc, ZoneAccess};
use dns_name::{OptRcode, OutOfMemory, SocketAddr};
use dns_service::{
    CallResult, Gives, NonUdpTransportContext, Request, ServiceResult, TransportSpecificContext,
    mk_error_response, service_fn,
};
use rows_table::{Calls, Row, RowError};
use std::alloc::Global;
use std::sync::Arc;

/// Calls of the layer.
pub struct Judging;

impl Calls for Judging {
    fn answer(&self, call: &str, row: &mut Row<'_>) -> Result<(), RowError> {
        match call {
            "judged" => judged(row),
            _ => return Err(RowError::NoSuchCall),
        }
        Ok(())
    }
}

/// What a service replies: the response code that it has.
struct AsCoded;

impl Gives<OptRcode> for AsCoded {
    ghost item = { λ r code. plain_reply code r.octets };
}

/// The reply with a response code.
fn coded(
    alloc: Global,
    request: &Request<()>,
    code: &OptRcode,
) -> Result<ServiceResult, OutOfMemory>
    ensures { ForOk result (λ i. i ≡ plain_reply code.now request.now.octets) }
{
    let reply = mk_error_response(alloc, request.message(), *code)?;
    Ok(Ok(CallResult::new(reply)))
}

/// A zone with one rule.
fn zone_of(alloc: Global, apex: Name, access: Access) -> Result<Vec<ZoneAccess>, OutOfMemory> {
    let mut allowed = Vec::new(alloc);
    allowed.push(access)?;
    let mut zones = Vec::new(alloc);
    zones.push(ZoneAccess { apex, allowed })?;
    Ok(zones)
}

/// A zone whose transfers and NOTIFYs have one rule.
fn access_of(alloc: Global, apex: &Name, access: Access) -> Result<Arc<KeyAccess>, OutOfMemory> {
    let rules = KeyAccess {
        transfers: zone_of(alloc, apex.try_clone(alloc)?, access)?,
        notifies: zone_of(alloc, apex.try_clone(alloc)?, access)?,
    };
    Ok(Arc::new(alloc, rules)?)
}

/// What is answered to a request over a stream, from an address and under the key of a place.
fn judged(row: &mut Row<'_>) {
    let ip = row.address();
    let key = row.optional();
    let apex = row.name();
    let network = Network {
        address: row.address(),
        bits: row.number(),
    };
    let access = Access {
        network,
        key: row.optional(),
    };
    let octets = row.vector();
    let alloc = row.alloc();
    let (Ok(apex), Ok(message)) = (apex.to_owned(alloc), Message::from_octets(octets)) else {
        return row.fail(RowError::OutOfForm);
    };
    let Ok(access) = access_of(alloc, &apex, access) else {
        return row.fail(RowError::OutOfMemory);
    };
    let inner = service_fn::<AsCoded, _, _>(coded, OptRcode::NXDOMAIN);
    let service = KeyAccessSvc::new(inner, access);
    let transport = TransportSpecificContext::NonUdp(NonUdpTransportContext::new(None));
    let sender = SocketAddr { ip, port: 5353 };
    match Request::new(alloc, sender, 0, 0, message, transport, key) {
        Ok(mut request) => given_by(row, &service, &mut request),
        Err(_) => row.fail(RowError::OutOfMemory),
    }
}
