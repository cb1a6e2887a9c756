//! Rows of the cookie layer.

use crate::layer_rows::{Layers, through_from};
use crate::said::{PollAnswer, Says, Shown, called};
use dns_base::MessageRef;
use dns_middleware::CookiesMiddlewareSvc;
use dns_name::IpAddr;
use dns_opt::{Cookie, MessageOpt, OptRef};
use dns_service::{Polled, Request, Service};
use rows_table::{Row, RowError, address_of};

/// What the cookie layer gives to a request from an address at a second, by the next words: a secret, this address, the
/// second, and the denied address or `-` for none.
pub(crate) fn guarded(row: &mut Row<'_>, on: bool, made: bool) {
    let secret = row.array::<16>();
    let address = row.address();
    let second = row.number::<u64>();
    let denied = match row.word() {
        "-" => None,
        word => Some(row.read(address_of(word), IpAddr::V4([0; 4]))),
    };
    let guard = Guard {
        secret,
        address,
        denied,
        on,
        made,
    };
    through_from(row, &guard, address, second)
}

/// The cookie layer, on or not, under a secret and with one denied address or none; the address of the request; and whether
/// the reply's cookies are reported.
#[derive(Drop)]
struct Guard {
    secret: [u8; 16],
    address: IpAddr,
    denied: Option<IpAddr>,
    on: bool,
    made: bool,
}

impl Guard {
    /// The denied addresses.
    fn denied(&self, row: &mut Row<'_>) -> Vec<IpAddr> {
        let mut denied = Vec::new(row.alloc());
        if let Some(address) = self.denied {
            row.keep(denied.push(address));
        }
        denied
    }

    /// How a reply is said.
    fn shown(&self) -> Shown<'_> {
        if self.made {
            Shown::Cookies(self.address, &self.secret)
        } else {
            Shown::Only
        }
    }
}

impl Layers for Guard {
    fn ask<S: Service<()>>(&self, row: &mut Row<'_>, service: S, request: &mut Request<()>) {
        let denied = self.denied(row);
        let layer = CookiesMiddlewareSvc::new(row.alloc(), service, self.secret);
        let layer = layer.with_denied_ips(denied).enable(self.on);
        called(row, layer, request, self.shown())
    }
}

/// How many cookies the reply has that a poll gives, and how many of them check for an address under a secret, whatever
/// their timestamp.
#[derive(Drop)]
pub(crate) struct CookiesIn<'a> {
    pub(crate) address: IpAddr,
    pub(crate) secret: &'a [u8; 16],
}

impl Says<PollAnswer> for CookiesIn<'_> {
    fn says(&self, row: &mut Row<'_>, value: &PollAnswer) {
        match value {
            Ok(Polled::Ready(Some(Ok(given)))) => match given.response() {
                Some(reply) => match MessageRef::from_slice(reply.as_slice()) {
                    Ok(message) => match message.opt() {
                        Some(record) => count_said(row, record.opt(), self.address, self.secret),
                        None => row.say("no record"),
                    },
                    Err(_) => row.fail(RowError::OutOfForm),
                },
                None => row.fail(RowError::Missing),
            },
            _ => row.fail(RowError::Missing),
        }
    }
}

/// How many of some options are cookies, and how many of these check.
fn count_said(row: &mut Row<'_>, options: &OptRef<'_>, address: IpAddr, secret: &[u8; 16]) {
    let mut cookies = 0u8;
    let mut checked = 0u8;
    for cookie in options.iter::<Cookie>() {
        cookies = cookies.saturating_add(1);
        if let Ok(cookie) = cookie {
            if cookie.check_server_hash(address, secret, |_| true) {
                checked = checked.saturating_add(1);
            }
        }
    }
    row.show(&cookies);
    row.show(&checked);
}
