//! The calls of dns_cookie.

use crate::said::{Next, order_said, shown};
use dns_cookie::{
    ClientCookie, Cookie, ServerCookie, StandardServerCookie, siphash24, timestamp_ok,
};
use dns_name::{ComposeOptData, IpAddr, OptionCode, ParseOptData, Parser, Serial};
use rows_table::{Calls, Row, RowError};

/// Calls of cookies as they are made and checked, and of hashes and timestamps.
pub struct Cookies;

/// Calls of the parts of cookies and of their order.
pub struct CookieParts;

impl Calls for Cookies {
    fn answer(&self, call: &str, row: &mut Row<'_>) -> Result<(), RowError> {
        match call {
            "check_server_hash" => check_server_hash(row),
            "check_hash" => check_hash(row),
            "check_response" => check_created(row),
            "create_response" => create_response(row),
            "siphash24" => {
                let key = row.array::<16>();
                let hash = siphash24(&key, row.octets());
                row.hexadecimal(&hash.to_be_bytes())
            }
            "timestamp_ok" => {
                let timestamp = Serial(row.number());
                let now = Serial(row.number());
                row.whether(timestamp_ok(timestamp, now))
            }
            _ => return Err(RowError::NoSuchCall),
        }
        Ok(())
    }
}

impl Calls for CookieParts {
    fn answer(&self, call: &str, row: &mut Row<'_>) -> Result<(), RowError> {
        match call {
            "cookie" => cookie(row),
            "standard_server_cookie" => standard_server_cookie(row),
            "server_cookie" => {
                let server = ServerCookie::next(row);
                server_said(row, &server)
            }
            "client_copied" => {
                let mut client = ClientCookie::from_octets(row.array());
                let other = ClientCookie::from(row.array::<8>());
                client.as_slice_mut().copy_from_slice(other.as_slice());
                row.hexadecimal(&<[u8; 8]>::from(client))
            }
            "client_cmp" => order_said::<ClientCookie>(row),
            "server_cmp" => order_said::<ServerCookie>(row),
            "cookie_cmp" => order_said::<Cookie>(row),
            _ => return Err(RowError::NoSuchCall),
        }
        Ok(())
    }
}

impl Next for Cookie {
    /// The cookie of the next word.
    fn next(row: &mut Row<'_>) -> Cookie {
        let mut parser = Parser::from_ref(row.octets());
        match Cookie::parse(&mut parser) {
            Ok(cookie) => cookie,
            Err(_) => {
                row.fail(RowError::OutOfForm);
                Cookie::new(ClientCookie::from_octets([0; 8]), None)
            }
        }
    }
}

/// Whether a cookie checks for an address under a secret, if only one timestamp is accepted.
fn check_server_hash(row: &mut Row<'_>) {
    let cookie = Cookie::next(row);
    let client_ip = row.address();
    let secret = row.array::<16>();
    let timestamp = row.number::<u32>();
    let checks = cookie.check_server_hash(client_ip, &secret, |at: Serial| {
        at.into_int() == timestamp
    });
    row.whether(checks)
}

/// Whether the hash of a cookie's standard server part is that of an address under a secret.
fn check_hash(row: &mut Row<'_>) {
    let cookie = Cookie::next(row);
    let client_ip = row.address();
    let secret = row.array::<16>();
    match cookie.server() {
        Some(server) => match server.try_to_standard() {
            Some(standard) => row.whether(standard.check_hash(cookie.client(), client_ip, &secret)),
            None => row.fail(RowError::OutOfForm),
        },
        None => row.fail(RowError::OutOfForm),
    }
}

/// A client's cookie alone, a timestamp, an address and a secret.
fn client_words(row: &mut Row<'_>) -> (Cookie, Serial, IpAddr, [u8; 16]) {
    let client = ClientCookie::from(row.array::<8>());
    let timestamp = Serial(row.number());
    let client_ip = row.address();
    let secret = row.array::<16>();
    (Cookie::new(client, None), timestamp, client_ip, secret)
}

/// The cookie that a response has: the octets of both parts, one after the other.
fn create_response(row: &mut Row<'_>) {
    let (cookie, timestamp, client_ip, secret) = client_words(row);
    let response = cookie.create_response(timestamp, client_ip, &secret);
    let mut octets = Vec::new(row.alloc());
    row.keep(response.client().compose(row.alloc(), &mut octets));
    if let Some(server) = response.server() {
        row.keep(server.compose(row.alloc(), &mut octets));
    }
    row.hexadecimal(&octets)
}

/// Whether the cookie that a response has checks, if every timestamp is accepted.
fn check_created(row: &mut Row<'_>) {
    let (cookie, timestamp, client_ip, secret) = client_words(row);
    let response = cookie.create_response(timestamp, client_ip, &secret);
    row.whether(response.check_server_hash(client_ip, &secret, |_| true))
}

/// The option that octets are under a code, and how many octets it says that it takes, or why there is none; and how many are
/// left.
fn cookie(row: &mut Row<'_>) {
    let code = OptionCode::from_int(row.number());
    let mut parser = Parser::from_ref(row.octets());
    match Cookie::parse_option(code, &mut parser) {
        Ok(Some(cookie)) => {
            shown(row, &cookie);
            row.tell("compose_len", &cookie.compose_len())
        }
        Ok(None) => row.say("none"),
        Err(error) => row.debug(&error),
    }
    row.tell("left", &parser.remaining())
}

/// A server cookie's octets, their number, its text, and the standard server cookie that it is.
fn server_said(row: &mut Row<'_>, server: &ServerCookie) {
    let mut octets = Vec::new(row.alloc());
    row.keep(server.compose(row.alloc(), &mut octets));
    row.hexadecimal(&octets);
    row.tell("compose_len", &server.compose_len());
    row.quote(server);
    standard_part_said(row, server)
}

/// The parts of the standard server cookie that a server cookie is.
fn standard_part_said(row: &mut Row<'_>, server: &ServerCookie) {
    row.say("standard");
    match server.try_to_standard() {
        Some(standard) => {
            row.quote(&standard);
            row.tell("version", &standard.version());
            row.tell_octets("reserved", &standard.reserved());
            row.tell("timestamp", &standard.timestamp().into_int());
            row.tell_octets("hash", &standard.hash())
        }
        None => row.say("none"),
    }
}

/// The server cookie of a version, three octets, a timestamp and a hash that is set afterwards.
fn standard_server_cookie(row: &mut Row<'_>) {
    let version = row.number();
    let reserved = row.array::<3>();
    let timestamp = Serial(row.number());
    let mut standard = StandardServerCookie::new(version, reserved, timestamp, [0; 8]);
    standard.set_hash(row.array::<8>());
    server_said(row, &ServerCookie::from(standard))
}

impl Next for ServerCookie {
    /// The server cookie of the next word.
    fn next(row: &mut Row<'_>) -> ServerCookie {
        let octets = row.octets();
        if octets.len() < 8 || octets.len() > 32 {
            row.fail(RowError::OutOfForm);
            return ServerCookie::from_octets(&[0; 8]);
        }
        ServerCookie::from_octets(octets)
    }
}

impl Next for ClientCookie {
    /// The client cookie of the next word.
    fn next(row: &mut Row<'_>) -> ClientCookie {
        ClientCookie::from_octets(row.array())
    }
}
