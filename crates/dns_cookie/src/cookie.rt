//! Cookies as clients send them and servers answer them (RFC 7873, section 4).

ghost use Rattle.std.specs.Prelude.{length, OnOk, OnErr, ◌++◌, ◌≡◌, Some};
ghost use Rattle.std.specs.Option.{option_copied};
ghost use Rattle.dns_name.specs.OptData.{ParsesData, for_code};
ghost use Rattle.dns_name.specs.Place.{rest};
ghost use Rattle.dns_cookie.specs.ClientCookie.{client_octets};
ghost use Rattle.dns_cookie.specs.CookieData.{IsCookie, cookie_data, cookie_octets};
ghost use Rattle.dns_cookie.specs.ReadBack.{cookie_again};
ghost use Rattle.dns_cookie.specs.Cookies.{cookie_text, standard_of, response, Checks, IsChecked};

use crate::client_cookie::ClientCookie;
use crate::server_cookie::ServerCookie;
use crate::standard_server_cookie::StandardServerCookie;
use dns_name::{
    ComposeOptData, IpAddr, OptData, OptionCode, OutOfMemory, ParseError, ParseOptData, Parser,
    ReadBack, Serial,
};
use std::alloc::Global;
use std::fmt;
use std::marker::Model;

/// A client cookie, and the server cookie that a server made of it.
///
/// Order is that of the client part first, and no server part is least.
#[derive(Clone, Copy, Debug, PartialEq, Eq, PartialOrd, Ord, Hash)]
pub struct Cookie {
    client: ClientCookie,
    server: Option<ServerCookie>,
}

impl Model for Cookie {
    ghost use Rattle.dns_cookie.specs.Cookies.{Cookie as Parts};

    ghost Value = { Parts };

    ghost use Rattle.dns_cookie.specs.ClientCookie.{client_octets, client_cookie_of};

    ghost view = { λ c. record { client = client_octets c.client; server = c.server } };

    ghost inverse = { λ c. record { client = client_cookie_of c.client; server = c.server } };
}

impl fmt::Display for Cookie {
    ghost output = { λ c. Some (cookie_text c.client c.server) };

    /// Writes the octets as upper-case hexadecimal digits.
    fn fmt<W: fmt::Write>(&self, f: &mut fmt::Formatter<W>) -> fmt::Result {
        match &self.server {
            Some(server) => {
                let client = &self.client;
                write!(f, "{client}{server}")
            }
            None => fmt::Display::fmt(&self.client, f),
        }
    }
}

impl Cookie {
    /// The cookie of these parts.
    pub fn new(client: ClientCookie, server: Option<ServerCookie>) -> Cookie
        ensures { result ≡ record { client = client_octets client; server = server } }
    {
        Cookie { client, server }
    }

    /// Reads a cookie, which is all that is left. A refused call leaves the parser.
    pub fn parse(parser: &mut Parser) -> Result<Cookie, ParseError>
        ensures { ParsesData (cookie_data (rest parser.old)) parser.old parser.new result }
    {
        let mut parts = Parser::from_ref(parser.peek_all());
        let client = ClientCookie::parse(&mut parts)?;
        let server = ServerCookie::parse_opt(&mut parts)?;
        parser.advance_to_end();
        Ok(Cookie::new(client, server))
    }

    /// The client cookie, eight octets.
    pub fn client(&self) -> ClientCookie
        ensures { client_octets result ≡ self.now.client }
    {
        self.client
    }

    /// The server part, if there is one.
    pub fn server(&self) -> Option<&ServerCookie>
        ensures { option_copied result ≡ self.now.server }
    {
        self.server.as_ref()
    }

    /// Whether this is a cookie that a server with this `secret` gave to this client: its server part
    /// is a standard server cookie, `timestamp_ok` accepts its timestamp, and its hash agrees.
    ///
    /// If it is false the request is as one without a server part (RFC 7873, section 5.2.3).
    pub fn check_server_hash<F: FnOnce(Serial) -> bool>(
        &self,
        client_ip: IpAddr,
        secret: &[u8; 16],
        timestamp_ok: F,
    ) -> bool
        requires { F.IsAlwaysCallable timestamp_ok }
        ensures { Checks (F.post timestamp_ok) secret.now client_ip self.now result }
    {
        match self.standard() {
            Some(standard) => {
                check_standard(standard, self.client, client_ip, secret, timestamp_ok)
            }
            None => false,
        }
    }

    /// The standard server cookie in the server part.
    fn standard(&self) -> Option<StandardServerCookie>
        ensures { result ≡ standard_of self.now.server }
    {
        self.server.as_ref()?.try_to_standard()
    }

    /// The cookie of a response to this client: its client part, and the standard server cookie of
    /// version 1 made of it at `timestamp`.
    pub fn create_response(&self, timestamp: Serial, client_ip: IpAddr, secret: &[u8; 16]) -> Cookie
        ensures { result ≡ response secret.now self.now timestamp.0 client_ip }
    {
        let standard = StandardServerCookie::calculate(self.client, timestamp, client_ip, secret);
        Cookie::new(self.client, Some(ServerCookie::from(standard)))
    }
}

impl OptData for Cookie {
    ghost code_of = { λ _. 10 };

    fn code(&self) -> OptionCode {
        OptionCode::COOKIE
    }
}

impl<'a> ParseOptData<'a> for Cookie {
    ghost takes = { for_code 10 cookie_data };

    fn parse_option(
        code: OptionCode,
        parser: &mut Parser<'a>,
    ) -> Result<Option<Cookie>, ParseError> {
        if code != OptionCode::COOKIE {
            return Ok(None);
        }
        Ok(Some(Cookie::parse(parser)?))
    }
}

impl ComposeOptData for Cookie {
    ghost octets = { cookie_octets };

    /// The number of octets: 8 without a server part, and at most 40.
    fn compose_len(&self) -> u16
        ensures value { result ≡ length (cookie_octets self.now) }
        ensures readable { IsCookie self.now }
    {
        match &self.server {
            Some(server) => self.client.compose_len() + server.compose_len(),
            None => self.client.compose_len(),
        }
    }

    /// Appends the octets to `target`, which is left as it was if memory runs out.
    fn compose_option(&self, alloc: Global, target: &mut Vec<u8>) -> Result<(), OutOfMemory> {
        let len = target.len();
        self.client.compose(alloc, target)?;
        if let Some(server) = &self.server {
            if let Err(e) = server.compose(alloc, target) {
                target.truncate(len);
                return Err(e);
            }
        }
        Ok(())
    }
}

impl<'a> ReadBack<'a> for Cookie {
    ghost is_readable = { IsCookie };

    ghost comes_back = { cookie_again };
}

/// Whether `timestamp_ok` accepts the timestamp and the hash agrees, which is computed only then.
fn check_standard<F: FnOnce(Serial) -> bool>(
    standard: StandardServerCookie,
    client: ClientCookie,
    client_ip: IpAddr,
    secret: &[u8; 16],
    timestamp_ok: F,
) -> bool
    requires { F.IsAlwaysCallable timestamp_ok }
    ensures { IsChecked (F.post timestamp_ok) secret.now (client_octets client) client_ip standard result }
{
    timestamp_ok(standard.timestamp()) && standard.check_hash(client, client_ip, secret)
}
