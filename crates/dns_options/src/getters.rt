//! The first option of each kind.

ghost use Rattle.std.specs.Prelude.{◌≡◌};
ghost use Rattle.dns_name.specs.OptData.{for_code, list_data};
ghost use Rattle.dns_lists.specs.Tags.{tag_data};
ghost use Rattle.dns_kinds.specs.Chains.{chain_data};
ghost use Rattle.dns_kinds.specs.Extended.{extended_data};
ghost use Rattle.dns_kinds.specs.Subnet.{subnet_data};
ghost use Rattle.dns_kinds.specs.Timers.{expire_data, keepalive_data};
ghost use Rattle.dns_cookie.specs.CookieData.{cookie_data};
ghost use Rattle.dns_option_list.specs.Items.{first_ok, items_of};

use crate::list::OptRef;
use crate::opt::Opt;
use dns_algs::{DauRef, DhuRef, N3uRef};
use dns_cookie::Cookie;
use dns_kinds::{ChainRef, ClientSubnet, Expire, ExtendedErrorRef, TcpKeepalive};
use dns_lists::{KeyTagRef, NsidRef, PaddingRef};

impl<'a> OptRef<'a> {
    /// The first understood DNSSEC algorithms (RFC 6975); none if it is refused.
    pub fn dau(&self) -> Option<DauRef<'a>>
        ensures { result ≡ first_ok (items_of (for_code 5 list_data) self.now) }
    {
        self.first::<DauRef<'a>>()
    }

    /// The first understood DS hash algorithms (RFC 6975); none if it is refused.
    pub fn dhu(&self) -> Option<DhuRef<'a>>
        ensures { result ≡ first_ok (items_of (for_code 6 list_data) self.now) }
    {
        self.first::<DhuRef<'a>>()
    }

    /// The first understood NSEC3 hash algorithms (RFC 6975); none if it is refused.
    pub fn n3u(&self) -> Option<N3uRef<'a>>
        ensures { result ≡ first_ok (items_of (for_code 7 list_data) self.now) }
    {
        self.first::<N3uRef<'a>>()
    }

    /// The first closest trusted name (RFC 7901); none if it is refused.
    pub fn chain(&self) -> Option<ChainRef<'a>>
        ensures { result ≡ first_ok (items_of (for_code 13 chain_data) self.now) }
    {
        self.first::<ChainRef<'a>>()
    }

    /// The first cookie (RFC 7873); none if it is refused.
    pub fn cookie(&self) -> Option<Cookie>
        ensures { result ≡ first_ok (items_of (for_code 10 cookie_data) self.now) }
    {
        self.first::<Cookie>()
    }

    /// The first expiry of a zone (RFC 7314); none if it is refused.
    pub fn expire(&self) -> Option<Expire>
        ensures { result ≡ first_ok (items_of (for_code 9 expire_data) self.now) }
    {
        self.first::<Expire>()
    }

    /// The first extended error (RFC 8914); none if it is refused.
    pub fn extended_error(&self) -> Option<ExtendedErrorRef<'a>>
        ensures { result ≡ first_ok (items_of (for_code 15 extended_data) self.now) }
    {
        self.first::<ExtendedErrorRef<'a>>()
    }

    /// The first keepalive (RFC 7828); none if it is refused.
    pub fn tcp_keepalive(&self) -> Option<TcpKeepalive>
        ensures { result ≡ first_ok (items_of (for_code 11 keepalive_data) self.now) }
    {
        self.first::<TcpKeepalive>()
    }

    /// The first key tags (RFC 8145); none if it is refused.
    pub fn key_tag(&self) -> Option<KeyTagRef<'a>>
        ensures { result ≡ first_ok (items_of (for_code 14 tag_data) self.now) }
    {
        self.first::<KeyTagRef<'a>>()
    }

    /// The first name server identifier (RFC 5001); none if it is refused.
    pub fn nsid(&self) -> Option<NsidRef<'a>>
        ensures { result ≡ first_ok (items_of (for_code 3 list_data) self.now) }
    {
        self.first::<NsidRef<'a>>()
    }

    /// The first padding (RFC 7830); none if it is refused.
    pub fn padding(&self) -> Option<PaddingRef<'a>>
        ensures { result ≡ first_ok (items_of (for_code 12 list_data) self.now) }
    {
        self.first::<PaddingRef<'a>>()
    }

    /// The first client subnet (RFC 7871); none if it is refused.
    pub fn client_subnet(&self) -> Option<ClientSubnet>
        ensures { result ≡ first_ok (items_of (for_code 8 subnet_data) self.now) }
    {
        self.first::<ClientSubnet>()
    }
}

impl Opt {
    /// The first understood DNSSEC algorithms (RFC 6975); none if it is refused.
    pub fn dau(&self) -> Option<DauRef<'_>>
        ensures { result ≡ first_ok (items_of (for_code 5 list_data) self.now) }
    {
        self.for_slice_ref().dau()
    }

    /// The first understood DS hash algorithms (RFC 6975); none if it is refused.
    pub fn dhu(&self) -> Option<DhuRef<'_>>
        ensures { result ≡ first_ok (items_of (for_code 6 list_data) self.now) }
    {
        self.for_slice_ref().dhu()
    }

    /// The first understood NSEC3 hash algorithms (RFC 6975); none if it is refused.
    pub fn n3u(&self) -> Option<N3uRef<'_>>
        ensures { result ≡ first_ok (items_of (for_code 7 list_data) self.now) }
    {
        self.for_slice_ref().n3u()
    }

    /// The first closest trusted name (RFC 7901); none if it is refused.
    pub fn chain(&self) -> Option<ChainRef<'_>>
        ensures { result ≡ first_ok (items_of (for_code 13 chain_data) self.now) }
    {
        self.for_slice_ref().chain()
    }

    /// The first cookie (RFC 7873); none if it is refused.
    pub fn cookie(&self) -> Option<Cookie>
        ensures { result ≡ first_ok (items_of (for_code 10 cookie_data) self.now) }
    {
        self.for_slice_ref().cookie()
    }

    /// The first expiry of a zone (RFC 7314); none if it is refused.
    pub fn expire(&self) -> Option<Expire>
        ensures { result ≡ first_ok (items_of (for_code 9 expire_data) self.now) }
    {
        self.for_slice_ref().expire()
    }

    /// The first extended error (RFC 8914); none if it is refused.
    pub fn extended_error(&self) -> Option<ExtendedErrorRef<'_>>
        ensures { result ≡ first_ok (items_of (for_code 15 extended_data) self.now) }
    {
        self.for_slice_ref().extended_error()
    }

    /// The first keepalive (RFC 7828); none if it is refused.
    pub fn tcp_keepalive(&self) -> Option<TcpKeepalive>
        ensures { result ≡ first_ok (items_of (for_code 11 keepalive_data) self.now) }
    {
        self.for_slice_ref().tcp_keepalive()
    }

    /// The first key tags (RFC 8145); none if it is refused.
    pub fn key_tag(&self) -> Option<KeyTagRef<'_>>
        ensures { result ≡ first_ok (items_of (for_code 14 tag_data) self.now) }
    {
        self.for_slice_ref().key_tag()
    }

    /// The first name server identifier (RFC 5001); none if it is refused.
    pub fn nsid(&self) -> Option<NsidRef<'_>>
        ensures { result ≡ first_ok (items_of (for_code 3 list_data) self.now) }
    {
        self.for_slice_ref().nsid()
    }

    /// The first padding (RFC 7830); none if it is refused.
    pub fn padding(&self) -> Option<PaddingRef<'_>>
        ensures { result ≡ first_ok (items_of (for_code 12 list_data) self.now) }
    {
        self.for_slice_ref().padding()
    }

    /// The first client subnet (RFC 7871); none if it is refused.
    pub fn client_subnet(&self) -> Option<ClientSubnet>
        ensures { result ≡ first_ok (items_of (for_code 8 subnet_data) self.now) }
    {
        self.for_slice_ref().client_subnet()
    }
}
