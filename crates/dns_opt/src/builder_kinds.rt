//! Options of each kind for an OPT record under construction.

ghost use Rattle.std.specs.Prelude.{◌≡◌, [], replicate};
ghost use Rattle.std.specs.Option.{option_copied};
ghost use Rattle.dns_name.specs.Labels.{spell};
ghost use Rattle.dns_kinds.specs.Extended.{extended, extended_octets};
ghost use Rattle.dns_kinds.specs.Subnet.{within_address, subnet_octets};
ghost use Rattle.dns_kinds.specs.Timers.{expire_octets, keepalive_octets};
ghost use Rattle.dns_cookie.specs.CookieData.{cookie_octets};
ghost use Rattle.dns_opt.specs.Drafts.{Cloned, PushedIn};

use crate::builder::OptBuilder;
use crate::record::OptRecordRef;
use crate::written::{Numbers, Zeros};
use dns_algs::{DauVariant, DhuVariant, N3uVariant, Variant};
use dns_cookie::Cookie;
use dns_kinds::{ChainRef, ClientSubnet, Expire, ExtendedErrorRef, IdleTimeout, TcpKeepalive};
use dns_lists::{KeyTagRef, NsidRef};
use dns_name::{BuildDataError, ExtendedErrorCode, IpAddr, Name, SecurityAlgorithm};
use std::alloc::Global;

impl OptBuilder {
    fn understood<K: Variant>(
        &mut self,
        alloc: Global,
        algorithms: &[SecurityAlgorithm],
    ) -> Result<(), BuildDataError>
        ensures { PushedIn K.number algorithms.now self.old self.new result }
    {
        let numbers = Numbers::<K>::of(algorithms)?;
        self.push(alloc, &numbers)
    }

    /// Appends the DNSSEC algorithms that are understood (RFC 6975).
    pub fn dau(
        &mut self,
        alloc: Global,
        algorithms: &[SecurityAlgorithm],
    ) -> Result<(), BuildDataError>
        ensures { PushedIn 5 algorithms.now self.old self.new result }
    {
        self.understood::<DauVariant>(alloc, algorithms)
    }

    /// Appends the DS hash algorithms that are understood (RFC 6975).
    pub fn dhu(
        &mut self,
        alloc: Global,
        algorithms: &[SecurityAlgorithm],
    ) -> Result<(), BuildDataError>
        ensures { PushedIn 6 algorithms.now self.old self.new result }
    {
        self.understood::<DhuVariant>(alloc, algorithms)
    }

    /// Appends the NSEC3 hash algorithms that are understood (RFC 6975).
    pub fn n3u(
        &mut self,
        alloc: Global,
        algorithms: &[SecurityAlgorithm],
    ) -> Result<(), BuildDataError>
        ensures { PushedIn 7 algorithms.now self.old self.new result }
    {
        self.understood::<N3uVariant>(alloc, algorithms)
    }

    /// Appends the closest trusted name (RFC 7901).
    pub fn chain(&mut self, alloc: Global, start: &Name) -> Result<(), BuildDataError>
        ensures { PushedIn 13 (spell start.now) self.old self.new result }
    {
        self.push(alloc, &ChainRef::new(start.for_ref()))
    }

    /// Appends a cookie (RFC 7873).
    pub fn cookie(&mut self, alloc: Global, cookie: Cookie) -> Result<(), BuildDataError>
        ensures { PushedIn 10 (cookie_octets cookie) self.old self.new result }
    {
        self.push(alloc, &cookie)
    }

    /// Appends the expiry of a zone in seconds (RFC 7314).
    pub fn expire(&mut self, alloc: Global, expire: Option<u32>) -> Result<(), BuildDataError>
        ensures { PushedIn 9 (expire_octets expire) self.old self.new result }
    {
        self.push(alloc, &Expire::new(expire))
    }

    /// Appends an extended error (RFC 8914).
    pub fn extended_error(
        &mut self,
        alloc: Global,
        code: ExtendedErrorCode,
        text: Option<&str>,
    ) -> Result<(), BuildDataError>
        ensures { PushedIn 15 (extended_octets (extended code (option_copied text.entry))) self.old self.new result }
    {
        let octets = match text {
            Some(text) => Some(text.as_bytes()),
            None => None,
        };
        let error = ExtendedErrorRef::new(code, octets)?;
        self.push(alloc, &error)
    }

    /// Appends a keepalive (RFC 7828).
    pub fn tcp_keepalive(
        &mut self,
        alloc: Global,
        timeout: Option<IdleTimeout>,
    ) -> Result<(), BuildDataError>
        ensures { PushedIn 11 (keepalive_octets timeout) self.old self.new result }
    {
        self.push(alloc, &TcpKeepalive::new(timeout))
    }

    /// Appends key tags (RFC 8145).
    pub fn key_tag(&mut self, alloc: Global, tags: &KeyTagRef<'_>) -> Result<(), BuildDataError>
        ensures { PushedIn 14 tags.now self.old self.new result }
    {
        self.push(alloc, tags)
    }

    /// Appends a name server identifier (RFC 5001).
    pub fn nsid(&mut self, alloc: Global, octets: &[u8]) -> Result<(), BuildDataError>
        ensures { PushedIn 3 octets.now self.old self.new result }
    {
        let identifier = NsidRef::from_slice(octets)?;
        self.push(alloc, &identifier)
    }

    /// Appends a client's request for the name server identifier.
    pub fn client_nsid(&mut self, alloc: Global) -> Result<(), BuildDataError>
        ensures { PushedIn 3 [] self.old self.new result }
    {
        self.nsid(alloc, &[])
    }

    /// Appends a client subnet (RFC 7871), its prefixes limited and its address masked.
    pub fn client_subnet(
        &mut self,
        alloc: Global,
        source_prefix_len: u8,
        scope_prefix_len: u8,
        addr: IpAddr,
    ) -> Result<(), BuildDataError>
        ensures { PushedIn 8 (subnet_octets (within_address source_prefix_len scope_prefix_len addr)) self.old self.new result }
    {
        let subnet = ClientSubnet::new(source_prefix_len, scope_prefix_len, addr);
        self.push(alloc, &subnet)
    }

    /// Appends padding of that many zeros (RFC 7830).
    pub fn padding(&mut self, alloc: Global, len: u16) -> Result<(), BuildDataError>
        ensures { PushedIn 12 (replicate len 0) self.old self.new result }
    {
        self.push(alloc, &Zeros { len })
    }

    /// Takes head and options of another OPT record in place of its own. A refused call leaves the record.
    pub fn clone_from(
        &mut self,
        alloc: Global,
        source: &OptRecordRef<'_>,
    ) -> Result<(), BuildDataError>
        ensures { Cloned source.now self.old self.new result }
    {
        let options = source.opt();
        if self.room < options.len() + 11 {
            return Err(BuildDataError::ShortBuf);
        }
        self.options = options.to_owned(alloc)?;
        self.head = source.head();
        Ok(())
    }
}
