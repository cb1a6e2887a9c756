//! A place in a slice.

ghost use Rattle.std.specs.Prelude.{◌≡◌, ◌+◌, ◌≤◌, length, take, slice_index, is_ok, IfOk, IfErr, OnOk, OnErr, ⊤};
ghost use Rattle.dns_name.specs.Place.{Place, TakesOctets, be16, moved, rest};

use crate::error::ParseError;
use std::alloc::AllocError;
use std::marker::Model;

/// A place in a slice, from which octets are read.
#[derive(Drop)]
pub struct Parser<'a> {
    octets: &'a [u8],
    at: usize,
}

impl<'a> Model for Parser<'a> {
    ghost use Rattle.std.specs.Prelude.{◌≤◌, length};
    ghost use Rattle.dns_name.specs.Place.{Place};

    ghost Value = { Place };

    ghost view = { λ p. record { octets = p.octets.now; at = p.at } };

    ghost invariant = { λ p. p.at ≤ length p.octets.now };
}

impl<'a> Clone for Parser<'a> {
    ghost is_clone = { λ parser copy. copy ≡ parser };

    ghost is_infallible = { λ _. ⊤ };

    fn clone(&self) -> Result<Parser<'a>, AllocError> {
        Ok(Parser {
            octets: self.octets,
            at: self.at,
        })
    }
}

impl<'a> Parser<'a> {
    /// The start of a slice.
    pub fn from_ref(octets: &'a [u8]) -> Parser<'a>
        ensures { result ≡ record { octets = octets.now; at = 0 } }
    {
        Parser { octets, at: 0 }
    }

    /// The whole slice, octets included that were taken already.
    pub fn as_slice(&self) -> &'a [u8]
        ensures value { result.now ≡ self.now.octets }
        ensures within { self.now.at ≤ length self.now.octets }
    {
        self.octets
    }

    /// What is left, which is not taken.
    pub fn peek_all(&self) -> &'a [u8]
        ensures { result.now ≡ rest self.now }
    {
        &self.octets[self.at..]
    }

    /// How many octets are left.
    pub fn remaining(&self) -> usize
        ensures { result ≡ length (rest self.now) }
    {
        self.octets.len() - self.at
    }

    /// How many octets lie before the place.
    pub fn pos(&self) -> usize
        ensures { result ≡ self.now.at }
    {
        self.at
    }

    /// Goes to a place of the slice.
    pub(crate) fn go_to(&mut self, at: usize)
        requires { at ≤ length self.old.octets }
        ensures { self.new ≡ record self.old { at = at } }
    {
        self.at = at;
    }

    /// Goes past that many octets.
    pub fn advance(&mut self, n: usize) -> Result<(), ParseError>
        ensures taken { TakesOctets n (is_ok result) self.old self.new }
        ensures err { IfErr result (λ e. e ≡ ParseError.ShortInput) }
    {
        if self.octets.len() - self.at < n {
            return Err(ParseError::ShortInput);
        }
        self.at += n;
        Ok(())
    }

    /// Goes past all that is left.
    pub fn advance_to_end(&mut self)
        ensures { self.new ≡ moved (length (rest self.old)) self.old }
    {
        self.at = self.octets.len();
    }

    /// Takes the next n octets. ShortInput if fewer are left, and then none is taken.
    pub fn parse_octets(&mut self, n: usize) -> Result<&'a [u8], ParseError>
        ensures ok { IfOk result (λ part. part.now ≡ take n (rest self.old)) }
        ensures taken { TakesOctets n (is_ok result) self.old self.new }
        ensures err { IfErr result (λ e. e ≡ ParseError.ShortInput) }
    {
        if self.octets.len() - self.at < n {
            return Err(ParseError::ShortInput);
        }
        let part = &self.octets[self.at..self.at + n];
        self.at += n;
        Ok(part)
    }

    /// Fills a buffer with the next octets; a refused call leaves the buffer.
    pub fn parse_buf(&mut self, buf: &mut [u8]) -> Result<(), ParseError>
        ensures ok { OnOk result (buf.new ≡ take (length buf.old) (rest self.old)) }
        ensures kept { OnErr result (buf.new ≡ buf.old) }
        ensures taken { TakesOctets (length buf.old) (is_ok result) self.old self.new }
        ensures err { IfErr result (λ e. e ≡ ParseError.ShortInput) }
    {
        let part = self.parse_octets(buf.len())?;
        buf.copy_from_slice(part);
        Ok(())
    }

    /// Takes the next octet. ShortInput if none is left.
    pub fn parse_u8(&mut self) -> Result<u8, ParseError>
        ensures ok { IfOk result (λ n. n ≡ slice_index (rest self.old) 0) }
        ensures taken { TakesOctets 1 (is_ok result) self.old self.new }
        ensures err { IfErr result (λ e. e ≡ ParseError.ShortInput) }
    {
        let part = self.parse_octets(1)?;
        Ok(part[0])
    }

    /// The next two octets, as a number in network order.
    pub fn parse_u16_be(&mut self) -> Result<u16, ParseError>
        ensures ok { IfOk result (λ n. n ≡ be16 (slice_index (rest self.old) 0) (slice_index (rest self.old) 1)) }
        ensures taken { TakesOctets 2 (is_ok result) self.old self.new }
        ensures err { IfErr result (λ e. e ≡ ParseError.ShortInput) }
    {
        let part = self.parse_octets(2)?;
        Ok(256 * part[0] as u16 + part[1] as u16)
    }

    /// A parser of the next octets alone.
    pub fn parse_parser(&mut self, n: usize) -> Result<Parser<'a>, ParseError>
        ensures ok { IfOk result (λ p. p ≡ record { octets = take n (rest self.old); at = 0 }) }
        ensures taken { TakesOctets n (is_ok result) self.old self.new }
        ensures err { IfErr result (λ e. e ≡ ParseError.ShortInput) }
    {
        let part = self.parse_octets(n)?;
        Ok(Parser::from_ref(part))
    }
}
