//! Service parameters.

ghost use Rattle.std.specs.Prelude.{◌≡◌, ◌≤◌, IfOk, Ok, length};
ghost use Rattle.dns_entries.specs.Reading.{Gives};
ghost use Rattle.dns_presentation.specs.ServiceParams.{bare_param, equals_at, has_key, no_params, one_param, param_ended, param_of, params_after, params_octets, place_of, quoted_value, value_behind, with_param, with_value};

use crate::fields::{push, string_in};
use crate::param_values::{param_key, param_value};
use dns_entries::{EntryReason, Word, ZoneFileError, refused, some_or, unless_at};
use dns_word_values::string;
use std::alloc::{AllocError, Global};
use std::marker::Model;

/// Where the first `=` is, or else the end.
fn equals_at(word: &[u8]) -> usize
    ensures value { result ≡ equals_at word.now }
    ensures within { result ≤ length word.now }
{
    let mut at = 0;
    for octet in word {
        if *octet == b'=' {
            return at;
        }
        at += 1;
    }
    at
}

/// A parameter: its key, and its octets.
#[derive(Drop)]
struct Param {
    key: u16,
    octets: Vec<u8>,
}

impl Model for Param {
    ghost use Rattle.dns_presentation.specs.ServiceParams.{Param};

    ghost Value = { Param };

    ghost view = { λ p. record { key = p.key; octets = p.octets.items } };
}

impl Param {
    /// A key, the length of its value and the value.
    fn new(alloc: Global, key: u16, value: &[u8]) -> Result<Param, AllocError>
        requires { length value.now ≤ 65535 }
        ensures { IfOk result (λ p. p ≡ param_of key value.now) }
    {
        let size = value.len() as u16;
        let head = [
            (key / 256) as u8,
            (key % 256) as u8,
            (size / 256) as u8,
            (size % 256) as u8,
        ];
        let mut octets = Vec::from_slice(alloc, &head)?;
        octets.extend_from_slice(value)?;
        Ok(Param { key, octets })
    }
}

/// Parameters as far as they are read, by their keys.
#[derive(Drop)]
struct Params {
    list: Vec<Param>,
    opened: Option<u16>,
}

impl Model for Params {
    ghost use Rattle.dns_presentation.specs.ServiceParams.{Params};

    ghost Value = { Params };

    ghost view = { λ p. record { list = p.list.items; opened = p.opened } };
}

impl Params {
    /// None.
    fn new(alloc: Global) -> Params
        ensures { result ≡ no_params }
    {
        Params {
            list: Vec::new(alloc),
            opened: None,
        }
    }

    /// Whether a key stands among them.
    fn has_key(&self, key: u16) -> bool
        ensures { result ≡ has_key key self.now.list }
    {
        for param in &self.list {
            if param.key == key {
                return true;
            }
        }
        false
    }

    /// Where a key belongs.
    fn place_of(&self, key: u16) -> usize
        ensures value { result ≡ place_of key self.now.list }
        ensures within { result ≤ length self.now.list }
    {
        let mut at = 0;
        for param in &self.list {
            if key < param.key {
                return at;
            }
            at += 1;
        }
        at
    }

    /// A parameter more.
    #[tactic(auto, unfolding(crate::specs::ServiceParams::with_param))]
    fn add(&mut self, alloc: Global, line: u64, key: u16, value: &[u8]) -> Result<(), ZoneFileError>
        ensures { Gives (λ u. self.new) result (with_param line self.old key value.now) }
    {
        unless_at(line, EntryReason::Repeated, !self.has_key(key))?;
        let found = param_value(alloc, key, value)?;
        let octets = some_or(line, EntryReason::Parameter, found)?;
        unless_at(line, EntryReason::Length, octets.len() <= 65535)?;
        self.insert(alloc, key, octets.as_slice())
    }

    /// Takes a key and the octets of its value in.
    fn insert(&mut self, alloc: Global, key: u16, value: &[u8]) -> Result<(), ZoneFileError>
        requires { length value.now ≤ 65535 }
        ensures { Gives (λ u. self.new) result (Ok (with_value self.old key value.now)) }
    {
        let at = self.place_of(key);
        let param = Param::new(alloc, key, value)?;
        self.list.insert(at, param)?;
        self.opened = None;
        Ok(())
    }

    /// A key that no value in quotes follows has none.
    fn end(&mut self, alloc: Global, line: u64) -> Result<(), ZoneFileError>
        ensures { Gives (λ u. self.new) result (param_ended line self.old) }
    {
        match self.opened {
            Some(key) => self.add(alloc, line, key, b""),
            None => Ok(()),
        }
    }

    /// A value in quotes.
    fn take_quoted(&mut self, alloc: Global, word: &Word) -> Result<(), ZoneFileError>
        ensures { Gives (λ u. self.new) result (quoted_value self.old word.now self.old.opened) }
    {
        let Some(key) = self.opened else {
            return Err(refused(word.line, EntryReason::Quoted));
        };
        let value = string_in(alloc, word)?;
        self.add(alloc, word.line, key, value.as_slice())
    }

    /// What stands from the `=` on.
    fn take_value(
        &mut self,
        alloc: Global,
        line: u64,
        key: u16,
        rest: &[u8],
    ) -> Result<(), ZoneFileError>
        ensures { Gives (λ u. self.new) result (value_behind line self.old key rest.now) }
    {
        match rest {
            [] => self.add(alloc, line, key, b""),
            [_] => {
                self.opened = Some(key);
                Ok(())
            }
            [_, text @ ..] => {
                let found = string(alloc, text)?;
                let value = some_or(line, EntryReason::Escape, found)?;
                self.add(alloc, line, key, value.as_slice())
            }
        }
    }

    /// A key, with a value or without.
    fn take_bare(&mut self, alloc: Global, word: &Word) -> Result<(), ZoneFileError>
        ensures { Gives (λ u. self.new) result (bare_param self.old word.now) }
    {
        self.end(alloc, word.line)?;
        let octets = word.octets.as_slice();
        let at = equals_at(octets);
        let key = some_or(word.line, EntryReason::Parameter, param_key(&octets[..at]))?;
        self.take_value(alloc, word.line, key, &octets[at..])
    }

    /// A word more.
    fn take(&mut self, alloc: Global, word: &Word) -> Result<(), ZoneFileError>
        ensures { Gives (λ u. self.new) result (one_param self.old word.now) }
    {
        if word.quoted {
            return self.take_quoted(alloc, word);
        }
        self.take_bare(alloc, word)
    }
}

/// The parameters of words.
fn params_of(alloc: Global, words: &[Word]) -> Result<Params, ZoneFileError>
    ensures { Gives (λ p. p) result (params_after no_params words.now) }
{
    let mut params = Params::new(alloc);
    for word in words {
        params.take(alloc, word)?;
    }
    Ok(params)
}

/// The octets of the parameters that words are, in an entry that ends on a line.
pub(crate) fn params_octets(
    alloc: Global,
    line: u64,
    words: &[Word],
) -> Result<Vec<u8>, ZoneFileError>
    ensures { Gives (λ v. v.items) result (params_octets line words.now) }
{
    let mut params = params_of(alloc, words)?;
    params.end(alloc, line)?;
    let mut octets = Vec::new(alloc);
    for param in &params.list {
        push(&mut octets, param.octets.as_slice())?;
    }
    Ok(octets)
}
