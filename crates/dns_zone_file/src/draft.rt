//! What a zone file says, entry by entry.

ghost use Rattle.std.specs.Prelude.{◌≡◌, IfOk, OnErr, OnOk, Some};
ghost use Rattle.dns_message.specs.Records.{IsLawful};
ghost use Rattle.dns_entries.specs.Reading.{Gives, some_or};
ghost use Rattle.dns_zone_file.specs.ZoneFile.{AreShaped, draft_begun, class_at, class_behind, directive, head, is_directive, is_ttl, moved_to, owned, place_of, entry_record, ttl_at, ttl_of, after_entry, after_record, soa_minimum, without};

use crate::record::{internet_record, shaped_data};
use dns_entries::{
    EntryReason, Word, ZoneFileError, first_word, nothing_more, refused, some_or, unless_at,
};
use dns_message::{Record, RecordData};
use dns_name::{Name, OutOfMemory};
use dns_presentation::{class_of, data_of, name_in, period_in, spells, type_in};
use std::alloc::Global;
use std::marker::Model;

/// Whether the first word is the class IN; another class is refused.
fn class_at(words: &[Word]) -> Result<bool, ZoneFileError>
    ensures { Gives (λ b. b) result (class_at words.now) }
{
    let [first, ..] = words else {
        return Ok(false);
    };
    if first.quoted {
        return Ok(false);
    }
    match class_of(first.octets.as_slice()) {
        None => Ok(false),
        Some(true) => Ok(true),
        Some(false) => Err(refused(first.line, EntryReason::Class)),
    }
}

/// Whether a word is a TTL.
fn is_ttl(word: &Word) -> bool
    ensures { result ≡ is_ttl word.now }
{
    if word.quoted {
        return false;
    }
    match word.octets.as_slice() {
        [first, ..] => first.is_ascii_digit(),
        [] => false,
    }
}

/// The TTL that words begin with, and the words after it.
fn ttl_at(words: &[Word]) -> Result<(Option<u32>, &[Word]), ZoneFileError>
    ensures { Gives (λ r. (r.0, r.1.now)) result (ttl_at words.now) }
{
    let [first, rest @ ..] = words else {
        return Ok((None, words));
    };
    if is_ttl(first) {
        let seconds = period_in(first)?;
        return Ok((Some(seconds), rest));
    }
    Ok((None, words))
}

/// The words, without the first if the test holds.
fn without(test: bool, words: &[Word]) -> &[Word]
    ensures { result.now ≡ without test words.now }
{
    match words {
        [_, rest @ ..] if test => rest,
        _ => words,
    }
}

/// Whether the class stands after the TTL.
fn class_behind(before: bool, words: &[Word]) -> Result<bool, ZoneFileError>
    ensures { Gives (λ b. b) result (class_behind before words.now) }
{
    if before {
        return Ok(false);
    }
    class_at(words)
}

/// The TTL that stands before a type, and the words from the type on.
#[tactic(auto, unfolding(crate::specs::ZoneFile::head))]
fn head(words: &[Word]) -> Result<(Option<u32>, &[Word]), ZoneFileError>
    ensures { Gives (λ r. (r.0, r.1.now)) result (head words.now) }
{
    let first = class_at(words)?;
    let (ttl, behind) = ttl_at(without(first, words))?;
    let last = class_behind(first, behind)?;
    Ok((ttl, without(last, behind)))
}

/// Whether an entry that begins with this word says something of those after it.
fn is_directive(word: &Word) -> bool
    ensures { result ≡ is_directive word.now }
{
    if word.quoted {
        return false;
    }
    match word.octets.as_slice() {
        [first, ..] => *first == b'$',
        [] => false,
    }
}

/// How long a negative answer may be kept, of a SOA record.
fn soa_minimum(rdata: &RecordData) -> Option<u32>
    ensures { result ≡ soa_minimum rdata.now }
{
    match rdata {
        RecordData::Soa { minimum, .. } => Some(minimum.as_secs()),
        _ => None,
    }
}

/// The place from which relative names and entries without an owner are read.
#[derive(Drop)]
pub struct ZonePlace {
    pub origin: Name,
    /// The last owner.
    pub owner: Option<Name>,
}

/// The records of a zone file so far, and what goes on for those that follow.
#[derive(Drop)]
pub struct ZoneDraft {
    origin: Name,
    default_ttl: Option<u32>,
    last_ttl: Option<u32>,
    owner: Option<Name>,
    records: Vec<Record>,
}

impl Model for ZoneDraft {
    ghost use Rattle.dns_zone_file.specs.ZoneFile.{AreShaped, ZoneDraft};

    ghost Value = { ZoneDraft };

    ghost view = { λ d. record {
      origin = d.origin;
      default_ttl = d.default_ttl;
      last_ttl = d.last_ttl;
      owner = d.owner;
      records = d.records.items;
    } };

    ghost invariant = { λ d. AreShaped d.records.items };
}

impl ZoneDraft {
    /// Nothing is said yet.
    pub fn new(alloc: Global, origin: Name) -> ZoneDraft
        ensures { result ≡ draft_begun origin }
    {
        ZoneDraft {
            origin,
            default_ttl: None,
            last_ttl: None,
            owner: None,
            records: Vec::new(alloc),
        }
    }

    /// The origin.
    pub fn origin(&self) -> &Name
        ensures { result.now ≡ self.now.origin }
    {
        &self.origin
    }

    /// The origin and the last owner.
    pub fn place(&self, alloc: Global) -> Result<ZonePlace, OutOfMemory>
        ensures { IfOk result (λ p. p ≡ place_of self.now) }
    {
        let origin = self.origin.try_clone(alloc)?;
        let owner = match &self.owner {
            Some(owner) => Some(owner.try_clone(alloc)?),
            None => None,
        };
        Ok(ZonePlace { origin, owner })
    }

    /// Goes on from another origin and another last owner. TTLs and records stay.
    pub fn move_to(&mut self, place: ZonePlace)
        ensures { self.new ≡ moved_to self.old place }
    {
        let ZonePlace { origin, owner } = place;
        self.origin = origin;
        self.owner = owner;
    }

    /// The records.
    pub fn into_records(self) -> Vec<Record>
        ensures value { result.items ≡ self.records }
        ensures shaped { AreShaped result.items }
    {
        let ZoneDraft {
            origin: _,
            default_ttl: _,
            last_ttl: _,
            owner: _,
            records,
        } = self;
        records
    }

    /// The TTL of a record.
    fn ttl_of(&self, own: Option<u32>, rdata: &RecordData) -> Option<u32>
        ensures { result ≡ ttl_of self.now own rdata.now }
    {
        if let Some(ttl) = own {
            return Some(ttl);
        }
        match (self.default_ttl, self.last_ttl) {
            (Some(ttl), _) => Some(ttl),
            (None, Some(ttl)) => Some(ttl),
            (None, None) => soa_minimum(rdata),
        }
    }

    /// The record of an entry.
    #[tactic(auto, unfolding(crate::specs::ZoneFile::entry_record))]
    fn entry_record(
        &self,
        alloc: Global,
        owner: &Name,
        line: u64,
        words: &[Word],
    ) -> Result<Record, ZoneFileError>
        ensures value { Gives (λ r. r) result (entry_record self.now owner.now line words.now) }
        ensures shaped { IfOk result (λ r. IsLawful r.rdata) }
    {
        let (own, behind) = head(words)?;
        let (word, behind) = first_word(line, behind)?;
        let rtype = type_in(word)?;
        let octets = data_of(alloc, &self.origin, word.line, line, rtype, behind)?;
        unless_at(word.line, EntryReason::Length, octets.len() <= 65535)?;
        let rdata = shaped_data(alloc, word.line, rtype, octets.as_slice())?;
        let ttl = some_or(word.line, EntryReason::NoTtl, self.ttl_of(own, &rdata))?;
        Ok(internet_record(owner.try_clone(alloc)?, ttl, rdata))
    }

    /// One record more.
    fn push(&mut self, owner: Name, resource: Record) -> Result<(), OutOfMemory>
        requires { IsLawful resource.rdata }
        ensures value { OnOk result (self.new ≡ after_record self.old owner resource) }
        ensures kept { OnErr result (self.new ≡ self.old) }
    {
        let ttl = resource.ttl.as_secs();
        self.records.push(resource)?;
        self.last_ttl = Some(ttl);
        self.owner = Some(owner);
        Ok(())
    }

    /// An entry with its owner.
    fn owned(
        &mut self,
        alloc: Global,
        line: u64,
        owner: Name,
        words: &[Word],
    ) -> Result<(), ZoneFileError>
        ensures value { Gives (λ u. self.new) result (owned self.old line owner words.now) }
        ensures kept { OnErr result (self.new ≡ self.old) }
    {
        let resource = self.entry_record(alloc, &owner, line, words)?;
        self.push(owner, resource)?;
        Ok(())
    }

    /// The last owner.
    fn last_owner(&self, alloc: Global, line: u64) -> Result<Name, ZoneFileError>
        ensures { Gives (λ n. n) result (some_or line EntryReason.NoOwner self.now.owner) }
    {
        match &self.owner {
            Some(owner) => Ok(owner.try_clone(alloc)?),
            None => Err(refused(line, EntryReason::NoOwner)),
        }
    }

    /// Goes on from another origin.
    pub fn set_origin(&mut self, origin: Name)
        ensures { self.new ≡ record self.old { origin = origin } }
    {
        self.origin = origin;
    }

    fn set_ttl(&mut self, ttl: u32)
        ensures { self.new ≡ record self.old { default_ttl = Some ttl } }
    {
        self.default_ttl = Some(ttl);
    }

    /// An entry that begins with `$`.
    #[tactic(auto, unfolding(crate::specs::ZoneFile::directive))]
    fn directive(
        &mut self,
        alloc: Global,
        line: u64,
        word: &Word,
        words: &[Word],
    ) -> Result<(), ZoneFileError>
        ensures value { Gives (λ u. self.new) result (directive self.old line word.now words.now) }
        ensures kept { OnErr result (self.new ≡ self.old) }
    {
        let octets = word.octets.as_slice();
        if spells(b"$origin", octets) {
            let (first, rest) = first_word(line, words)?;
            let origin = name_in(alloc, &self.origin, first)?;
            nothing_more(rest)?;
            self.set_origin(origin);
            return Ok(());
        }
        if spells(b"$ttl", octets) {
            let (first, rest) = first_word(line, words)?;
            let ttl = period_in(first)?;
            nothing_more(rest)?;
            self.set_ttl(ttl);
            return Ok(());
        }
        if spells(b"$include", octets) {
            return Err(refused(word.line, EntryReason::Include));
        }
        Err(refused(word.line, EntryReason::Directive))
    }

    /// Takes an entry more: the line that it ends on, whether it begins with a blank, and its words. After an error
    /// all is as it was.
    pub fn take_entry(
        &mut self,
        alloc: Global,
        line: u64,
        blank: bool,
        words: &[Word],
    ) -> Result<(), ZoneFileError>
        ensures value { Gives (λ u. self.new) result (after_entry self.old line blank words.now) }
        ensures kept { OnErr result (self.new ≡ self.old) }
    {
        let [first, rest @ ..] = words else {
            return Ok(());
        };
        if blank {
            let owner = self.last_owner(alloc, first.line)?;
            return self.owned(alloc, line, owner, words);
        }
        if is_directive(first) {
            return self.directive(alloc, line, first, rest);
        }
        let owner = name_in(alloc, &self.origin, first)?;
        self.owned(alloc, line, owner, rest)
    }
}
