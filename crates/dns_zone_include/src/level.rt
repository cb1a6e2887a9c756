//! A text that is read, and those that it includes.

ghost use Rattle.std.specs.Prelude.{◌≡◌, ◌+◌, ◌-◌, ◌<◌, ◌≤◌, ◌^◌, ◌++◌, ◌∷◌, [], IfOk, OnOk, length};
ghost use Rattle.dns_entries.specs.Entries.{after_octet, line_behind};
ghost use Rattle.dns_zone_file.specs.ZoneFile.{AreShaped, closed};
ghost use Rattle.dns_zone_include.specs.Including.{entry_of, include_of, included, inclusion_in, is_open, octet_of, octets_of, one_text, some_text, text_of, unless_open, zone_including};
ghost use Rattle.dns_zone_include.specs.Refusals.{GivesIn, in_text};

use crate::inclusion::{Inclusion, behind_first, inclusion_in};
use crate::refusal::{IncludeError, IncludeReason, is_include, refusal};
use crate::texts::ZoneTexts;
use dns_entries::{Scan, Word, ZoneFileError};
use dns_message::Record;
use dns_name::{Name, Octets, OutOfMemory};
use dns_zone_file::{ZoneDraft, closed};
use std::alloc::Global;

/// How many levels deep texts may be included in one another.
pub const MOST_LEVELS: usize = 16;

/// The text that is read, among those that may be included.
#[derive(Drop)]
struct Level<'a, T: ZoneTexts> {
    alloc: Global,
    texts: &'a T,
    /// How many levels more may be included.
    levels: usize,
    /// The names of the texts that are being read.
    names: &'a [Octets],
    /// The name of this text.
    name: &'a [u8],
}

/// Takes an octet of the text of this name, and says whether the entry is whole.
#[tactic(auto, using(crate::proofs::Refusals::refused_in))]
fn take_octet(alloc: Global, name: &[u8], scan: &mut Scan, octet: u8) -> Result<bool, IncludeError>
    requires { scan.old.line + 1 < 2 ^ 64 }
    ensures line { IfOk result (λ whole. line_behind scan.new whole ≤ scan.old.line + 1) }
    ensures value { GivesIn (λ whole. (scan.new, whole)) result (in_text name.now (after_octet scan.old octet)) }
{
    match scan.take(alloc, octet) {
        Ok(whole) => Ok(whole),
        Err(ZoneFileError::Refused { line, reason }) => {
            Err(refusal(alloc, name, line, IncludeReason::Entry(reason)))
        }
        Err(ZoneFileError::OutOfMemory) => Err(IncludeError::OutOfMemory),
    }
}

/// No parenthesis of the text of this name is open.
#[tactic(auto, using(crate::proofs::Refusals::refused_in))]
fn all_closed(alloc: Global, name: &[u8], opened: Option<u64>) -> Result<(), IncludeError>
    ensures { GivesIn (λ u. u) result (in_text name.now (closed opened)) }
{
    match closed(opened) {
        Ok(()) => Ok(()),
        Err(ZoneFileError::Refused { line, reason }) => {
            Err(refusal(alloc, name, line, IncludeReason::Entry(reason)))
        }
        Err(ZoneFileError::OutOfMemory) => Err(IncludeError::OutOfMemory),
    }
}

/// What an entry of the text of this name includes.
#[tactic(auto, using(crate::proofs::Refusals::refused_in))]
fn asked_for(
    alloc: Global,
    name: &[u8],
    origin: &Name,
    line: u64,
    words: &[Word],
) -> Result<Inclusion, IncludeError>
    ensures { GivesIn (λ i. i) result (in_text name.now (inclusion_in origin.now line words.now)) }
{
    match inclusion_in(alloc, origin, line, words) {
        Ok(inclusion) => Ok(inclusion),
        Err(ZoneFileError::Refused { line, reason }) => {
            Err(refusal(alloc, name, line, IncludeReason::Entry(reason)))
        }
        Err(ZoneFileError::OutOfMemory) => Err(IncludeError::OutOfMemory),
    }
}

/// Copies names, and one after them.
fn names_with(alloc: Global, names: &[Octets], name: &[u8]) -> Result<Vec<Octets>, OutOfMemory>
    ensures { IfOk result (λ all. all.items ≡ names.now ++ name.now ∷ []) }
{
    let mut all = Vec::with_capacity(alloc, names.len() + 1)?;
    for other in names {
        all.push(Octets::from_slice(alloc, other.as_slice())?)?;
    }
    all.push(Octets::from_slice(alloc, name)?)?;
    Ok(all)
}

/// Whether the text of this name is one of these, which are being read.
fn is_open(names: &[Octets], wanted: &[u8]) -> bool
    ensures { result ≡ is_open names.now wanted.now }
{
    names.iter().any(|name| name.as_slice() == wanted)
}

impl<T: ZoneTexts> Level<'_, T> {
    /// The text that is to be included isn't being read.
    #[tactic(auto, using(crate::proofs::Refusals::refused_so))]
    fn unless_open(&self, inclusion: &Inclusion) -> Result<(), IncludeError>
        ensures { GivesIn (λ u. u) result (unless_open self.now.names.now self.now.name.now inclusion.now) }
    {
        if is_open(self.names, inclusion.name.as_slice()) {
            return Err(refusal(self.alloc, self.name, inclusion.line, IncludeReason::Loop));
        }
        Ok(())
    }

    /// The text that is to be included.
    #[tactic(auto, using(crate::proofs::Refusals::refused_so))]
    fn some_text(&self, inclusion: &Inclusion) -> Result<&[u8], IncludeError>
        ensures { let found = T.texts self.now.texts.now inclusion.now.name in
            GivesIn (λ text. text.now) result (some_text self.now.name.now inclusion.now found) }
    {
        let wanted = inclusion.name.as_slice();
        match self.texts.text_named(wanted) {
            Some(text) => Ok(text),
            None => {
                let name = Octets::from_slice(self.alloc, wanted)?;
                Err(refusal(
                    self.alloc,
                    self.name,
                    inclusion.line,
                    IncludeReason::NoText(name),
                ))
            }
        }
    }

    /// Reads the text that is included.
    #[cycle(texts)]
    #[tactic(auto, unfolding(crate::specs::Including::one_text))]
    fn one_text(&self, draft: &mut ZoneDraft, inclusion: Inclusion) -> Result<(), IncludeError>
        requires { 0 < self.now.levels }
        ensures { let texts = T.texts self.now.texts.now in
            let below = included texts (self.now.levels - 1) in
            GivesIn (λ u. draft.new) result (one_text texts below self.now.names.now self.now.name.now draft.old inclusion) }
    {
        self.unless_open(&inclusion)?;
        let text = self.some_text(&inclusion)?;
        let before = draft.place(self.alloc)?;
        let Inclusion {
            name,
            line: _,
            origin,
        } = inclusion;
        let names = names_with(self.alloc, self.names, name.as_slice())?;
        draft.set_origin(origin);
        let level = Level {
            alloc: self.alloc,
            texts: self.texts,
            levels: self.levels - 1,
            names: names.as_slice(),
            name: name.as_slice(),
        };
        level.text_of(draft, text)?;
        draft.move_to(before);
        Ok(())
    }

    /// Reads the text that is included, if it isn't included too deep.
    #[cycle(texts)]
    #[tactic(auto, using(crate::proofs::Refusals::refused_so, crate::proofs::Levels::included_none, crate::proofs::Levels::deeper))]
    fn included(&self, draft: &mut ZoneDraft, inclusion: Inclusion) -> Result<(), IncludeError>
        ensures { let include = included (T.texts self.now.texts.now) self.now.levels self.now.names.now self.now.name.now in
            GivesIn (λ u. draft.new) result (include draft.old inclusion) }
    {
        if self.levels == 0 {
            return Err(refusal(self.alloc, self.name, inclusion.line, IncludeReason::Depth));
        }
        self.one_text(draft, inclusion)
    }

    /// Reads the text that an entry includes.
    #[cycle(texts)]
    #[tactic(auto, using(crate::proofs::Refusals::fails_on))]
    fn include_of(
        &self,
        draft: &mut ZoneDraft,
        line: u64,
        words: &[Word],
    ) -> Result<(), IncludeError>
        ensures { let include = included (T.texts self.now.texts.now) self.now.levels self.now.names.now self.now.name.now in
            GivesIn (λ u. draft.new) result (include_of self.now.name.now include draft.old line words.now) }
    {
        let behind = behind_first(words);
        let inclusion = asked_for(self.alloc, self.name, draft.origin(), line, behind)?;
        self.included(draft, inclusion)
    }

    /// Reads an entry.
    #[cycle(texts)]
    #[tactic(auto, using(crate::proofs::Refusals::refused_so, crate::proofs::Refusals::gives_along, crate::proofs::Entries::entry_taken, crate::proofs::Entries::entry_refused, crate::proofs::Entries::entry_asks))]
    fn entry_of(
        &self,
        draft: &mut ZoneDraft,
        line: u64,
        blank: bool,
        words: &[Word],
    ) -> Result<(), IncludeError>
        ensures { let include = included (T.texts self.now.texts.now) self.now.levels self.now.names.now self.now.name.now in
            GivesIn (λ u. draft.new) result (entry_of self.now.name.now include draft.old line blank words.now) }
    {
        match draft.take_entry(self.alloc, line, blank, words) {
            Ok(()) => Ok(()),
            Err(ZoneFileError::Refused { line: at, reason }) => {
                if is_include(reason) {
                    return self.include_of(draft, line, words);
                }
                Err(refusal(self.alloc, self.name, at, IncludeReason::Entry(reason)))
            }
            Err(ZoneFileError::OutOfMemory) => Err(IncludeError::OutOfMemory),
        }
    }

    /// Reads an octet.
    #[cycle(texts)]
    fn octet_of(
        &self,
        scan: &mut Scan,
        draft: &mut ZoneDraft,
        octet: u8,
    ) -> Result<(), IncludeError>
        requires { scan.old.line + 1 < 2 ^ 64 }
        ensures value { let include = included (T.texts self.now.texts.now) self.now.levels self.now.names.now self.now.name.now in
            GivesIn (λ u. (scan.new, draft.new)) result (octet_of self.now.name.now include scan.old draft.old octet) }
        ensures line { OnOk result (scan.new.line ≤ scan.old.line + 1) }
    {
        if !take_octet(self.alloc, self.name, scan, octet)? {
            return Ok(());
        }
        self.entry_of(draft, scan.line, scan.blank, scan.words.as_slice())?;
        let behind = scan.line + 1;
        scan.restart(behind);
        Ok(())
    }

    /// Reads octets.
    #[cycle(texts)]
    fn octets_of(
        &self,
        scan: &mut Scan,
        draft: &mut ZoneDraft,
        text: &[u8],
    ) -> Result<(), IncludeError>
        requires { scan.old.line + length text.now < 2 ^ 64 }
        ensures value { let include = included (T.texts self.now.texts.now) self.now.levels self.now.names.now self.now.name.now in
            GivesIn (λ u. (scan.new, draft.new)) result (octets_of self.now.name.now include scan.old draft.old text.now) }
        ensures line { OnOk result (scan.new.line ≤ scan.old.line + length text.now) }
    {
        for octet in text {
            self.octet_of(scan, draft, *octet)?;
        }
        Ok(())
    }

    /// Reads a text.
    #[cycle(texts)]
    #[tactic(auto, unfolding(crate::specs::Including::text_of))]
    fn text_of(&self, draft: &mut ZoneDraft, text: &[u8]) -> Result<(), IncludeError>
        ensures { let include = included (T.texts self.now.texts.now) self.now.levels self.now.names.now self.now.name.now in
            GivesIn (λ u. draft.new) result (text_of self.now.name.now include draft.old text.now) }
    {
        let mut scan = Scan::begin(self.alloc, 1);
        self.octets_of(&mut scan, draft, text)?;
        self.octet_of(&mut scan, draft, b'\n')?;
        all_closed(self.alloc, self.name, scan.opened)
    }
}

/// The records of the text of this name below an origin, and of the texts that it includes, each where it is included.
#[tactic(auto, unfolding(crate::specs::Including::zone_including))]
pub fn read_zone_including<T: ZoneTexts>(
    alloc: Global,
    texts: &T,
    origin: &Name,
    name: &[u8],
    text: &[u8],
) -> Result<Vec<Record>, IncludeError>
    ensures value { let read = zone_including (T.texts texts.now) origin.now name.now text.now in
        GivesIn (λ records. records.items) result read }
    ensures shaped { IfOk result (λ records. AreShaped records.items) }
{
    let mut draft = ZoneDraft::new(alloc, origin.try_clone(alloc)?);
    let names = names_with(alloc, &[], name)?;
    let level = Level {
        alloc,
        texts,
        levels: MOST_LEVELS,
        names: names.as_slice(),
        name,
    };
    level.text_of(&mut draft, text)?;
    Ok(draft.into_records())
}
