//! Zone files that are read.

ghost use Rattle.std.specs.Prelude.{◌≡◌, ◌+◌, ◌≤◌, ◌<◌, ◌^◌, IfOk, IfSome, MatchOption, MatchResult, Ok, OnOk, length};
ghost use Rattle.dns_entries.specs.Reading.{FailsAs, Gives};
ghost use Rattle.dns_entries.specs.Entries.{scan_begins};
ghost use Rattle.dns_zone_file.specs.ZoneFile.{AreShaped, draft_begun, by_entry, closed, step, steps, zone_file};

use crate::draft::ZoneDraft;
use dns_entries::{EntryReason, Scan, ZoneFileError, refused};
use dns_message::Record;
use dns_name::Name;
use std::alloc::Global;

/// One octet more.
pub(crate) fn step(
    alloc: Global,
    scan: &mut Scan,
    draft: &mut ZoneDraft,
    octet: u8,
) -> Result<(), ZoneFileError>
    requires { scan.old.line + 1 < 2 ^ 64 }
    ensures value { Gives (λ u. (scan.new, draft.new)) result (step scan.old draft.old octet) }
    ensures line { OnOk result (scan.new.line ≤ scan.old.line + 1) }
{
    if !scan.take(alloc, octet)? {
        return Ok(());
    }
    draft.take_entry(alloc, scan.line, scan.blank, scan.words.as_slice())?;
    let behind = scan.line + 1;
    scan.restart(behind);
    Ok(())
}

/// The octets that go on with a word or a comment, and one after them; gives those that are left, if there is one.
#[tactic(auto, using(crate::proofs::Runs::run_ended, crate::proofs::Runs::run_behind, crate::proofs::Runs::run_refused))]
fn run_and_step<'a>(
    alloc: Global,
    scan: &mut Scan,
    draft: &mut ZoneDraft,
    text: &'a [u8],
) -> Result<Option<&'a [u8]>, ZoneFileError>
    requires { scan.old.line + length text.now < 2 ^ 64 }
    ensures value { MatchResult result (λ o.
        MatchOption o (steps scan.old draft.old text.now ≡ Ok (scan.new, draft.new))
        (λ rest. steps scan.old draft.old text.now ≡ steps scan.new draft.new rest.now))
        (λ e. FailsAs e (steps scan.old draft.old text.now)) }
    ensures line { IfOk result (λ o. MatchOption o (scan.new.line ≤ scan.old.line + length text.now)
        (λ rest. scan.new.line + length rest.now ≤ scan.old.line + length text.now)) }
    ensures fewer { IfOk result (λ o. IfSome o (λ rest. length rest.now < length text.now)) }
{
    let run = scan.take_run(text)?;
    let [octet, behind @ ..] = &text[run..] else {
        return Ok(None);
    };
    step(alloc, scan, draft, *octet)?;
    Ok(Some(behind))
}

/// The octets of a text.
pub(crate) fn steps(
    alloc: Global,
    scan: &mut Scan,
    draft: &mut ZoneDraft,
    text: &[u8],
) -> Result<(), ZoneFileError>
    requires { scan.old.line + length text.now < 2 ^ 64 }
    ensures value { Gives (λ u. (scan.new, draft.new)) result (steps scan.old draft.old text.now) }
    ensures line { OnOk result (scan.new.line ≤ scan.old.line + length text.now) }
{
    let mut rest = text;
    'octets: loop {
        let Some(behind) = run_and_step(alloc, scan, draft, rest)? else {
            return Ok(());
        };
        rest = behind;
    }
}

/// No parenthesis is open at the end of a text; one that is is refused on the line where it was opened.
pub fn closed(opened: Option<u64>) -> Result<(), ZoneFileError>
    ensures { Gives (λ u. u) result (closed opened) }
{
    match opened {
        None => Ok(()),
        Some(line) => Err(refused(line, EntryReason::Parenthesis)),
    }
}

/// The records of a zone file, in their order.
#[tactic(auto, unfolding(crate::specs::ZoneFile::zone_file))]
pub fn read_zone(alloc: Global, origin: &Name, text: &[u8]) -> Result<Vec<Record>, ZoneFileError>
    ensures value { Gives (λ records. records.items) result (zone_file origin.now text.now) }
    ensures shaped { IfOk result (λ records. AreShaped records.items) }
{
    let mut scan = Scan::begin(alloc, 1);
    let mut draft = ZoneDraft::new(alloc, origin.try_clone(alloc)?);
    steps(alloc, &mut scan, &mut draft, text)?;
    step(alloc, &mut scan, &mut draft, b'\n')?;
    closed(scan.opened)?;
    Ok(draft.into_records())
}
