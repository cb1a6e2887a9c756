//! What is kept of the options of an OPT record.

ghost use Rattle.std.specs.Prelude.{◌≡◌, ◌+◌, ◌≤◌, ◌++◌, length, IfOk, OnOk};
ghost use Rattle.dns_base.specs.Options.{option_octets};
ghost use Rattle.dns_base.specs.Standing.{GivesParsed};
ghost use Rattle.dns_opt.specs.OptRecords.{opt_state, zero_head};
ghost use Rattle.dns_opt.specs.Pushes.{Pushed};
ghost use Rattle.dns_route.specs.KeptOptions.{checked, keeps, kept_of_list, kept_opt, plain_head};

use dns_base::{ParseError, first_option};
use dns_lists::UnknownOptDataRef;
use dns_name::{BuildDataError, OptionCode, OutOfMemory};
use dns_opt::{AllOptData, OptRecord, OptRecordRef, OptRef};
use std::alloc::Global;

/// Which options of an OPT record are kept.
#[derive(Clone, Copy, Debug, PartialEq, Eq)]
pub(crate) enum KeptKinds {
    /// Client subnets (RFC 7871).
    Subnets,
    /// Client subnets and extended errors (RFC 8914).
    SubnetsAndErrors,
}

impl KeptKinds {
    /// Whether the options of a code are kept.
    fn takes(self, code: OptionCode) -> bool
        ensures { result ≡ keeps self code }
    {
        match self {
            KeptKinds::Subnets => code == OptionCode::CLIENT_SUBNET,
            KeptKinds::SubnetsAndErrors => {
                code == OptionCode::CLIENT_SUBNET || code == OptionCode::EXTENDED_ERROR
            }
        }
    }
}

/// Refused as the first option that its kind refuses.
fn check(options: &OptRef<'_>) -> Result<(), ParseError>
    ensures { result ≡ checked options.now }
{
    let mut left = options.iter::<AllOptData>();
    'each: while let Some(item) = left.next() {
        item?;
    }
    Ok(())
}

/// An OPT record without numbers, of the options that are kept, in order and as they stand.
#[tactic(auto, using(crate::proofs::KeptLaws::begun, crate::proofs::KeptLaws::left_one))]
fn keep(alloc: Global, which: KeptKinds, options: &OptRef<'_>) -> Result<OptRecord, OutOfMemory>
    ensures { IfOk result (λ r. r ≡ opt_state zero_head (kept_of_list which options.now)) }
{
    let mut kept = OptRecord::default(alloc);
    let mut rest = options.as_slice();
    'walk: while let Some((code, data, more)) = first_option(rest) {
        if which.takes(OptionCode::from_int(code)) {
            push_option(&mut kept, alloc, code, data)?;
        }
        rest = more;
    }
    Ok(kept)
}

/// Appends an option that has room.
fn push_option(
    kept: &mut OptRecord,
    alloc: Global,
    code: u16,
    data: &[u8],
) -> Result<(), OutOfMemory>
    requires { length kept.old.options + 4 + length «data».now ≤ 65535 }
    ensures { OnOk result (kept.new ≡ opt_state kept.old.head (kept.old.options ++ option_octets code «data».now)) }
{
    let Ok(option) = UnknownOptDataRef::new(OptionCode::from_int(code), data) else {
        unreachable!();
    };
    match kept.push(alloc, &option) {
        Ok(()) => Ok(()),
        Err(BuildDataError::OutOfMemory) => Err(OutOfMemory),
        Err(_) => unreachable!(),
    }
}

/// The record's options under this UDP payload size and this flag DO. Its header was zero.
pub(crate) fn plain(record: OptRecord, size: u16, dnssec_ok: bool) -> OptRecord
    requires { «record».head ≡ zero_head }
    ensures { result ≡ opt_state (plain_head size dnssec_ok) «record».options }
{
    let mut plain = record;
    plain.set_udp_payload_size(size);
    plain.set_dnssec_ok(dnssec_ok);
    plain
}

/// What is kept of an OPT record, of another size; refused if one of its options is unreadable.
pub(crate) fn kept_opt(
    alloc: Global,
    size: u16,
    which: KeptKinds,
    source: &OptRecordRef<'_>,
) -> Result<OptRecord, ParseError>
    ensures { GivesParsed result (kept_opt size which source.now) }
{
    check(source.opt())?;
    let kept = keep(alloc, which, source.opt())?;
    Ok(plain(kept, size, source.dnssec_ok()))
}
