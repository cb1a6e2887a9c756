//! Options that are added to a reply, and its OPT record removed.

ghost use Rattle.std.specs.Prelude.{◌≡◌, ◌≢◌, OnErr, Ok, Err};
ghost use Rattle.std.specs.Fn.{FnOnceReturnsAtMut};
ghost use Rattle.dns_base.specs.Replaced.{less_type};
ghost use Rattle.dns_opt.specs.Reopened.{Reopens};
ghost use Rattle.dns_replies.specs.WithOption.{AddsOption, with_option};

use dns_base::AdditionalBuilder;
use dns_name::{BuildDataError, ComposeOptData, OutOfMemory, Rtype};
use dns_opt::{BuildOpt, OptBuilder};
use std::alloc::Global;

/// Builds on a reply's OPT record, as `BuildOpt::reopen` does: the closure is lent the record with its size, codes, flags and
/// options, or an empty one. What it leaves becomes the reply's only OPT record.
pub fn add_edns_options<F: FnOnce(&mut OptBuilder) -> Result<(), BuildDataError>>(
    alloc: Global,
    response: &mut AdditionalBuilder,
    build: F,
) -> Result<(), BuildDataError>
    requires { F.IsAlwaysCallable build }
    ensures built { Reopens (FnOnceReturnsAtMut F.FnOnce build) response.old response.new result }
    ensures refused { OnErr result (response.new ≡ response.old) }
{
    response.reopen(alloc, build)
}

/// Adds one option after those of a reply's OPT record.
pub fn add_edns_option<D: ComposeOptData>(
    alloc: Global,
    response: &mut AdditionalBuilder,
    option: &D,
) -> Result<(), BuildDataError>
    ensures added { AddsOption (D.code_of option.now) (D.octets option.now) response.old response.new result }
    ensures whole { response.old.limit ≡ 65535 → result ≢ Err BuildDataError.OutOfMemory
        → response.new.message ≡ with_option response.old.message (D.code_of option.now) (D.octets option.now) }
{
    let _within_limits = response.push_limit();
    add_edns_options(
        alloc,
        response,
        |opt: &mut OptBuilder| opt.push(alloc, option),
    )
}

/// Drops a reply's OPT records; its other records stay, in order.
pub fn remove_edns_opt_record(
    _alloc: Global,
    response: &mut AdditionalBuilder,
) -> Result<(), OutOfMemory>
    ensures removed { response.new ≡ less_type 41 response.old }
    ensures done { result ≡ Ok tt }
{
    response.remove_type(Rtype::OPT);
    Ok(())
}
