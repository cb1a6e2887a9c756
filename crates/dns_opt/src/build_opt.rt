//! Messages under construction that get an OPT record.

ghost use Rattle.std.specs.Prelude.{◌≡◌, ◌≤◌, IfOk};
ghost use Rattle.std.specs.Fn.{FnOnceReturnsAtMut};
ghost use Rattle.dns_base.specs.Built.{Built, Pushes, with_additional, with_header};
ghost use Rattle.dns_opt.specs.Drafts.{Appended, BuiltOpt, Ends, EndsIn, IsBuiltOpt, PutInto, opened_opt, room_of};
ghost use Rattle.dns_opt.specs.OptRecords.{opt_record, opt_state};
ghost use Rattle.dns_opt.specs.Reopened.{Reopens, less_opts, old_opt, opt_among, reopened};

use crate::builder::OptBuilder;
use crate::header::OptHeader;
use crate::message_opt::first_opt;
use crate::record::{OptRecord, OptRecordRef, append};
use dns_base::{AdditionalBuilder, PushError};
use dns_name::{BuildDataError, OutOfMemory, Rcode, Rtype};
use dns_options::Opt;
use std::alloc::Global;

/// A message under construction that can get an OPT record (RFC 6891, section 6.1.1).
pub trait BuildOpt {
    /// The message that is under construction, and its limit.
    ghost built: { Self → Built };

    /// The first OPT record; none if its data is no option list. Only the additional records are read.
    fn opt_record(&self) -> Option<OptRecordRef<'_>>
        ensures { result ≡ opt_among (built self.now).message.additional };

    /// Appends one OPT record as the closure builds it. If anything is refused, the message is as before.
    fn opt<F: FnOnce(&mut OptBuilder) -> Result<(), BuildDataError>>(
        &mut self,
        alloc: Global,
        build: F,
    ) -> Result<(), BuildDataError>
        requires { F.IsAlwaysCallable build }
        ensures { BuiltOpt (FnOnceReturnsAtMut F.FnOnce build) (built self.old) (built self.new) result };

    /// Builds on the message's first OPT record, or on an empty one if there is none or its data is no option
    /// list; what the closure leaves takes the place of the OPT records, as the last additional record. The options
    /// have the room of the message without its OPT records. If anything is refused, the message is as before.
    fn reopen<F: FnOnce(&mut OptBuilder) -> Result<(), BuildDataError>>(
        &mut self,
        alloc: Global,
        build: F,
    ) -> Result<(), BuildDataError>
        requires { F.IsAlwaysCallable build }
        ensures { Reopens (FnOnceReturnsAtMut F.FnOnce build) (built self.old) (built self.new) result };
}

impl BuildOpt for AdditionalBuilder {
    ghost built = { λ b. b };

    #[tactic(auto, using(crate::proofs::Opts::opt_given))]
    fn opt_record(&self) -> Option<OptRecordRef<'_>> {
        first_opt(self.additional_records())
    }

    fn opt<F: FnOnce(&mut OptBuilder) -> Result<(), BuildDataError>>(
        &mut self,
        alloc: Global,
        build: F,
    ) -> Result<(), BuildDataError> {
        if room(self) < 11 {
            return Err(BuildDataError::ShortBuf);
        }
        built(self, alloc, build)
    }

    fn reopen<F: FnOnce(&mut OptBuilder) -> Result<(), BuildDataError>>(
        &mut self,
        alloc: Global,
        build: F,
    ) -> Result<(), BuildDataError> {
        let opt = reopened(self, alloc)?;
        let (opt, answer) = called(opt, build);
        ended_in_place(self, alloc, answer, opt)
    }
}

/// The first OPT record of a message, or an empty one.
fn old_opt(message: &AdditionalBuilder, alloc: Global) -> Result<OptRecord, OutOfMemory>
    ensures { IfOk result (λ r. r ≡ old_opt message.now.message) }
{
    match message.opt_record() {
        Some(record) => record.to_owned(alloc),
        None => Ok(OptRecord::default(alloc)),
    }
}

/// The message's OPT record, as it is gone on with.
fn reopened(message: &AdditionalBuilder, alloc: Global) -> Result<OptBuilder, OutOfMemory>
    ensures { IfOk result (λ d. d ≡ reopened message.now) }
{
    let found = old_opt(message, alloc)?;
    let (head, options) = found.into_parts();
    Ok(OptBuilder {
        head,
        low: message.header().rcode,
        options,
        room: message
            .push_limit()
            .saturating_sub(message.len_without(Rtype::OPT)),
    })
}

/// How many octets a message may still take.
fn room(message: &AdditionalBuilder) -> usize
    ensures { result ≡ room_of message.now }
{
    message
        .push_limit()
        .saturating_sub(message.as_slice().len())
}

/// An OPT record without options.
fn open(message: &AdditionalBuilder, alloc: Global) -> OptBuilder
    ensures { result ≡ opened_opt message.now }
{
    OptBuilder {
        head: OptHeader::default(),
        low: message.header().rcode,
        options: Opt::empty(alloc),
        room: room(message),
    }
}

/// What a closure leaves of the record, and what it answers.
fn called<F: FnOnce(&mut OptBuilder) -> Result<(), BuildDataError>>(
    opt: OptBuilder,
    build: F,
) -> (OptBuilder, Result<(), BuildDataError>)
    requires { F.IsAlwaysCallable build }
    ensures { FnOnceReturnsAtMut F.FnOnce build opt result.1 result.0 }
{
    let mut opt = opt;
    let answer = build(&mut opt);
    (opt, answer)
}

fn built<F: FnOnce(&mut OptBuilder) -> Result<(), BuildDataError>>(
    message: &mut AdditionalBuilder,
    alloc: Global,
    build: F,
) -> Result<(), BuildDataError>
    requires { F.IsAlwaysCallable build }
    ensures { IsBuiltOpt (FnOnceReturnsAtMut F.FnOnce build) message.old message.new result }
{
    let opt = open(message, alloc);
    let (opt, answer) = called(opt, build);
    ended(message, alloc, answer, opt)
}

fn ended(
    message: &mut AdditionalBuilder,
    alloc: Global,
    answer: Result<(), BuildDataError>,
    opt: OptBuilder,
) -> Result<(), BuildDataError>
    ensures { Ends answer opt message.old message.new result }
{
    match answer {
        Ok(()) => appended(message, alloc, opt),
        Err(error) => Err(error),
    }
}

fn ended_in_place(
    message: &mut AdditionalBuilder,
    alloc: Global,
    answer: Result<(), BuildDataError>,
    opt: OptBuilder,
) -> Result<(), BuildDataError>
    ensures { EndsIn answer opt (less_opts message.old) message.old message.new result }
{
    match answer {
        Ok(()) => replaced(message, alloc, opt),
        Err(error) => Err(error),
    }
}

/// Appends the record, and sets the lower bits of the response code.
#[tactic(auto, using(crate::proofs::Puts::refused))]
fn appended(
    message: &mut AdditionalBuilder,
    alloc: Global,
    opt: OptBuilder,
) -> Result<(), BuildDataError>
    ensures { Appended opt message.old message.new result }
{
    let OptBuilder {
        head,
        low,
        options,
        ..
    } = opt;
    append(message, alloc, head, &options)?;
    set_low(message, low);
    Ok(())
}

/// Puts the record in place of the OPT records, and sets the lower bits of the response code.
#[tactic(auto, using(crate::proofs::Puts::refused))]
fn replaced(
    message: &mut AdditionalBuilder,
    alloc: Global,
    opt: OptBuilder,
) -> Result<(), BuildDataError>
    ensures { PutInto opt (less_opts message.old) message.old message.new result }
{
    let OptBuilder {
        head,
        low,
        options,
        ..
    } = opt;
    replace(message, alloc, head, &options)?;
    set_low(message, low);
    Ok(())
}

/// Puts a record of a head and options in place of the OPT records.
fn replace(
    message: &mut AdditionalBuilder,
    alloc: Global,
    head: OptHeader,
    options: &Opt,
) -> Result<(), PushError>
    ensures { Pushes message.old message.new (with_additional (less_opts message.old) (opt_record (opt_state head options.now))) result }
{
    message.replace_opt(alloc, head.size, head.ttl(), options.as_slice())
}

/// Sets the lower four bits of the response code in the header.
fn set_low(message: &mut AdditionalBuilder, low: Rcode)
    ensures { message.new ≡ with_header message.old (record message.old.message.header { rcode = low }) }
{
    let mut header = message.header();
    header.rcode = low;
    message.set_header(header);
}
