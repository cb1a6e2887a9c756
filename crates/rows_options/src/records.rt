//! The calls of dns_opt on OPT records and their heads.

ghost use Rattle.std.specs.Prelude.{IfOk};
ghost use Rattle.dns_base.specs.Records.{IsLawful};

use crate::messages::opt_message;
use crate::query::{query, query_said};
use crate::steps::{Target, rcode};
use dns_base::Record;
use dns_name::OutOfMemory;
use dns_opt::{OptHeader, OptRecord};
use rows_table::{Calls, Row, RowError};
use std::alloc::Global;

/// The calls of dns_opt.
pub struct Records;

impl Calls for Records {
    fn answer(&self, call: &str, row: &mut Row<'_>) -> Result<(), RowError> {
        match call {
            "opt_header" => opt_header(row),
            "opt_record" => opt_record(row),
            "opt_message" => opt_message(row),
            "query" => query(row),
            "read_query" => {
                let octets = row.octets();
                query_said(row, octets)
            }
            _ => return Err(RowError::NoSuchCall),
        }
        Ok(())
    }
}

/// The octets of a head with a size, both parts of a response code and a version, that wants DNSSEC records.
fn opt_header(row: &mut Row<'_>) {
    let mut head = OptHeader::default();
    head.set_udp_payload_size(row.number());
    head.set_rcode(rcode(row));
    head.set_version(row.number());
    head.set_dnssec_ok(true);
    let mut octets = Vec::new(row.alloc());
    row.keep(head.compose(row.alloc(), &mut octets));
    row.hexadecimal(&octets)
}

/// What a record appends to none.
fn record_octets(row: &mut Row<'_>, item: &Record)
    requires { IsLawful item.now.rdata }
{
    let mut octets = Vec::new(row.alloc());
    row.keep(item.compose(row.alloc(), &mut octets));
    row.hexadecimal(&octets)
}

/// A copy of an OPT record as a message holds it.
fn as_record(alloc: Global, given: &OptRecord) -> Result<Record, OutOfMemory>
    ensures { IfOk result (λ r. IsLawful r.rdata) }
{
    let copy = given.for_slice().to_owned(alloc)?;
    copy.as_record(alloc)
}

/// The octets of an OPT record as a message holds it, and the options of the record that is made of that.
fn record_said(row: &mut Row<'_>, given: &OptRecord) {
    match as_record(row.alloc(), given) {
        Ok(item) => item_said(row, item),
        Err(_) => row.fail(RowError::OutOfMemory),
    }
}

/// The octets of a record, and the options of the OPT record that is made of it.
fn item_said(row: &mut Row<'_>, item: Record)
    requires { IsLawful item.rdata }
{
    record_octets(row, &item);
    match OptRecord::from_record(item) {
        Some(opt) => row.tell_octets("options", opt.opt().as_slice()),
        None => row.say("options=none"),
    }
}

/// What pushes to an empty OPT record answer, and the record.
fn opt_record(row: &mut Row<'_>) {
    let mut given = OptRecord::default(row.alloc());
    row.take_steps(", ", &mut Target::Record(&mut given));
    record_said(row, &given)
}
