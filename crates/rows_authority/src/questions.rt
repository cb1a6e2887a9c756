//! What is asked of a signed zone.

use dns_name::NameRef;
use dns_signed_zone::{Proofs, SignedZone};
use rows_table::{Row, RowError};

/// How many questions the next word says, and what denies each: a name and a type.
pub(crate) fn asked(row: &mut Row<'_>, zone: &SignedZone) {
    let questions: u8 = row.number();
    for _ in 0..questions {
        let name = row.name();
        let rtype = row.number();
        denied(row, zone, &name, rtype);
    }
}

/// What denies a name or a type at it.
fn denied(row: &mut Row<'_>, zone: &SignedZone, name: &NameRef<'_>, rtype: u16) {
    if !zone.is_in_zone(name) {
        row.say("outside");
        return;
    }
    match zone.proofs(row.alloc(), name, rtype) {
        Ok(proofs) => proofs_said(row, &proofs),
        Err(_) => row.fail(RowError::OutOfMemory),
    }
}

/// The owners of NSECs.
fn proofs_said(row: &mut Row<'_>, proofs: &Proofs<'_>) {
    match proofs.first {
        Some(nsec) => row.hexadecimal(nsec.owner().as_slice()),
        None => row.say("-"),
    }
    match proofs.second {
        Some(nsec) => row.hexadecimal(nsec.owner().as_slice()),
        None => row.say("-"),
    }
}
