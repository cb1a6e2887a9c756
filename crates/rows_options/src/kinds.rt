//! The calls of dns_kinds.

use crate::said::{Next, both_said, both_shown, shown};
use dns_kinds::{
    Chain, ChainRef, ClientSubnet, Expire, ExtendedError, ExtendedErrorRef, IdleTimeout,
    TcpKeepalive,
};
use dns_name::{ExtendedErrorCode, Parser};
use rows_table::{Calls, Row, RowError};
use std::hash::{DefaultHasher, Hash, Hasher};

/// Calls of extended errors and chains.
pub struct Kinds;

/// Calls of subnets and times.
pub struct SubnetsAndTimes;

impl Calls for Kinds {
    fn answer(&self, call: &str, row: &mut Row<'_>) -> Result<(), RowError> {
        match call {
            "extended_error" => extended_error(row),
            "extended_error_new" => extended_error_new(row),
            "extended_error_private" => {
                let error = ExtendedError::from(row.number::<u16>());
                row.whether(error.is_private())
            }
            "chain" => chain(row),
            "chain_new" => chain_new(row),
            "chain_cmp" => chain_cmp(row),
            _ => return Err(RowError::NoSuchCall),
        }
        Ok(())
    }
}

impl Calls for SubnetsAndTimes {
    fn answer(&self, call: &str, row: &mut Row<'_>) -> Result<(), RowError> {
        match call {
            "subnet" => {
                let subnet = ClientSubnet::next(row);
                subnet_said(row, &subnet)
            }
            "subnet_parse" => {
                let mut parser = Parser::from_ref(row.octets());
                match ClientSubnet::parse(&mut parser) {
                    Ok(subnet) => subnet_said(row, &subnet),
                    Err(error) => row.refuse(error),
                }
            }
            "subnet_cmp" => next_compared::<ClientSubnet>(row),
            "expire" => {
                let expire = Expire::next(row);
                shown(row, &expire)
            }
            "expire_cmp" => next_compared::<Expire>(row),
            "keepalive_millis" => match IdleTimeout::try_from_millis(row.number()) {
                Ok(timeout) => shown(row, &TcpKeepalive::new(Some(timeout))),
                Err(error) => row.debug(&error),
            },
            "keepalive_parse" => {
                let mut parser = Parser::from_ref(row.octets());
                match TcpKeepalive::parse(&mut parser) {
                    Ok(keepalive) => shown(row, &keepalive),
                    Err(error) => row.refuse(error),
                }
            }
            "keepalive_cmp" => next_compared::<TcpKeepalive>(row),
            _ => return Err(RowError::NoSuchCall),
        }
        Ok(())
    }
}

/// An extended error that is read, borrowed and owned.
fn extended_error(row: &mut Row<'_>) {
    let mut parser = Parser::from_ref(row.octets());
    match ExtendedErrorRef::parse(&mut parser) {
        Ok(found) => both_shown(row, &found, found.to_owned(row.alloc())),
        Err(error) => row.refuse(error),
    }
}

/// An extended error of a code and a text.
fn extended_error_new(row: &mut Row<'_>) {
    let code = ExtendedErrorCode::from_int(row.number());
    match ExtendedError::new_with_str(row.alloc(), code, row.text()) {
        Ok(error) => shown(row, &error),
        Err(error) => row.debug(&error),
    }
}

/// A chain from a name that is borrowed.
fn chain(row: &mut Row<'_>) {
    let given = ChainRef::new(row.name());
    both_shown(row, &given, given.to_owned(row.alloc()))
}

/// A chain from a name that is owned.
fn chain_new(row: &mut Row<'_>) {
    match row.name().to_owned(row.alloc()) {
        Ok(start) => {
            let owned = Chain::new(start);
            both_said(row, &owned.for_slice(), &owned);
        }
        Err(_) => row.fail(RowError::OutOfMemory),
    }
}

/// What a value is hashed to.
fn hashed<K: Hash>(value: &K) -> u64 {
    let mut state = DefaultHasher::new();
    value.hash(&mut state);
    state.finish()
}

/// How two values compare, and whether they are equal and hashed alike.
fn compared<K: Ord + Hash>(row: &mut Row<'_>, first: &K, second: &K) {
    row.debug(&first.cmp(second));
    row.tell_whether("eq", first == second);
    row.tell_whether("hash", hashed(first) == hashed(second))
}

/// How two values of the next words compare.
fn next_compared<K: Next + Ord + Hash + Drop>(row: &mut Row<'_>) {
    let first = K::next(row);
    let second = K::next(row);
    compared(row, &first, &second)
}

/// How a chain that is owned compares with the owned form of a borrowed one. And whether the former is hashed alike in both forms.
fn owned_compared(row: &mut Row<'_>, first: &ChainRef<'_>, kept: &Chain, second: &ChainRef<'_>) {
    match second.to_owned(row.alloc()) {
        Ok(other) => {
            compared(row, kept, &other);
            row.close(", both");
            row.tell_whether("hash", hashed(first) == hashed(kept))
        }
        Err(_) => row.fail(RowError::OutOfMemory),
    }
}

/// How the chains from the names of two words compare, borrowed and then owned.
fn chain_cmp(row: &mut Row<'_>) {
    let first = ChainRef::new(row.name());
    let second = ChainRef::new(row.name());
    compared(row, &first, &second);
    row.close(", owned");
    match first.to_owned(row.alloc()) {
        Ok(kept) => owned_compared(row, &first, &kept, &second),
        Err(_) => row.fail(RowError::OutOfMemory),
    }
}

/// A subnet's address and source prefix, and its option.
fn subnet_said(row: &mut Row<'_>, subnet: &ClientSubnet) {
    row.show(&subnet.addr());
    row.show(&subnet.source_prefix_len());
    shown(row, subnet)
}

impl Next for ClientSubnet {
    /// The subnet of the next two prefixes and address.
    fn next(row: &mut Row<'_>) -> ClientSubnet {
        let source = row.number();
        let scope = row.number();
        ClientSubnet::new(source, scope, row.address())
    }
}

impl Next for Expire {
    /// The time of the next number of seconds, or none.
    fn next(row: &mut Row<'_>) -> Expire {
        Expire::new(row.optional())
    }
}

/// The timeout of the next number of units, or none.
pub fn next_timeout(row: &mut Row<'_>) -> Option<IdleTimeout> {
    match row.optional::<u16>() {
        Some(units) => Some(IdleTimeout::from(units)),
        None => None,
    }
}

impl Next for TcpKeepalive {
    /// The keepalive of the next timeout, or of none.
    fn next(row: &mut Row<'_>) -> TcpKeepalive {
        TcpKeepalive::new(next_timeout(row))
    }
}
