//! How rows say an option.

use dns_name::{BuildDataError, ComposeOptData, OutOfMemory};
use rows_table::{Row, RowError};
use std::fmt::Display;

/// The data that an option appends to none.
pub fn composed<D: ComposeOptData>(row: &mut Row<'_>, option: &D) {
    let mut target = Vec::new(row.alloc());
    row.keep(option.compose_option(row.alloc(), &mut target));
    row.hexadecimal(&target)
}

/// An option's code and its data.
pub fn code_and_data<D: ComposeOptData>(row: &mut Row<'_>, option: &D) {
    row.show(&option.code().to_int());
    composed(row, option)
}

/// An option's code, its data and its text in quotation marks.
pub fn shown<D: ComposeOptData + Display>(row: &mut Row<'_>, option: &D) {
    code_and_data(row, option);
    row.quote(option)
}

/// An option's code, its data and its text, borrowed and owned. The owned form is said only if it differs.
pub fn both_shown<B: ComposeOptData + Display, O: ComposeOptData + Display + Drop>(
    row: &mut Row<'_>,
    borrowed: &B,
    owned: Result<O, OutOfMemory>,
) {
    match owned {
        Ok(owned) => both_said(row, borrowed, &owned),
        Err(_) => row.fail(RowError::OutOfMemory),
    }
}

/// The code, data and text of both forms of an option. Nothing is said before them; the owned form only if it differs.
pub fn both_said<B: ComposeOptData + Display, O: ComposeOptData + Display>(
    row: &mut Row<'_>,
    borrowed: &B,
    owned: &O,
) {
    shown(row, borrowed);
    let mut other = Row::of(row.alloc(), "", &[]);
    shown(&mut other, owned);
    if row.said() != other.said() {
        row.close(", but owned");
        row.say(other.said())
    }
}

/// What building answers; of a wrong length, how long the option was to be and how long it is.
pub fn built(row: &mut Row<'_>, done: Result<(), BuildDataError>) {
    match done {
        Err(BuildDataError::WrongLength { stated, written }) => {
            row.say("WrongLength(");
            row.close_shown(&stated);
            row.close(",");
            row.close_shown(&written);
            row.close(")")
        }
        done => row.outcome(done),
    }
}

/// What the next words of a row may be.
pub trait Next {
    /// It; if it can't be read, some other one, with a fault.
    fn next(row: &mut Row<'_>) -> Self;
}

/// How two values of the next words compare.
pub fn order_said<T: Next + Ord + Drop>(row: &mut Row<'_>) {
    let first = T::next(row);
    let second = T::next(row);
    row.debug(&first.cmp(&second))
}
