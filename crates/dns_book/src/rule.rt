//! The rule of the cell, and what each step of a book tells its pass. No value of these types is
//! made when the program runs.
ghost use Rattle.std.specs.Prelude.{[], List, ℕ};
ghost use Rattle.dns_admission.specs.declared.call.Call.{Call as TheCall};
ghost use Rattle.dns_admission.specs.declared.call.Call.TheVariants.{Look as look_call};
ghost use Rattle.dns_book.specs.Rule.{KeptInOrder, newcomer, ReadsWords, Tries, Looks, Opens, Settles, first_view, second_view, whole_of, none_of, both_of, gone};

use crate::history::{Entry, Known};
use atomic_table::{Join, Split};
use crossbeam_utils::rule::{Outcome, Protocol};
use dns_book_words::BookWords;
use std::collections::LinkedList;
use std::marker::{Brand, PhantomData};

/// What a pass knows: what its seat knows, whether the book is open and the seat in use, and the
/// history that it was told of at a join. No value of it is made.
pub struct View {
    pub opened: bool,
    pub live: bool,
    pub handed: LinkedList<Entry>,
    pub known: Known,
}

/// The words stand for the state after one legal history, of which each seat knows a part.
pub struct OneHistory;

impl Protocol<BookWords, View> for OneHistory {
    ghost holds = { KeptInOrder };

    ghost first = { newcomer };
}

/// A call, and the words that it expects. Each try picks its own.
pub trait ExpectsWords {
    ghost ask: { TheCall };

    ghost current: { List ℕ };
}

impl ExpectsWords for Brand {
    ghost ask = { look_call };

    ghost current = { [] };
}

/// A read, which leaves all as it is.
pub struct Read;

impl Outcome<BookWords, View> for Read {
    ghost then = { ReadsWords };
}

/// A call, made at the words that it expects and at no others.
pub struct Try<K: ExpectsWords> {
    of: PhantomData<K>,
}

impl<K: ExpectsWords> Outcome<BookWords, View> for Try<K> {
    ghost then = { Tries K.ask K.current };
}

/// A look, which is one load.
pub struct Looked;

impl Outcome<BookWords, View> for Looked {
    ghost then = { Looks };
}

/// The opening of the book.
pub struct Opened;

impl Outcome<BookWords, View> for Opened {
    ghost then = { Opens };
}

/// The load after a join.
pub struct Settle;

impl Outcome<BookWords, View> for Settle {
    ghost then = { Settles };
}

/// A split of one seat into its two halves.
pub struct Halves;

impl Split<View> for Halves {
    ghost left = { first_view };

    ghost right = { second_view };
}

/// All that a seat knows, in a new pass.
pub struct HandOver;

impl Split<View> for HandOver {
    ghost left = { none_of };

    ghost right = { whole_of };
}

/// A join: a seat takes in the calls of another, which is spent.
pub struct TakeIn;

impl Join<View> for TakeIn {
    ghost both = { both_of };

    ghost spent = { gone };
}
