//! The options of a list that a type reads.

ghost use Rattle.std.specs.Prelude.{◌≡◌, ⊤};
ghost use Rattle.dns_name.specs.OptData.{kind};
ghost use Rattle.dns_message.specs.Options.{IsOptionList};
ghost use Rattle.dns_option_list.specs.Items.{NextItem, items_of};

use dns_message::first_option;
use dns_name::{FormReason, OptionCode, ParseError, ParseOptData, Parser};
use std::alloc::AllocError;
use std::marker::{Model, PhantomData};

/// One option by its code and data, which is taken whole.
fn read_one<'a, D: ParseOptData<'a>>(code: u16, octets: &'a [u8]) -> Option<Result<D, ParseError>>
where
    D: Drop,
    ensures { result ≡ kind D.takes code octets.now }
{
    let mut parser = Parser::from_ref(octets);
    match D::parse_option(OptionCode::from_int(code), &mut parser) {
        Ok(None) => None,
        Ok(Some(value)) => {
            if parser.remaining() > 0 {
                return Some(Err(ParseError::Form(FormReason::Trailing)));
            }
            Some(Ok(value))
        }
        Err(error) => Some(Err(error)),
    }
}

/// The next option that is read, and what follows it.
#[tactic(auto, using(dns_message::proofs::OptionLaws::list_step, dns_message::proofs::OptionLaws::empty_is_list, crate::proofs::ItemLaws::items_some, crate::proofs::ItemLaws::items_none))]
fn next_of<'a, D: ParseOptData<'a>>(octets: &'a [u8]) -> (Option<Result<D, ParseError>>, &'a [u8])
where
    D: Drop,
    requires { IsOptionList octets.now }
    ensures item { NextItem (items_of D.takes octets.now) result.0 (items_of D.takes result.1.now) }
    ensures list { IsOptionList result.1.now }
{
    let mut rest = octets;
    'walk: while let Some((code, data, more)) = first_option(rest) {
        match read_one(code, data) {
            None => rest = more,
            Some(Ok(value)) => return (Some(Ok(value)), more),
            Some(Err(error)) => return (Some(Err(error)), &[]),
        }
    }
    (None, &[])
}

/// The options that are left of a list, as far as the type D reads them. After a refused one comes the end.
#[derive(Debug, Drop)]
pub struct OptIter<'a, D> {
    rest: &'a [u8],
    of: PhantomData<D>,
}

impl<'a, D> Model for OptIter<'a, D> {
    ghost use Rattle.std.specs.Prelude.{List, ℕ};
    ghost use Rattle.dns_message.specs.Options.{IsOptionList};

    ghost Value = { List ℕ };

    ghost view = { λ i. i.rest.now };

    ghost invariant = { λ i. IsOptionList i.rest.now };
}

impl<'a, D> Clone for OptIter<'a, D> {
    ghost is_clone = { λ iterator copy. copy ≡ iterator };

    ghost is_infallible = { λ _. ⊤ };

    fn clone(&self) -> Result<OptIter<'a, D>, AllocError> {
        Ok(OptIter {
            rest: self.rest,
            of: PhantomData,
        })
    }
}

impl<'a, D: ParseOptData<'a> + Drop> OptIter<'a, D> {
    /// The options of octets that are a list.
    pub fn of(octets: &'a [u8]) -> OptIter<'a, D>
        requires { IsOptionList octets.now }
        ensures { result ≡ octets.now }
    {
        OptIter {
            rest: octets,
            of: PhantomData,
        }
    }
}

impl<'a, D: ParseOptData<'a> + Drop> Iterator for OptIter<'a, D> {
    type Item = Result<D, ParseError>;

    ghost use Rattle.std.specs.Iterator.{at_most};
    ghost use Rattle.std.specs.Prelude.{length};
    ghost use Rattle.dns_option_list.specs.Items.{NextItem, items_of};

    ghost next_gives = { λ s r t. NextItem (items_of D.takes s) r (items_of D.takes t) };

    ghost remaining = { λ s. at_most (length (items_of D.takes s)) };

    fn next(&mut self) -> Option<Result<D, ParseError>> {
        let (item, rest) = next_of::<D>(self.rest);
        self.rest = rest;
        item
    }
}
