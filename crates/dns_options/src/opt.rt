//! Option lists, owned.

ghost use Rattle.std.specs.Prelude.{◌≡◌, ◌≤◌, [], length};
ghost use Rattle.std.specs.Cmp.Lexicographic.{slice_cmp};
ghost use Rattle.std.specs.Ordering.{nat_cmp};
ghost use Rattle.dns_message.specs.Options.{IsOptionList, option_list};
ghost use Rattle.dns_option_list.specs.Items.{first_ok, items_of};
ghost use Rattle.dns_option_list.specs.Writes.{Writes};
ghost use Rattle.dns_options.specs.Pushes.{Pushed, PushedRaw};

use crate::list::{HeldOpt, OptRef};
use dns_name::{BuildDataError, ComposeOptData, OptionCode, OutOfMemory, ParseError, ParseOptData};
use dns_option_list::{OptIter, append_option, append_value, written_as_stated};
use std::alloc::Global;
use std::cmp::Ordering;

/// An option list, owned, that contracts see as its octets.
pub type Opt = HeldOpt<Vec<u8>>;

impl HeldOpt<Vec<u8>> {
    /// A list without options, which takes no memory.
    #[tactic(auto, using(dns_message::proofs::OptionLaws::empty_is_list))]
    pub fn empty(alloc: Global) -> Opt
        ensures { result ≡ [] }
    {
        HeldOpt::of(Vec::new(alloc))
    }

    /// The option list that octets are. The vector is not copied.
    pub fn from_octets(octets: Vec<u8>) -> Result<Opt, ParseError>
        ensures { result ≡ option_list octets.items }
    {
        OptRef::from_slice(octets.as_slice())?;
        Ok(HeldOpt::of(octets))
    }

    /// Borrows the list; no option is copied.
    pub fn for_slice_ref(&self) -> OptRef<'_>
        ensures { result ≡ self.now }
    {
        HeldOpt::of(self.octets.as_slice())
    }

    /// The octets of all options, at most 65,535.
    pub fn as_slice(&self) -> &[u8]
        ensures value { result.now ≡ self.now }
        ensures short { length self.now ≤ 65535 }
        ensures list { IsOptionList self.now }
    {
        self.octets.as_slice()
    }

    /// Gives the vector back, which is not copied.
    pub fn into_octets(self) -> Vec<u8>
        ensures { result.items ≡ self }
    {
        let HeldOpt { octets } = self;
        octets.into_inner()
    }

    /// The options that the type D reads, in order.
    pub fn iter<'a, D: ParseOptData<'a> + Drop>(&'a self) -> OptIter<'a, D>
        ensures { result ≡ self.now }
    {
        self.for_slice_ref().iter::<D>()
    }

    /// The first option that the type D reads; none if it is refused.
    pub fn first<'a, D: ParseOptData<'a> + Drop>(&'a self) -> Option<D>
        ensures { result ≡ first_ok (items_of D.takes self.now) }
    {
        self.for_slice_ref().first::<D>()
    }

    /// The order of the octets.
    pub fn canonical_cmp(&self, other: &Opt) -> Ordering
        ensures { result ≡ slice_cmp nat_cmp self.now other.now }
    {
        self.octets.as_slice().cmp(other.octets.as_slice())
    }

    /// Appends an option. A refused push leaves the list.
    #[tactic(auto, using(dns_message::proofs::OptionLaws::list_append))]
    pub fn push<D: ComposeOptData>(
        &mut self,
        alloc: Global,
        value: &D,
    ) -> Result<(), BuildDataError>
        ensures { Pushed (D.code_of value.now) (D.octets value.now) self.old self.new result }
    {
        if self.len() + 4 + value.compose_len() as usize > 65535 {
            return Err(BuildDataError::LongOptData);
        }
        append_value(alloc, self.octets.as_mut_vec(), value)?;
        Ok(())
    }

    /// Appends an option whose data a closure writes to an empty vector, as many octets as are stated.
    /// A refused push leaves the list.
    #[tactic(auto, using(dns_message::proofs::OptionLaws::list_append))]
    pub fn push_raw_option<F: FnOnce(&mut Vec<u8>) -> Result<(), OutOfMemory>>(
        &mut self,
        alloc: Global,
        code: OptionCode,
        len: u16,
        write: F,
    ) -> Result<(), BuildDataError>
        requires { F.IsAlwaysCallable write }
        ensures { PushedRaw (Writes F.FnOnce write) code len self.old self.new result }
    {
        if self.len() + 4 + len as usize > 65535 {
            return Err(BuildDataError::LongOptData);
        }
        match written_as_stated(alloc, len, write)? {
            Ok(octets) => {
                append_option(self.octets.as_mut_vec(), code.to_int(), octets.as_slice())?;
                Ok(())
            }
            Err(octets) => Err(BuildDataError::WrongLength {
                stated: len,
                written: octets.len(),
            }),
        }
    }
}
