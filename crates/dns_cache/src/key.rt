//! The key under which a reply is kept.

ghost use Rattle.std.specs.Prelude.{◌≡◌, ◌==◌, ◌++◌, ◌∷◌, ◌<◌, length, map, IfOk, OnOk, Some};
ghost use Rattle.std.specs.Char.{to_ascii_lowercase};
ghost use Rattle.std.specs.Cmp.{partial_equiv_from_equiv};
ghost use Rattle.std.specs.Cmp.Lexicographic.{pointwise};
ghost use Rattle.dns_name.specs.Labels.{IsName, folded, spell};
ghost use Rattle.dns_base.specs.Options.{IsOptionList};
ghost use Rattle.dns_base.specs.Sections.{first_of, questions_of};
ghost use Rattle.dns_opt.specs.OptRecords.{opt_of};
ghost use Rattle.dns_cache.specs.Keys.{asks_once, key_of, key_writes, lists_subnet, names_subnet, question_key, same_key, same_key_equiv, wants_dnssec};

use dns_base::{Class, Labels, Message, Opcode, OptionCode, QuestionRef, Rtype, first_option};
use dns_opt::{MessageOpt, OptRecordRef};
use dns_service::{OutOfMemory, Request};
use smallvec::SmallVec;
use std::alloc::Global;
use std::hash::{Hash, Hasher};
use std::marker::Model;

/// The octets of a name in lower case. Up to 32 of them lie in the key itself, where a look-up compares them.
type KeyOctets = SmallVec<u8, 32>;

/// A question's name, type and class, and the DO bit of its request. The name is kept in lower case, as octets, which are
/// hashed by one write.
#[derive(Drop)]
pub(crate) struct CacheKey {
    octets: KeyOctets,
    qtype: Rtype,
    qclass: Class,
    dnssec_ok: bool,
}

impl Model for CacheKey {
    ghost use Rattle.dns_name.specs.Names.{IsSpelt, labels_of, uncompressed_at};
    ghost use Rattle.dns_cache.specs.Keys.{AskedKey};

    ghost Value = { AskedKey };

    ghost view = { λ k. record {
      name = labels_of (uncompressed_at k.octets.items 0);
      qtype = k.qtype;
      qclass = k.qclass;
      dnssec_ok = k.dnssec_ok;
    } };

    ghost invariant = { λ k. IsSpelt k.octets.items };
}

impl CacheKey {
    /// Whether the names are the same.
    fn name_eq(&self, other: &CacheKey) -> bool
        ensures { result ≡ pointwise (pointwise ◌==◌) self.now.name other.now.name }
    {
        self.octets == other.octets
    }
}

impl PartialEq for CacheKey {
    ghost eq = { same_key };

    ghost laws = { partial_equiv_from_equiv same_key_equiv };

    fn eq(&self, other: &CacheKey) -> bool {
        self.name_eq(other)
            && self.qtype == other.qtype
            && self.qclass == other.qclass
            && self.dnssec_ok == other.dnssec_ok
    }
}

impl Eq for CacheKey {
    ghost laws = { same_key_equiv };
}

impl Hash for CacheKey {
    ghost use Rattle.dns_cache.specs.Keys.{same_key_writes};

    ghost hash_input = { key_writes };

    ghost respects_eq = { same_key_writes };

    fn hash<H: Hasher>(&self, state: &mut H) {
        state.write(self.octets.as_slice());
        self.qtype.to_int().hash(state);
    }
}

/// The key of a request. None if its opcode isn't QUERY, if it hasn't one question or that is unreadable, and if
/// its OPT record names a client subnet.
pub(crate) fn key_of(alloc: Global, request: &Request<()>) -> Result<Option<CacheKey>, OutOfMemory>
    ensures { IfOk result (λ k. k ≡ key_of request.now.octets) }
{
    let message = request.message();
    match message.first_question() {
        Some(question) => key_for(alloc, message, &question),
        None => Ok(None),
    }
}

/// The key of a request whose first question this is.
pub(crate) fn key_for(
    alloc: Global,
    request: &Message,
    question: &QuestionRef<'_>,
) -> Result<Option<CacheKey>, OutOfMemory>
    requires { first_of (questions_of request.now).0 ≡ Some question.now }
    ensures { IfOk result (λ k. k ≡ key_of request.now) }
{
    if !asks_once(request) {
        return Ok(None);
    }
    let opt = opt_of(request);
    if names_subnet(&opt) {
        return Ok(None);
    }
    question_key(alloc, question, wants_dnssec(&opt))
}

/// The OPT record of a request. A message that states no additional records isn't read for it.
fn opt_of(request: &Message) -> Option<OptRecordRef<'_>>
    ensures { result ≡ opt_of request.now }
{
    if request.header_counts().arcount == 0 {
        return None;
    }
    request.opt()
}

/// The key of a question.
fn question_key(
    alloc: Global,
    question: &QuestionRef<'_>,
    dnssec_ok: bool,
) -> Result<Option<CacheKey>, OutOfMemory>
    ensures { IfOk result (λ k. k ≡ Some (question_key dnssec_ok question.now)) }
{
    let octets = folded_octets(alloc, question.qname().labels())?;
    Ok(Some(CacheKey {
        octets,
        qtype: question.qtype(),
        qclass: question.qclass(),
        dnssec_ok,
    }))
}

/// The octets of labels in lower case.
fn folded_octets(alloc: Global, labels: Labels<'_>) -> Result<KeyOctets, OutOfMemory>
    requires { IsName labels }
    ensures { IfOk result (λ v. v.items ≡ spell (folded labels.entry)) }
{
    let mut octets = spelt_octets(alloc, labels)?;
    lower(&mut octets);
    Ok(octets)
}

/// Puts ASCII letters into lower case.
fn lower(octets: &mut KeyOctets)
    ensures { octets.new.items ≡ map to_ascii_lowercase octets.old.items }
{
    octets.as_mut_slice().make_ascii_lowercase();
}

/// The octets of labels.
fn spelt_octets(alloc: Global, labels: Labels<'_>) -> Result<KeyOctets, OutOfMemory>
    requires { IsName labels }
    ensures { IfOk result (λ v. v.items ≡ spell labels.entry) }
{
    let mut left = labels;
    let mut octets = KeyOctets::new(alloc);
    'labels: while let Some(label) = left.next() {
        push_label(label, &mut octets)?;
    }
    octets.push(0)?;
    Ok(octets)
}

/// Appends a label after its length.
fn push_label(label: &[u8], octets: &mut KeyOctets) -> Result<(), OutOfMemory>
    requires { length label.now < 256 }
    ensures { OnOk result (octets.new.items ≡ octets.old.items ++ (length label.now ∷ label.now)) }
{
    octets.push(label.len() as u8)?;
    octets.extend_from_slice(label)?;
    Ok(())
}

/// Whether a request's opcode is QUERY, and it states one question.
fn asks_once(message: &Message) -> bool
    ensures { result ≡ asks_once message.now }
{
    message.header().opcode == Opcode::QUERY && message.header_counts().qdcount == 1
}

/// The DO bit (RFC 3225, section 3).
fn wants_dnssec(opt: &Option<OptRecordRef<'_>>) -> bool
    ensures { result ≡ wants_dnssec opt.now }
{
    match opt {
        Some(record) => record.dnssec_ok(),
        None => false,
    }
}

/// Whether one of the options is a client subnet (RFC 7871).
fn names_subnet(opt: &Option<OptRecordRef<'_>>) -> bool
    ensures { result ≡ names_subnet opt.now }
{
    match opt {
        Some(record) => has_subnet(record.opt().as_slice()),
        None => false,
    }
}

/// Whether one of the options of a list is a client subnet.
#[tactic(auto, using(crate::proofs::SubnetLaws::begun, crate::proofs::SubnetLaws::ended, crate::proofs::SubnetLaws::found, crate::proofs::SubnetLaws::passed))]
fn has_subnet(list: &[u8]) -> bool
    requires { IsOptionList list.now }
    ensures { result ≡ lists_subnet list.now }
{
    let mut left = list;
    'options: while let Some((code, _, rest)) = first_option(left) {
        if OptionCode::from_int(code) == OptionCode::CLIENT_SUBNET {
            return true;
        }
        left = rest;
    }
    false
}
