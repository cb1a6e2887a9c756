//! What permits a request.

ghost use Rattle.std.specs.Prelude.{◌≡◌, ◌&&◌, nat_eq};
ghost use Rattle.std.specs.List.{list_any};
ghost use Rattle.dns_base.specs.Header.{header_of};
ghost use Rattle.dns_base.specs.Sections.{first_of, questions_of};
ghost use Rattle.dns_name.specs.Canonical.{same_name};
ghost use Rattle.dns_authority.specs.Authorities.{asks_transfer};
ghost use Rattle.dns_key_access.specs.Access.{access_refusal, asker_of, forbids, has_key, is_forbidden, is_permitted, notify_refusal, permits, question_refusal, refusal_at, transfer_refusal};

use dns_authority::Network;
use dns_base::{Name, Opcode, OptRcode, QuestionRef};
use dns_name::{IpAddr, names_are_ordered};
use dns_service::Request;

/// The type of a question that asks for a transfer (RFC 1035, section 3.2.3).
const AXFR: u16 = 252;

/// The type of a question that asks for what has changed in a zone (RFC 1995, section 2).
const IXFR: u16 = 251;

/// A network that is permitted: under the key of this place, or under any key and none if none is wanted.
#[derive(Clone, Copy)]
pub struct Access {
    pub network: Network,
    pub key: Option<usize>,
}

/// What is permitted of a zone.
#[derive(Drop)]
pub struct ZoneAccess {
    pub apex: Name,
    pub allowed: Vec<Access>,
}

/// The zones whose transfers want a key, and those whose NOTIFYs do. What isn't among them isn't judged.
#[derive(Drop)]
pub struct KeyAccess {
    pub transfers: Vec<ZoneAccess>,
    pub notifies: Vec<ZoneAccess>,
}

/// Who asks: an address, and the place of the key that the request is under.
#[derive(Clone, Copy)]
pub(crate) struct Asker {
    address: IpAddr,
    key: Option<usize>,
}

/// Who asks a request.
fn asker_of(request: &Request<Option<usize>>) -> Asker
    ensures { result ≡ asker_of request.now }
{
    Asker {
        address: request.client_addr().ip,
        key: *request.metadata(),
    }
}

/// Whether a request is under the key that is wanted, if one is.
fn has_key(wanted: Option<usize>, given: Option<usize>) -> bool
    ensures { result ≡ has_key wanted given }
{
    match wanted {
        None => true,
        Some(wanted) => match given {
            None => false,
            Some(given) => given == wanted,
        },
    }
}

impl Access {
    /// Whether one who asks is permitted.
    fn permits(&self, asker: Asker) -> bool
        ensures { result ≡ permits asker self.now }
    {
        self.network.contains(asker.address) && has_key(self.key, asker.key)
    }
}

/// Whether one of some rules permits one who asks.
fn is_permitted(allowed: &[Access], asker: Asker) -> bool
    ensures { result ≡ is_permitted allowed.now asker }
{
    for access in allowed {
        if access.permits(asker) {
            return true;
        }
    }
    false
}

/// Whether an apex is the name of a question.
fn is_named(apex: &Name, question: &QuestionRef<'_>) -> bool
    ensures { result ≡ same_name question.now.qname apex.now }
{
    names_are_ordered();
    question.qname().name_eq(&apex.for_ref())
}

impl ZoneAccess {
    /// Whether the zone is asked, and none of its rules permits it.
    fn forbids(&self, question: &QuestionRef<'_>, asker: Asker) -> bool
        ensures { result ≡ forbids question.now.qname asker self.now }
    {
        is_named(&self.apex, question) && !is_permitted(self.allowed.as_slice(), asker)
    }
}

/// Whether one of some zones is asked, and none of its rules permits it.
fn is_forbidden(zones: &[ZoneAccess], question: &QuestionRef<'_>, asker: Asker) -> bool
    ensures { result ≡ is_forbidden zones.now question.now.qname asker }
{
    for zone in zones {
        if zone.forbids(question, asker) {
            return true;
        }
    }
    false
}

/// Whether a question asks for a transfer.
fn asks_transfer(question: &QuestionRef<'_>) -> bool
    ensures { result ≡ asks_transfer question.now }
{
    let qtype = question.qtype().to_int();
    qtype == AXFR || qtype == IXFR
}

impl KeyAccess {
    /// REFUSED, if a transfer isn't permitted.
    fn transfer_refusal(&self, question: &QuestionRef<'_>, asker: Asker) -> Option<OptRcode>
        ensures { result ≡ transfer_refusal self.now question.now.qname asker }
    {
        if is_forbidden(self.transfers.as_slice(), question, asker) {
            return Some(OptRcode::REFUSED);
        }
        None
    }

    /// NOTAUTH, if a NOTIFY isn't permitted.
    fn notify_refusal(&self, question: &QuestionRef<'_>, asker: Asker) -> Option<OptRcode>
        ensures { result ≡ notify_refusal self.now question.now.qname asker }
    {
        if is_forbidden(self.notifies.as_slice(), question, asker) {
            return Some(OptRcode::NOTAUTH);
        }
        None
    }

    /// The response code with which a question is refused, by the opcode of its message.
    fn question_refusal(
        &self,
        opcode: Opcode,
        question: &QuestionRef<'_>,
        asker: Asker,
    ) -> Option<OptRcode>
        ensures { result ≡ question_refusal self.now opcode question.now asker }
    {
        if opcode == Opcode::NOTIFY {
            return self.notify_refusal(question, asker);
        }
        if opcode == Opcode::QUERY && asks_transfer(question) {
            return self.transfer_refusal(question, asker);
        }
        None
    }

    /// The response code with which a request is refused, if it is.
    pub(crate) fn refusal(&self, request: &Request<Option<usize>>) -> Option<OptRcode>
        ensures { result ≡ access_refusal self.now request.now }
    {
        let opcode = request.message().header().opcode;
        match request.message().first_question() {
            Some(question) => self.question_refusal(opcode, &question, asker_of(request)),
            None => None,
        }
    }
}
