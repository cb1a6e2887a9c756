//! The header of an answer, written in one.

ghost use Rattle.std.specs.Prelude.{◌≡◌, ◌≤◌, ◌++◌, length, drop};
ghost use Rattle.dns_base.specs.Built.{with_header, zero_header};
ghost use Rattle.dns_base.specs.Header.{header_octets, header_of, IsHeader};
ghost use Rattle.dns_base.specs.Replies.{answer_header};
ghost use Rattle.dns_message.specs.Header.{header_in};

use crate::draft::Draft;
use dns_message::Message;
use dns_name::Rcode;

impl Draft {
    /// Sets the header to that of the answer to a query, in which nothing else is set.
    pub(crate) fn set_answer_header(&mut self, query: &Message, rcode: Rcode)
        ensures { self.new ≡ with_header self.old (answer_header zero_header (header_of query.now) rcode) }
    {
        put_answer_header(&mut self.octets, query.as_slice(), rcode);
    }
}

/// Writes the header of the answer to a query, in which nothing else is set.
#[inline(always)]
fn put_answer_header(octets: &mut Vec<u8>, query: &[u8], rcode: Rcode)
    requires { 6 ≤ length octets.old.items }
    ensures header { drop 2 octets.new.items
        ≡ header_octets (answer_header zero_header (header_of query.now) rcode) ++ drop 6 octets.old.items }
    ensures len { length octets.new.items ≡ length octets.old.items }
    ensures lawful { IsHeader (answer_header zero_header (header_of query.now) rcode) }
{
    let [a, b, c, d] = answer_octets(query, rcode);
    octets[2] = a;
    octets[3] = b;
    octets[4] = c;
    octets[5] = d;
}

/// The four octets that begin the answer to a query: its identifier, opcode and RD, QR and a response code.
#[inline(always)]
fn answer_octets(query: &[u8], rcode: Rcode) -> [u8; 4]
    ensures value { result ≡ header_octets (answer_header zero_header (header_of query.now) rcode) }
    ensures lawful { IsHeader (answer_header zero_header (header_of query.now) rcode) }
{
    match query {
        [a, b, c, d, ..] => answer_from(*a, *b, *c, *d, rcode),
        _ => answer_from(0, 0, 0, 0, rcode),
    }
}

/// The four octets that begin the answer to a query which begins with these.
#[inline(always)]
fn answer_from(a: u8, b: u8, c: u8, d: u8, rcode: Rcode) -> [u8; 4]
    ensures value { result ≡ header_octets (answer_header zero_header (header_in a b c d) rcode) }
    ensures lawful { IsHeader (answer_header zero_header (header_in a b c d) rcode) }
{
    let _codes = d;
    [a, b, 128 + 8 * (c / 8 % 16) + c % 2, rcode.to_int()]
}
