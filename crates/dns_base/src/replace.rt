//! Records of a type among those that stand in a built message.

ghost use Rattle.std.specs.Prelude.{◌≡◌, ◌≤◌, ◌<◌, ◌+◌, ◌-◌, ◌++◌, length, take, drop};
ghost use Rattle.dns_base.specs.Draft.{counted};
ghost use Rattle.dns_base.specs.Replaced.{AreSpelt, behind_records, kept_of, kept_part, other_than, records_at, spelling};
ghost use Rattle.dns_base.specs.Standing.{record_at};

use dns_message::record_in;
use dns_name::Rtype;

/// The records of other types than one, among that many from a place of a message on.
#[derive(Clone, Copy)]
pub(crate) struct Others {
    /// Where the records begin.
    pub(crate) start: usize,
    /// How many records there are.
    pub(crate) count: u16,
    /// How many of them are of other types.
    pub(crate) kept: u16,
    /// How many octets those take.
    pub(crate) size: usize,
}

/// What is kept of the record at a place.
#[derive(Clone, Copy)]
struct KeptSpan {
    /// How many records: none or one.
    many: u16,
    /// How many octets.
    size: usize,
    /// The place after the record.
    end: usize,
}

/// What is kept of the record at a place if records of a type are dropped.
#[tactic(auto, unfolding(dns_message::specs::Standing::record_at))]
fn kept_at(message: &[u8], at: usize, rtype: Rtype) -> KeptSpan
    requires { at ≤ length message.now }
    ensures { (result.many, result.size, result.end) ≡ kept_of rtype at (record_at message.now at) }
{
    match record_in(message, at) {
        Ok((record, end)) => part_of(record.rtype(), at, end, rtype),
        Err(_) => KeptSpan {
            many: 0,
            size: 0,
            end: at,
        },
    }
}

/// What is kept of a record of a type if records of another are dropped.
fn part_of(kind: Rtype, at: usize, end: usize, rtype: Rtype) -> KeptSpan
    ensures { (result.many, result.size, result.end) ≡ kept_part kind rtype at end }
{
    if kind == rtype {
        return KeptSpan {
            many: 0,
            size: 0,
            end,
        };
    }
    KeptSpan {
        many: 1,
        size: end.saturating_sub(at),
        end,
    }
}

/// The records of other types than one.
pub(crate) fn count_others(message: &[u8], start: usize, count: u16, rtype: Rtype) -> Others
    requires { AreSpelt message.now count start }
    ensures start { result.start ≡ start }
    ensures count { result.count ≡ count }
    ensures kept { result.kept ≡ length (other_than rtype (records_at message.now count start)) }
    ensures size { result.size ≡ length (spelling (other_than rtype (records_at message.now count start))) }
{
    let mut at = start;
    let mut kept = 0;
    let mut size = 0;
    let mut left = count;
    'records: while left > 0 {
        let record = kept_at(message, at, rtype);
        kept += record.many;
        size += record.size;
        at = record.end;
        left -= 1;
    }
    Others {
        start,
        count,
        kept,
        size,
    }
}

/// Drops the records of a type in a message that stands after two octets, and sets the count at its place 10.
pub(crate) fn squeeze(octets: &mut Vec<u8>, others: Others, rtype: Rtype, count: u16)
    requires header { 14 ≤ length octets.old.items }
    requires spelt { AreSpelt (drop 2 octets.old.items) others.count others.start }
    requires behind { 12 ≤ others.start }
    ensures message { drop 2 octets.new.items
        ≡ counted 10 count (take others.start (drop 2 octets.old.items)
        ++ (spelling (other_than rtype (records_at (drop 2 octets.old.items) others.count others.start))
        ++ behind_records (drop 2 octets.old.items) others.count others.start)) }
    ensures framed { 14 ≤ length octets.new.items }
{
    let end = sift(
        &mut octets.as_mut_slice()[2..],
        others.start,
        others.count,
        rtype,
    );
    octets.truncate(end + 2);
    octets[12] = (count / 256) as u8;
    octets[13] = (count % 256) as u8;
}

/// Moves the records of other types and what is after the records together, and gives the place where that ends.
fn sift(message: &mut [u8], start: usize, count: u16, rtype: Rtype) -> usize
    requires { AreSpelt message.old count start }
    ensures message { take result message.new
        ≡ take start message.old ++ (spelling (other_than rtype (records_at message.old count start))
        ++ behind_records message.old count start) }
    ensures len { length message.new ≡ length message.old }
    ensures within { result ≤ length message.new }
    ensures behind { start ≤ result }
{
    let mut at = start;
    let mut put = start;
    let mut left = count;
    'records: while left > 0 {
        let record = kept_at(message, at, rtype);
        move_back(message, at, record.size, put);
        put += record.size;
        at = record.end;
        left -= 1;
    }
    let size = message.len() - at;
    move_back(message, at, size, put);
    put + size
}

/// Copies octets to an earlier place.
fn move_back(message: &mut [u8], at: usize, size: usize, put: usize)
    requires earlier { put ≤ at }
    requires within { at + size ≤ length message.old }
    ensures moved { take (put + size) message.new ≡ take put message.old ++ take size (drop at message.old) }
    ensures behind { drop (at + size) message.new ≡ drop (at + size) message.old }
    ensures len { length message.new ≡ length message.old }
{
    if put < at {
        message.copy_within(at..at + size, put);
    }
}
