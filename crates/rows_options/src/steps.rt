//! The steps by which a row fills lists, records and records under construction with options.

use crate::kinds::next_timeout;
use crate::said::built;
use dns_cookie::ClientCookie;
use dns_name::{
    ComposeOptData, ExtendedErrorCode, Name, OptRcode, OptionCode, OutOfMemory, Rcode,
    SecurityAlgorithm,
};
use dns_opt::{BuildDataError, Cookie, KeyTagRef, NsidRef, Opt, OptBuilder, OptRecord};
use rows_table::{Row, RowError, Steps};
use std::alloc::Global;

/// What a step answers: whether the option was pushed.
type Stepped = Result<(), BuildDataError>;

/// What a step answers that is out of form, which the row doesn't hold with.
fn out_of_form(row: &mut Row<'_>) -> Stepped {
    row.fail(RowError::OutOfForm);
    Ok(())
}

/// What options are pushed to.
#[derive(Drop)]
pub enum Target<'a> {
    List(&'a mut Opt),
    Record(&'a mut OptRecord),
    Built(&'a mut OptBuilder),
}

/// Appends octets.
pub fn write(target: &mut Vec<u8>, octets: &[u8]) -> Result<(), OutOfMemory> {
    target.extend_from_slice(octets)?;
    Ok(())
}

impl Target<'_> {
    /// Appends an option.
    fn push<D: ComposeOptData>(&mut self, alloc: Global, option: &D) -> Result<(), BuildDataError> {
        match self {
            Target::List(list) => list.push(alloc, option),
            Target::Record(item) => item.push(alloc, option),
            Target::Built(opt) => opt.push(alloc, option),
        }
    }

    /// Appends an option of a code and as many octets as are stated, by a closure that writes other ones.
    fn raw(&mut self, row: &mut Row<'_>) -> Stepped {
        let code = OptionCode::from_int(row.number());
        let stated = row.number();
        let octets = row.octets();
        let closure = |target: &mut Vec<u8>| write(target, octets);
        match self {
            Target::List(list) => list.push_raw_option(row.alloc(), code, stated, closure),
            Target::Record(item) => item.push_raw_option(row.alloc(), code, stated, closure),
            Target::Built(opt) => opt.push_raw_option(row.alloc(), code, stated, closure),
        }
    }

    /// Pushes an identifier.
    fn nsid(&mut self, row: &mut Row<'_>, octets: &[u8]) -> Stepped {
        match NsidRef::from_slice(octets) {
            Ok(option) => self.push(row.alloc(), &option),
            Err(_) => out_of_form(row),
        }
    }

    /// Pushes an option as it is, the identifier, the number of zeros or the cookie of the next word, or one of no kind.
    fn step(&mut self, step: &str, row: &mut Row<'_>) -> Stepped {
        match step {
            "push_nsid" => {
                let octets = row.octets();
                self.nsid(row, octets)
            }
            "push_zeros" => self.zeros(row),
            "push_cookie" => self.push(row.alloc(), &client_alone(row)),
            "raw" => self.raw(row),
            _ => out_of_form(row),
        }
    }

    /// Pushes an identifier of that many zeros.
    fn zeros(&mut self, row: &mut Row<'_>) -> Stepped {
        let zeros = vec![in row.alloc(); 0u8; row.number()]?;
        self.nsid(row, &zeros)
    }
}

impl Steps for Target<'_> {
    fn take_step(&mut self, step: &str, row: &mut Row<'_>) {
        let done = self.step(step, row);
        built(row, done)
    }
}

/// A client's cookie alone.
fn client_alone(row: &mut Row<'_>) -> Cookie {
    Cookie::new(ClientCookie::from_octets(row.array()), None)
}

/// Pushes the algorithms of the next word's octets, which a client understands.
fn understood(opt: &mut OptBuilder, step: &str, row: &mut Row<'_>) -> Stepped {
    let numbers = row.octets();
    let mut listed = Vec::new(row.alloc());
    for number in numbers {
        row.keep(listed.push(SecurityAlgorithm::from_int(*number)));
    }
    match step {
        "dau" => opt.dau(row.alloc(), &listed),
        "dhu" => opt.dhu(row.alloc(), &listed),
        _ => opt.n3u(row.alloc(), &listed),
    }
}

/// Pushes the name from which a chain is wanted.
fn chain(opt: &mut OptBuilder, row: &mut Row<'_>) -> Stepped {
    match Name::from_octets(row.vector()) {
        Ok(start) => opt.chain(row.alloc(), &start),
        Err(_) => out_of_form(row),
    }
}

/// Pushes key tags.
fn key_tag(opt: &mut OptBuilder, row: &mut Row<'_>) -> Stepped {
    match KeyTagRef::from_slice(row.octets()) {
        Ok(tags) => opt.key_tag(row.alloc(), &tags),
        Err(_) => out_of_form(row),
    }
}

/// Pushes an option of one kind by the call of its name, or as it is.
fn push_kind(opt: &mut OptBuilder, step: &str, row: &mut Row<'_>) -> Stepped {
    match step {
        "nsid" => opt.nsid(row.alloc(), row.octets()),
        "client_nsid" => opt.client_nsid(row.alloc()),
        "padding" => opt.padding(row.alloc(), row.number()),
        "chain" => chain(opt, row),
        "key_tag" => key_tag(opt, row),
        "dau" | "dhu" | "n3u" => understood(opt, step, row),
        _ => push_fields(opt, step, row),
    }
}

/// Pushes an option of numbers, addresses or texts, which the next words give. A timeout is in units of 100 ms, and a
/// subnet is two prefixes and an address. Any other step is left to `Target::step`.
fn push_fields(opt: &mut OptBuilder, step: &str, row: &mut Row<'_>) -> Stepped {
    match step {
        "expire" => opt.expire(row.alloc(), row.optional()),
        "tcp_keepalive" => {
            let timeout = next_timeout(row);
            opt.tcp_keepalive(row.alloc(), timeout)
        }
        "cookie" => opt.cookie(row.alloc(), client_alone(row)),
        "extended_error" => {
            let code = ExtendedErrorCode::from_int(row.number());
            opt.extended_error(row.alloc(), code, Some(row.text()))
        }
        "client_subnet" => {
            let source = row.number();
            let scope = row.number();
            opt.client_subnet(row.alloc(), source, scope, row.address())
        }
        _ => Target::Built(opt).step(step, row),
    }
}

/// The response code of a number below 4096 whose upper eight bits are the first word, and its lower four the second.
pub fn rcode(row: &mut Row<'_>) -> OptRcode {
    let upper = row.number();
    match Rcode::checked_from_int(row.number()) {
        Some(lower) => OptRcode::from_parts(lower, upper),
        None => {
            row.fail(RowError::OutOfForm);
            OptRcode::NOERROR
        }
    }
}

/// A record under construction, and whether a step was refused: then no further one is taken.
#[derive(Drop)]
struct Building<'a> {
    opt: &'a mut OptBuilder,
    done: Result<(), BuildDataError>,
}

impl Steps for Building<'_> {
    fn take_step(&mut self, step: &str, row: &mut Row<'_>) {
        if self.done.is_err() {
            row.all_words();
        } else {
            self.done = set_or_push(self.opt, step, row);
        }
    }
}

/// Sets a number of a record, or pushes an option.
fn set_or_push(opt: &mut OptBuilder, step: &str, row: &mut Row<'_>) -> Stepped {
    match step {
        "udp_payload_size" => opt.set_udp_payload_size(row.number()),
        "rcode" => opt.set_rcode(rcode(row)),
        "version" => opt.set_version(row.number()),
        "dnssec_ok" => opt.set_dnssec_ok(true),
        "fields" => fields(opt, row),
        _ => return push_kind(opt, step, row),
    }
    Ok(())
}

/// Says the numbers of a record, and its options.
fn fields(opt: &OptBuilder, row: &mut Row<'_>) {
    row.tell("udp_payload_size", &opt.udp_payload_size());
    row.tell("rcode", &opt.rcode());
    row.tell("version", &opt.version());
    row.tell_whether("dnssec_ok", opt.dnssec_ok());
    row.tell_octets("options", opt.options().as_slice())
}

/// Builds a record by the steps of a row.
pub fn build(opt: &mut OptBuilder, row: &mut Row<'_>) -> Result<(), BuildDataError> {
    let mut building = Building { opt, done: Ok(()) };
    row.take_steps(", ", &mut building);
    building.done
}
