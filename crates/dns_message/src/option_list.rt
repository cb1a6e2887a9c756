//! Option lists, the data of an OPT record.

ghost use Rattle.std.specs.Prelude.{◌≡◌, ◌<◌, length, MatchOption, Some, None, is_some};
ghost use Rattle.dns_message.specs.Options.{first_option, options};

/// The first option of a list (RFC 6891, section 6.1.2): its code, its data and what follows it; none if the
/// octets don't begin with a whole option.
pub fn first_option(octets: &[u8]) -> Option<(u16, &[u8], &[u8])>
    ensures { MatchOption result (first_option octets.now ≡ None)
        (λ p. (length p.2.now < length octets.now) × (first_option octets.now ≡ Some (p.0, p.1.now, p.2.now))) }
{
    let [a, b, c, d, rest @ ..] = octets else {
        return None;
    };
    let code = 256 * *a as u16 + *b as u16;
    let size = 256 * *c as usize + *d as usize;
    if size <= rest.len() {
        Some((code, &rest[..size], &rest[size..]))
    } else {
        None
    }
}

/// Whether octets are a list of whole options.
#[tactic(auto, using(crate::proofs::OptionLaws::list_step, crate::proofs::OptionLaws::list_none, crate::proofs::OptionLaws::options_empty))]
pub fn is_option_list(octets: &[u8]) -> bool
    ensures { result ≡ is_some (options octets.now) }
{
    let mut rest = octets;
    'walk: while !rest.is_empty() {
        let Some((_, _, more)) = first_option(rest) else {
            return false;
        };
        rest = more;
    }
    true
}
