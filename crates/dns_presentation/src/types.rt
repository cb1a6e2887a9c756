//! Types, and what stands in the data of each.

ghost use Rattle.std.specs.Prelude.{◌≡◌, ◌∷◌, [], IfSome, ◌<◌, map, option_map, codes, take};
ghost use Rattle.std.specs.Char.{to_ascii_lowercase};
ghost use Rattle.std.specs.Str.{bytes_eq};
ghost use Rattle.dns_presentation.specs.Types.{algorithm, algorithm_mnemonic, class_of, holds_one_name, is_meta, layout_of, mnemonic, rare_layout, rare_mnemonic, spells, type_of, unless_meta};

use dns_word_values::decimal;

/// What a word of data is.
#[derive(Clone, Copy, Debug, PartialEq, Eq)]
pub(crate) enum Field {
    /// An IPv4 address.
    Quad,
    /// An IPv6 address.
    LongAddress,
    /// A name.
    Host,
    /// A number of 8 bits.
    Octet,
    /// A number of 16 bits.
    Short,
    /// A number of 32 bits.
    Long,
    /// A time in seconds or with units.
    Period,
    /// A string after its length, without quotes.
    Tag,
    /// A type.
    TypeCode,
    /// A string after its length, in quotes or without.
    CharString,
    /// A time of a signature.
    Moment,
    /// Hexadecimal digits of octets after their length.
    Salt,
    /// Base32 of octets after their length.
    Hashed,
    /// An algorithm of signatures.
    Algorithm,
}

/// What the words after the fields are.
#[derive(Clone, Copy, Debug, PartialEq, Eq)]
pub(crate) enum Rest {
    Nothing,
    /// Strings, each after its length.
    Strings,
    /// A string without its length.
    Value,
    /// Hexadecimal digits.
    Hex,
    Base64,
    /// Types.
    TypeSet,
    /// Service parameters.
    Params,
}

/// Whether a word is this one, in any case.
pub fn spells(lower: &[u8], word: &[u8]) -> bool
    ensures { result ≡ spells lower.now word.now }
{
    word.eq_ignore_ascii_case(lower)
}

/// Types that few zones have.
fn rare_mnemonic(word: &[u8]) -> Option<u16>
    ensures { result ≡ rare_mnemonic word.now }
{
    if spells(b"hinfo", word) {
        Some(13)
    } else if spells(b"minfo", word) {
        Some(14)
    } else if spells(b"rp", word) {
        Some(17)
    } else if spells(b"afsdb", word) {
        Some(18)
    } else if spells(b"rt", word) {
        Some(21)
    } else if spells(b"naptr", word) {
        Some(35)
    } else if spells(b"kx", word) {
        Some(36)
    } else if spells(b"cert", word) {
        Some(37)
    } else if spells(b"dhcid", word) {
        Some(49)
    } else if spells(b"smimea", word) {
        Some(53)
    } else if spells(b"cds", word) {
        Some(59)
    } else if spells(b"cdnskey", word) {
        Some(60)
    } else if spells(b"openpgpkey", word) {
        Some(61)
    } else if spells(b"zonemd", word) {
        Some(63)
    } else if spells(b"spf", word) {
        Some(99)
    } else if spells(b"uri", word) {
        Some(256)
    } else if spells(b"md", word) {
        Some(3)
    } else if spells(b"mf", word) {
        Some(4)
    } else if spells(b"mb", word) {
        Some(7)
    } else if spells(b"mg", word) {
        Some(8)
    } else if spells(b"mr", word) {
        Some(9)
    } else if spells(b"nsec3param", word) {
        Some(51)
    } else if spells(b"csync", word) {
        Some(62)
    } else {
        None
    }
}

fn mnemonic(word: &[u8]) -> Option<u16>
    ensures { result ≡ mnemonic word.now }
{
    if spells(b"a", word) {
        Some(1)
    } else if spells(b"ns", word) {
        Some(2)
    } else if spells(b"cname", word) {
        Some(5)
    } else if spells(b"soa", word) {
        Some(6)
    } else if spells(b"ptr", word) {
        Some(12)
    } else if spells(b"mx", word) {
        Some(15)
    } else if spells(b"txt", word) {
        Some(16)
    } else if spells(b"aaaa", word) {
        Some(28)
    } else if spells(b"srv", word) {
        Some(33)
    } else if spells(b"dname", word) {
        Some(39)
    } else if spells(b"ds", word) {
        Some(43)
    } else if spells(b"sshfp", word) {
        Some(44)
    } else if spells(b"rrsig", word) {
        Some(46)
    } else if spells(b"nsec", word) {
        Some(47)
    } else if spells(b"dnskey", word) {
        Some(48)
    } else if spells(b"nsec3", word) {
        Some(50)
    } else if spells(b"tlsa", word) {
        Some(52)
    } else if spells(b"svcb", word) {
        Some(64)
    } else if spells(b"https", word) {
        Some(65)
    } else if spells(b"caa", word) {
        Some(257)
    } else {
        rare_mnemonic(word)
    }
}

fn unless_meta(rtype: u16) -> Option<u16>
    ensures { result ≡ unless_meta rtype }
{
    match rtype {
        0 | 41 | 128..=255 => None,
        _ => Some(rtype),
    }
}

/// The front of a word.
pub(crate) fn front(word: &[u8], length: usize) -> &[u8]
    ensures { result.now ≡ take length word.now }
{
    if word.len() < length {
        return word;
    }
    &word[..length]
}

/// The type that a word names.
pub(crate) fn type_of(word: &[u8]) -> Option<u16>
    ensures { result ≡ type_of word.now }
{
    if spells(b"type", front(word, 4)) {
        let number = decimal(&word[4..], 65536)?;
        return unless_meta(number as u16);
    }
    mnemonic(word)
}

/// Whether a word names a class, and whether that is IN.
pub fn class_of(word: &[u8]) -> Option<bool>
    ensures { result ≡ class_of word.now }
{
    if spells(b"in", word) || spells(b"class1", word) {
        return Some(true);
    }
    if spells(b"ch", word) || spells(b"hs", word) || spells(b"class", front(word, 5)) {
        return Some(false);
    }
    None
}

/// Whether the data of a type is one name.
fn holds_one_name(rtype: u16) -> bool
    ensures { result ≡ holds_one_name rtype }
{
    matches!(rtype, 2..=5 | 7..=9 | 12 | 39)
}

/// What stands in the data of a type.
pub(crate) fn layout_of(rtype: u16) -> Option<(&'static [Field], Rest)>
    ensures { option_map (λ l. (l.0.now, l.1)) result ≡ layout_of rtype }
{
    if holds_one_name(rtype) {
        return Some((&[Field::Host], Rest::Nothing));
    }
    let (fields, rest): (&'static [Field], Rest) = match rtype {
        1 => (&[Field::Quad], Rest::Nothing),
        28 => (&[Field::LongAddress], Rest::Nothing),
        6 => (
            &[
                Field::Host,
                Field::Host,
                Field::Long,
                Field::Period,
                Field::Period,
                Field::Period,
                Field::Period,
            ],
            Rest::Nothing,
        ),
        14 | 17 => (&[Field::Host, Field::Host], Rest::Nothing),
        15 | 18 | 21 | 36 => (&[Field::Short, Field::Host], Rest::Nothing),
        33 => (
            &[Field::Short, Field::Short, Field::Short, Field::Host],
            Rest::Nothing,
        ),
        16 | 99 => (&[], Rest::Strings),
        257 => (&[Field::Octet, Field::Tag], Rest::Value),
        43 | 59 => (&[Field::Short, Field::Algorithm, Field::Octet], Rest::Hex),
        44 => (&[Field::Octet, Field::Octet], Rest::Hex),
        52 | 53 => (&[Field::Octet, Field::Octet, Field::Octet], Rest::Hex),
        48 | 60 => (
            &[Field::Short, Field::Octet, Field::Algorithm],
            Rest::Base64,
        ),
        _ => return rare_layout(rtype),
    };
    Some((fields, rest))
}

/// An algorithm of signatures by its mnemonic.
fn algorithm_mnemonic(word: &[u8]) -> Option<u64>
    ensures value { result ≡ algorithm_mnemonic word.now }
    ensures below { IfSome result (λ n. n < 256) }
{
    if spells(b"rsamd5", word) {
        Some(1)
    } else if spells(b"dh", word) {
        Some(2)
    } else if spells(b"dsa", word) {
        Some(3)
    } else if spells(b"rsasha1", word) {
        Some(5)
    } else if spells(b"dsa-nsec3-sha1", word) {
        Some(6)
    } else if spells(b"rsasha1-nsec3-sha1", word) {
        Some(7)
    } else if spells(b"rsasha256", word) {
        Some(8)
    } else if spells(b"rsasha512", word) {
        Some(10)
    } else if spells(b"ecc-gost", word) {
        Some(12)
    } else if spells(b"ecdsap256sha256", word) {
        Some(13)
    } else if spells(b"ecdsap384sha384", word) {
        Some(14)
    } else if spells(b"ed25519", word) {
        Some(15)
    } else if spells(b"ed448", word) {
        Some(16)
    } else if spells(b"indirect", word) {
        Some(252)
    } else if spells(b"privatedns", word) {
        Some(253)
    } else if spells(b"privateoid", word) {
        Some(254)
    } else {
        None
    }
}

/// The number of an algorithm of signatures.
pub(crate) fn algorithm(word: &[u8]) -> Option<u64>
    ensures value { result ≡ algorithm word.now }
    ensures below { IfSome result (λ n. n < 256) }
{
    match decimal(word, 256) {
        Some(number) => Some(number),
        None => algorithm_mnemonic(word),
    }
}

/// What stands in the data of a type that few zones have.
fn rare_layout(rtype: u16) -> Option<(&'static [Field], Rest)>
    ensures { option_map (λ l. (l.0.now, l.1)) result ≡ rare_layout rtype }
{
    let (fields, rest): (&'static [Field], Rest) = match rtype {
        13 => (&[Field::CharString, Field::CharString], Rest::Nothing),
        35 => (
            &[
                Field::Short,
                Field::Short,
                Field::CharString,
                Field::CharString,
                Field::CharString,
                Field::Host,
            ],
            Rest::Nothing,
        ),
        37 => (
            &[Field::Short, Field::Short, Field::Algorithm],
            Rest::Base64,
        ),
        46 => (
            &[
                Field::TypeCode,
                Field::Algorithm,
                Field::Octet,
                Field::Long,
                Field::Moment,
                Field::Moment,
                Field::Short,
                Field::Host,
            ],
            Rest::Base64,
        ),
        47 => (&[Field::Host], Rest::TypeSet),
        50 => (
            &[
                Field::Octet,
                Field::Octet,
                Field::Short,
                Field::Salt,
                Field::Hashed,
            ],
            Rest::TypeSet,
        ),
        51 => (
            &[Field::Octet, Field::Octet, Field::Short, Field::Salt],
            Rest::Nothing,
        ),
        62 => (&[Field::Long, Field::Short], Rest::TypeSet),
        49 | 61 => (&[], Rest::Base64),
        63 => (&[Field::Long, Field::Octet, Field::Octet], Rest::Hex),
        64 | 65 => (&[Field::Short, Field::Host], Rest::Params),
        256 => (&[Field::Short, Field::Short], Rest::Value),
        _ => return None,
    };
    Some((fields, rest))
}
