//! The texts of octets and numbers.

ghost use Rattle.std.specs.Fmt.{WritesOnOk};
ghost use Rattle.dns_lists.specs.Texts.{bracketed, octets_text, plain_text, spaced_text};

use std::fmt;

/// Writes each octet in hexadecimal, with a space after it.
pub(crate) fn write_spaced<W: fmt::Write>(octets: &[u8], f: &mut fmt::Formatter<W>) -> fmt::Result
    ensures { WritesOnOk W.write_str_gives f.old result (spaced_text octets.now) f.new }
{
    let mut left = octets;
    'each: while let Some((octet, more)) = left.split_first() {
        write!(f, "{octet:X} ")?;
        left = more;
    }
    Ok(())
}

/// Writes octets as text in brackets, if they are text.
fn write_bracketed<W: fmt::Write>(octets: &[u8], f: &mut fmt::Formatter<W>) -> fmt::Result
    ensures { WritesOnOk W.write_str_gives f.old result (bracketed octets.now) f.new }
{
    match str::from_utf8(octets) {
        Ok(text) => write!(f, "({text})"),
        Err(_) => Ok(()),
    }
}

/// Writes octets and then the text that they are.
pub(crate) fn write_octets<W: fmt::Write>(octets: &[u8], f: &mut fmt::Formatter<W>) -> fmt::Result
    ensures { WritesOnOk W.write_str_gives f.old result (octets_text octets.now) f.new }
{
    write_spaced(octets, f)?;
    write_bracketed(octets, f)
}

/// Writes each octet as two hexadecimal digits.
pub(crate) fn write_plain<W: fmt::Write>(octets: &[u8], f: &mut fmt::Formatter<W>) -> fmt::Result
    ensures { WritesOnOk W.write_str_gives f.old result (plain_text octets.now) f.new }
{
    let mut left = octets;
    'each: while let Some((octet, more)) = left.split_first() {
        let high = *octet / 16;
        let low = *octet % 16;
        write!(f, "{high:X}{low:X}")?;
        left = more;
    }
    Ok(())
}
