//! Octets as text.

ghost use Rattle.std.specs.Fmt.{WritesOnOk};
ghost use Rattle.hex.specs.Hex.{encode_upper};

use std::fmt;

/// Writes two upper-case hexadecimal digits for each octet.
pub(crate) fn write_hex<W: fmt::Write>(octets: &[u8], f: &mut fmt::Formatter<W>) -> fmt::Result
    ensures { WritesOnOk W.write_str_gives f.old result (encode_upper octets.now) f.new }
{
    'octets: for octet in octets {
        write_octet(*octet, f)?;
    }
    Ok(())
}

fn write_octet<W: fmt::Write>(octet: u8, f: &mut fmt::Formatter<W>) -> fmt::Result
    ensures { WritesOnOk W.write_str_gives f.old result (encode_upper (octet ∷ [])) f.new }
{
    write!(f, "{octet:02X}")
}

ghost use Rattle.std.specs.Prelude.{◌∷◌, []};
