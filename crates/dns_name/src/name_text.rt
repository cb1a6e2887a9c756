//! Names as text.

ghost use Rattle.std.specs.Prelude.{Some};
ghost use Rattle.std.specs.Fmt.{WritesOnOk};
ghost use Rattle.dns_name.specs.NameText.{digits_text, label_text, more_text, name_text, octet_text};

use crate::labels::Labels;
use std::fmt;

/// An octet of a label, as text (RFC 1035, section 5.1).
#[derive(Clone, Copy)]
struct OctetText(u8);

impl fmt::Display for OctetText {
    ghost output = { λ o. Some (octet_text o.0) };

    fn fmt<W: fmt::Write>(&self, f: &mut fmt::Formatter<W>) -> fmt::Result {
        let octet = self.0;
        let shown = octet as char;
        if octet == b'.' || octet == b'\\' || octet == b' ' {
            write!(f, "\\{shown}")
        } else if 32 < octet && octet < 127 {
            write!(f, "{shown}")
        } else {
            write_digits(octet, f)
        }
    }
}

/// Writes an octet as three decimal digits after a backslash.
fn write_digits<W: fmt::Write>(octet: u8, f: &mut fmt::Formatter<W>) -> fmt::Result
    ensures { WritesOnOk W.write_str_gives f.old result (digits_text octet) f.new }
{
    let (hundreds, tens, ones) = (octet / 100, octet / 10 % 10, octet % 10);
    write!(f, "\\{hundreds}{tens}{ones}")
}

/// A label, as text.
#[derive(Drop)]
struct LabelText<'a>(&'a [u8]);

impl<'a> fmt::Display for LabelText<'a> {
    ghost output = { λ l. Some (label_text l.0.now) };

    fn fmt<W: fmt::Write>(&self, f: &mut fmt::Formatter<W>) -> fmt::Result {
        for octet in self.0 {
            let octet = OctetText(*octet);
            write!(f, "{octet}")?;
        }
        Ok(())
    }
}

/// Writes the labels of a name joined by dots, without a final dot; the root is a dot (RFC 1035, section 5.1).
pub(crate) fn write_name<W: fmt::Write>(
    mut labels: Labels<'_>,
    f: &mut fmt::Formatter<W>,
) -> fmt::Result
    ensures { WritesOnOk W.write_str_gives f.old result (name_text labels.entry) f.new }
{
    let Some(first) = labels.next() else {
        return f.write_str(".");
    };
    let first = LabelText(first);
    write!(f, "{first}")?;
    write_more(labels, f)
}

/// Writes labels, each after a dot.
fn write_more<W: fmt::Write>(mut labels: Labels<'_>, f: &mut fmt::Formatter<W>) -> fmt::Result
    ensures { WritesOnOk W.write_str_gives f.old result (more_text labels.entry) f.new }
{
    'labels: while let Some(label) = labels.next() {
        let label = LabelText(label);
        write!(f, ".{label}")?;
    }
    Ok(())
}
