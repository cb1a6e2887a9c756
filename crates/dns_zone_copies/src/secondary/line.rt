//! What is said of a secondary.

ghost use Rattle.std.specs.Prelude.{◌≡◌, ◌++◌, OnOk, string_bytes};
ghost use Rattle.dns_zone_copies.specs.Reporting.{AddsLine, check_text, copy_text, zone_text};

use crate::secondary::Secondary;
use dns_socket_addr::SocketAddrText;
use std::alloc::{AllocError, Global};
use std::fmt::Write;

/// Whether a primary is asked at this moment, in words.
fn check_text(is_checking: bool) -> &'static str
    ensures { result.now ≡ check_text is_checking }
{
    if is_checking {
        ", which is asked now"
    } else {
        ""
    }
}

impl Secondary {
    /// Appends what is said of its copy.
    fn push_copy(&self, text: &mut String) -> Result<(), AllocError>
        ensures { OnOk result (string_bytes text.new ≡ string_bytes text.old ++ copy_text self.now.copy.held) }
    {
        match self.copy.held() {
            Some(timers) => {
                let serial = timers.serial.into_int();
                write!(text, ", serial {serial}")
            }
            None => text.push_str(", no copy"),
        }
    }

    /// Appends its zone and its primary, whose address is written so, and whether that is asked.
    fn push_zone(
        &self,
        text: &mut String,
        primary: &str,
        is_checking: bool,
    ) -> Result<(), AllocError>
        ensures { OnOk result (string_bytes text.new ≡ string_bytes text.old ++ zone_text self.now primary.now is_checking) }
    {
        let apex = &self.apex;
        let checked = check_text(is_checking);
        write!(text, "secondary {apex} of {primary}{checked}")
    }

    /// Appends its line.
    pub(crate) fn push_line(&self, alloc: Global, text: &mut String) -> Result<(), AllocError>
        ensures { OnOk result (AddsLine self.now (string_bytes text.old) (string_bytes text.new)) }
    {
        let primary = format!(in alloc; "{}", SocketAddrText(self.primary))?;
        self.push_zone(text, primary.as_str(), self.checking.is_some())?;
        self.push_copy(text)?;
        text.push_str("\n")?;
        Ok(())
    }
}
