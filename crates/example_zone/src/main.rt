//! Reads a zone file on standard input, below the origin that is named, and writes its records or how many there are.
//!
//! By the word `many` the octet 1 separates one text from the next, and the records of each are counted.
//! tools/zone_files runs it too. It shows `read_zone` and `write_zone` of dns_zone_file.
#![tactic(auto)]

use anyhow::bail;
use dns_name::Name;
use dns_zone_file::{PresentationText, ZoneFileError, read_zone, write_zone};
use std::env;
use std::io::Read;

fn main(rt: HostRuntime) -> anyhow::Result<()> {
    let words: Vec<String> = env::args(&rt)?.skip(1).collect(rt.alloc())?;
    let [mode, origin] = words.as_slice() else {
        bail!("usage: example_zone count|many|write ORIGIN < ZONE_FILE");
    };
    let mut text: Vec<u8> = Vec::new(rt.alloc());
    rt.stdin().read_to_end(&mut text)?;
    let Ok(origin) = Name::from_text(rt.alloc(), origin.as_str()) else {
        bail!("the origin is no name");
    };
    match mode.as_str() {
        "write" => written(&rt, &origin, text.as_slice()),
        "many" => many(&rt, &origin, text.as_slice()),
        _ => counted(&rt, &origin, text.as_slice()),
    }
}

/// Writes how many records each text has, or why it is refused.
fn many(rt: &HostRuntime, origin: &Name, texts: &[u8]) -> anyhow::Result<()> {
    for text in texts.split(|octet| *octet == 1) {
        counted(rt, origin, text)?;
    }
    Ok(())
}

/// Writes how many records a text has, or why it is refused.
fn counted(rt: &HostRuntime, origin: &Name, text: &[u8]) -> anyhow::Result<()> {
    match read_zone(rt.alloc(), origin, text) {
        Ok(records) => {
            println!(rt; "{} records", records.len())?;
            Ok(())
        }
        Err(error) => refused(rt, error),
    }
}

/// Writes the records of a text, or why it is refused.
fn written(rt: &HostRuntime, origin: &Name, text: &[u8]) -> anyhow::Result<()> {
    match read_zone(rt.alloc(), origin, text) {
        Ok(records) => {
            let Ok(written) = write_zone(rt.alloc(), records.as_slice()) else {
                bail!("out of memory");
            };
            print!(rt; "{}", PresentationText::new(written))?;
            Ok(())
        }
        Err(error) => refused(rt, error),
    }
}

/// Writes the line and the reason of a refusal.
fn refused(rt: &HostRuntime, error: ZoneFileError) -> anyhow::Result<()> {
    match error {
        ZoneFileError::Refused { line, reason } => {
            println!(rt; "line {line}: {reason:?}")?;
            Ok(())
        }
        ZoneFileError::OutOfMemory => bail!("out of memory"),
    }
}
