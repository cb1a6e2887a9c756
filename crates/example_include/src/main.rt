//! Reads a zone file and the files that it includes, and writes its records.
//!
//! A file is read as soon as its name is asked for, and then the zone again. It shows `read_zone_including` of
//! dns_zone_include.
#![tactic(auto)]

use anyhow::bail;
use dns_message::Record;
use dns_name::{Name, Octets};
use dns_zone_file::write_zone;
use dns_zone_include::{IncludeError, IncludeReason, ZoneText, ZoneTextList, read_zone_including};
use std::{env, fs};

/// How many files may be included.
const MOST_FILES: usize = 100;

fn main(rt: HostRuntime) -> anyhow::Result<()> {
    let words: Vec<String> = env::args(&rt)?.skip(1).collect(rt.alloc())?;
    let [origin, file] = words.as_slice() else {
        bail!("usage: example_include ORIGIN FILE");
    };
    let Ok(origin) = Name::from_text(rt.alloc(), origin.as_str()) else {
        bail!("the origin is no name");
    };
    zone_written(&rt, &origin, file.as_str())
}

/// Writes the records of a file and of those that it includes, or why one is refused.
fn zone_written(rt: &HostRuntime, origin: &Name, file: &str) -> anyhow::Result<()> {
    let whole = fs::read(rt, file)?;
    let mut texts = ZoneTextList::new(rt.alloc());
    for _ in 0..MOST_FILES {
        match read_zone_including(
            rt.alloc(),
            &texts,
            origin,
            file.as_bytes(),
            whole.as_slice(),
        ) {
            Ok(records) => return records_written(rt, records.as_slice()),
            Err(error) => match wanted(&error) {
                Some(file) => file_added(rt, &mut texts, file.as_slice())?,
                None => return refused(rt, &error),
            },
        }
    }
    bail!("more files than {MOST_FILES} are included")
}

/// The name of a file that is to be included and wasn't read yet.
fn wanted(error: &IncludeError) -> Option<&Octets> {
    match error {
        IncludeError::Refused {
            reason: IncludeReason::NoText(file),
            ..
        } => Some(file),
        _ => None,
    }
}

/// One file more that may be included.
fn file_added(rt: &HostRuntime, texts: &mut ZoneTextList, file: &[u8]) -> anyhow::Result<()> {
    let Ok(path) = str::from_utf8(file) else {
        bail!("a file's name is no text");
    };
    let Ok(name) = Octets::from_slice(rt.alloc(), file) else {
        bail!("out of memory");
    };
    let text = Octets::from_vec(fs::read(rt, path)?);
    match texts.push(ZoneText { name, text }) {
        Ok(()) => Ok(()),
        Err(_) => bail!("out of memory"),
    }
}

/// Writes records, one a line.
fn records_written(rt: &HostRuntime, records: &[Record]) -> anyhow::Result<()> {
    let Ok(written) = write_zone(rt.alloc(), records) else {
        bail!("out of memory");
    };
    let Ok(lines) = str::from_utf8(written.as_slice()) else {
        bail!("the text isn't ASCII");
    };
    print!(rt; "{lines}")?;
    Ok(())
}

/// Writes the file, the line and the reason of a refusal.
fn refused(rt: &HostRuntime, error: &IncludeError) -> anyhow::Result<()> {
    let IncludeError::Refused { name, line, reason } = error else {
        bail!("out of memory");
    };
    let Ok(file) = str::from_utf8(name.as_slice()) else {
        bail!("a file's name is no text");
    };
    match reason {
        IncludeReason::Entry(reason) => println!(rt; "{file}, line {line}: {reason:?}")?,
        IncludeReason::NoText(_) => println!(rt; "{file}, line {line}: no such file")?,
        IncludeReason::Loop => println!(rt; "{file}, line {line}: the file includes itself")?,
        IncludeReason::Depth => println!(rt; "{file}, line {line}: too many levels")?,
    }
    Ok(())
}
