//! Configurations that are read of files.

use anyhow::{Context, bail};
use dns_config::{Config, read_config};
use std::alloc::{AllocError, Global};
use std::fs;

/// The lines of a text in one.
fn in_one_line(alloc: Global, text: &str) -> Result<String, AllocError> {
    let mut line = String::new(alloc);
    for part in text.lines() {
        if !line.is_empty() {
            line.push_str(": ")?;
        }
        line.push_str(part)?;
    }
    Ok(line)
}

/// The configuration that a text is.
fn configuration(alloc: Global, text: &str) -> anyhow::Result<Config> {
    match read_config(alloc, text) {
        Ok(config) => Ok(config),
        Err(error) => {
            let said = format!(in alloc; "{error}")?;
            bail!("{}", in_one_line(alloc, said.as_str())?)
        }
    }
}

/// The configuration that a file has.
pub(crate) fn load_config(rt: &HostRuntime, path: &str) -> anyhow::Result<Config> {
    let text = fs::read_to_string(rt, path).context(format_args!("{path}"))?;
    configuration(rt.alloc(), text.as_str()).context(format_args!("{path}"))
}
