//! Writes the messages that stand on standard input, one a line in hexadecimal digits, as dig writes them.
//!
//! It shows `message_text` of dns_message_text.
#![tactic(auto)]

use anyhow::bail;
use dns_message::MessageRef;
use dns_message_text::message_text;

fn main(rt: HostRuntime) -> anyhow::Result<()> {
    for line in rt.lines(rt.alloc()) {
        let line = line?;
        let octets = hex::decode(rt.alloc(), line.as_str())?;
        message_written(&rt, octets.as_slice())?;
    }
    Ok(())
}

/// Writes the text of a message.
fn message_written(rt: &HostRuntime, octets: &[u8]) -> anyhow::Result<()> {
    let Ok(message) = MessageRef::from_slice(octets) else {
        bail!("a message has 12 octets or more");
    };
    let Ok(text) = message_text(rt.alloc(), &message) else {
        bail!("out of memory");
    };
    println!(rt; "{text}")?;
    Ok(())
}
