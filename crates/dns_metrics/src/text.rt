//! Metrics as text.

ghost use Rattle.std.specs.Prelude.{◌≡◌, ◌++◌, IfOk, OnOk};
ghost use Rattle.std.specs.List.{flat_map};
ghost use Rattle.dns_metrics.specs.Exposition.{behind_comma, escaped_octet, escaped_text, exposition_text, family_text, kind_text, label_text, labels_text, line_text, sample_text};

use crate::family::{Family, Label, MetricKind, Sample};
use itoa::Buffer;
use std::alloc::{AllocError, Global};

/// Appends octets.
fn push(target: &mut Vec<u8>, octets: &[u8]) -> Result<(), AllocError>
    ensures { OnOk result (target.new.items ≡ target.old.items ++ octets.now) }
{
    target.extend_from_slice(octets)?;
    Ok(())
}

/// Appends an octet, escaped if it has to be: a double quote only in a value.
fn push_octet(target: &mut Vec<u8>, octet: u8, is_value: bool) -> Result<(), AllocError>
    ensures { OnOk result (target.new.items ≡ target.old.items ++ escaped_octet is_value octet) }
{
    if octet == b'\\' {
        return push(target, b"\\\\");
    }
    if octet == b'\n' {
        return push(target, b"\\n");
    }
    if octet == b'"' && is_value {
        return push(target, b"\\\"");
    }
    push(target, &[octet])
}

/// Appends a text, escaped.
fn push_text(target: &mut Vec<u8>, text: &[u8], is_value: bool) -> Result<(), AllocError>
    ensures { OnOk result (target.new.items ≡ target.old.items ++ escaped_text is_value text.now) }
{
    for octet in text {
        push_octet(target, *octet, is_value)?;
    }
    Ok(())
}

/// Appends a label.
#[tactic(auto, using(crate::proofs::Appended::regrouped))]
fn push_label(target: &mut Vec<u8>, label: &Label) -> Result<(), AllocError>
    ensures { OnOk result (target.new.items ≡ target.old.items ++ label_text label.now) }
{
    push(target, label.name.as_bytes())?;
    push(target, b"=\"")?;
    push_text(target, label.value.as_bytes(), true)?;
    push(target, b"\"")
}

/// Appends labels, each after a comma.
#[tactic(auto, using(crate::proofs::Appended::regrouped))]
fn push_others(target: &mut Vec<u8>, labels: &[Label]) -> Result<(), AllocError>
    ensures { OnOk result (target.new.items ≡ target.old.items ++ flat_map behind_comma labels.now) }
{
    for label in labels {
        push(target, b",")?;
        push_label(target, label)?;
    }
    Ok(())
}

/// Appends the labels of a sample, if it has any.
#[tactic(auto, using(crate::proofs::Appended::regrouped))]
fn push_labels(target: &mut Vec<u8>, labels: &[Label]) -> Result<(), AllocError>
    ensures { OnOk result (target.new.items ≡ target.old.items ++ labels_text labels.now) }
{
    let [first, others @ ..] = labels else {
        return Ok(());
    };
    push(target, b"{")?;
    push_label(target, first)?;
    push_others(target, others)?;
    push(target, b"}")
}

/// Appends the line of a sample.
#[tactic(auto, using(crate::proofs::Appended::regrouped))]
fn push_sample(target: &mut Vec<u8>, name: &[u8], sample: &Sample) -> Result<(), AllocError>
    ensures { OnOk result (target.new.items ≡ target.old.items ++ sample_text name.now sample.now) }
{
    let mut buffer = Buffer::new();
    push(target, name)?;
    push_labels(target, sample.labels.as_slice())?;
    push(target, b" ")?;
    push(target, buffer.format(sample.value).as_bytes())?;
    push(target, b"\n")
}

/// Appends the lines of samples.
fn push_samples(target: &mut Vec<u8>, name: &[u8], samples: &[Sample]) -> Result<(), AllocError>
    ensures { OnOk result (target.new.items ≡ target.old.items ++ flat_map (sample_text name.now) samples.now) }
{
    for sample in samples {
        push_sample(target, name, sample)?;
    }
    Ok(())
}

/// The word for what a metric is.
fn kind_word(kind: MetricKind) -> &'static str
    ensures { result.now ≡ kind_text kind }
{
    match kind {
        MetricKind::Counter => "counter",
        MetricKind::Gauge => "gauge",
    }
}

/// Appends a line that begins with a word and the name of a metric, and goes on with a text.
#[tactic(auto, using(crate::proofs::Appended::regrouped))]
fn push_line(target: &mut Vec<u8>, word: &[u8], name: &[u8], text: &[u8]) -> Result<(), AllocError>
    ensures { OnOk result (target.new.items ≡ target.old.items ++ line_text word.now name.now text.now) }
{
    push(target, word)?;
    push(target, name)?;
    push(target, b" ")?;
    push_text(target, text, false)?;
    push(target, b"\n")
}

/// Appends a metric: its two lines, and a line for each sample.
#[tactic(auto, using(crate::proofs::Appended::regrouped))]
fn push_family(target: &mut Vec<u8>, family: &Family) -> Result<(), AllocError>
    ensures { OnOk result (target.new.items ≡ target.old.items ++ family_text family.now) }
{
    let name = family.name.as_bytes();
    push_line(target, b"# HELP ", name, family.help.as_bytes())?;
    push_line(target, b"# TYPE ", name, kind_word(family.kind).as_bytes())?;
    push_samples(target, name, family.samples.as_slice())
}

/// The text of metrics in the exposition format, version 0.0.4.
pub fn exposition(alloc: Global, families: &[Family]) -> Result<Vec<u8>, AllocError>
    ensures { IfOk result (λ text. text.items ≡ exposition_text families.now) }
{
    let mut text = Vec::new(alloc);
    for family in families {
        push_family(&mut text, family)?;
    }
    Ok(text)
}
