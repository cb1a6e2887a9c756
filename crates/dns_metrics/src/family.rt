//! Metrics as values.

ghost use Rattle.std.specs.Prelude.{◌≡◌, ◌++◌, ◌∷◌, ◌↔◌, [], false, IfOk, IsErrOf, IsTrue, OnErr, OnOk, string_bytes};
ghost use Rattle.dns_metrics.specs.Names.{is_label_name, is_metric_name};

use crate::error::MetricError;
use crate::names::{is_label_name, is_metric_name};
use std::alloc::{AllocError, Global};

/// What a metric is: a number that only grows, except for a new start; or one that may fall too.
#[derive(Clone, Copy)]
pub enum MetricKind {
    Counter,
    Gauge,
}

/// A label of a sample. Its name is allowed.
#[derive(Drop)]
pub struct Label {
    pub name: String,
    pub value: String,
    ghost named: { IsTrue (is_label_name (string_bytes name)) },
}

impl Label {
    /// A label of this name, with this value.
    pub fn new(alloc: Global, name: &str, value: &str) -> Result<Label, MetricError>
        ensures name { IfOk result (λ l. string_bytes l.name ≡ name.now) }
        ensures value { IfOk result (λ l. string_bytes l.value ≡ value.now) }
        ensures refused { IsErrOf result MetricError.Name ↔ (is_label_name name.now ≡ false) }
    {
        if !is_label_name(name) {
            return Err(MetricError::Name);
        }
        let name = String::from_str(alloc, name)?;
        let value = String::from_str(alloc, value)?;
        Ok(Label { name, value })
    }
}

/// A sample: a value under labels.
#[derive(Drop)]
pub struct Sample {
    pub labels: Vec<Label>,
    pub value: u64,
}

/// A metric and its samples. Its name is allowed.
#[derive(Drop)]
pub struct Family {
    pub name: String,
    /// What it tells, in words.
    pub help: String,
    pub kind: MetricKind,
    pub samples: Vec<Sample>,
    ghost named: { IsTrue (is_metric_name (string_bytes name)) },
}

impl Family {
    /// A metric without samples.
    pub fn new(
        alloc: Global,
        name: &str,
        help: &str,
        kind: MetricKind,
    ) -> Result<Family, MetricError>
        ensures name { IfOk result (λ f. string_bytes f.name ≡ name.now) }
        ensures help { IfOk result (λ f. string_bytes f.help ≡ help.now) }
        ensures kind { IfOk result (λ f. f.kind ≡ kind) }
        ensures samples { IfOk result (λ f. f.samples.items ≡ []) }
        ensures refused { IsErrOf result MetricError.Name ↔ (is_metric_name name.now ≡ false) }
    {
        if !is_metric_name(name) {
            return Err(MetricError::Name);
        }
        let name = String::from_str(alloc, name)?;
        let help = String::from_str(alloc, help)?;
        Ok(Family {
            name,
            help,
            kind,
            samples: Vec::new(alloc),
        })
    }

    /// Adds a sample after the others.
    pub fn add(&mut self, labels: Vec<Label>, value: u64) -> Result<(), AllocError>
        ensures added { OnOk result (self.new.samples.items ≡ self.old.samples.items ++ (record { labels = labels; value = value }) ∷ []) }
        ensures kept { OnErr result (self.new.samples.items ≡ self.old.samples.items) }
        ensures rest { (self.new.name ≡ self.old.name) × (self.new.help ≡ self.old.help) × (self.new.kind ≡ self.old.kind) }
    {
        self.samples.push(Sample { labels, value })?;
        Ok(())
    }
}
