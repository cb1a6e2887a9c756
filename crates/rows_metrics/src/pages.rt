//! The calls of dns_metrics.

use dns_metrics::{
    Family, Label, MetricError, MetricKind, Page, exposition, is_label_name, is_metric_name,
    page_of,
};
use rows_table::{Calls, Row, RowError, Steps};

/// Calls of names, of metrics and their text, and of pages.
pub struct Pages;

impl Calls for Pages {
    fn answer(&self, call: &str, row: &mut Row<'_>) -> Result<(), RowError> {
        match call {
            "metric_name" => {
                let name = row.text();
                row.whether(is_metric_name(name))
            }
            "label_name" => {
                let name = row.text();
                row.whether(is_label_name(name))
            }
            "exposition" => shown(row),
            "page" => {
                let method = row.word();
                let path = row.word();
                row.say(match page_of(method, path) {
                    Page::Metrics => "metrics",
                    Page::NotAllowed => "not_allowed",
                    Page::NotFound => "not_found",
                })
            }
            _ => return Err(RowError::NoSuchCall),
        }
        Ok(())
    }
}

/// Metrics that steps make.
#[derive(Drop)]
struct PageSteps {
    families: Vec<Family>,
}

/// The text that the octets of the next word are.
fn text_of<'a>(row: &mut Row<'a>) -> &'a str {
    match str::from_utf8(row.octets()) {
        Ok(text) => text,
        Err(_) => {
            row.fail(RowError::OutOfForm);
            ""
        }
    }
}

/// The next label: its name, and the octets of its value.
fn label(row: &mut Row<'_>) -> Result<Label, MetricError> {
    let name = row.word();
    let value = text_of(row);
    Label::new(row.alloc(), name, value)
}

/// The next labels, after their number.
fn labels(row: &mut Row<'_>) -> Result<Vec<Label>, MetricError> {
    let mut labels = Vec::new(row.alloc());
    let count: u8 = row.number();
    for _ in 0..count {
        labels.push(label(row)?)?;
    }
    Ok(labels)
}

impl PageSteps {
    /// Begins with a metric: its name, and the octets of its help text.
    fn begin(&mut self, row: &mut Row<'_>, kind: MetricKind) -> Result<(), MetricError> {
        let name = row.word();
        let help = text_of(row);
        self.families
            .push(Family::new(row.alloc(), name, help, kind)?)?;
        Ok(())
    }

    /// Adds a sample to the last metric: its value, and its labels.
    fn sample(&mut self, row: &mut Row<'_>) -> Result<(), MetricError> {
        let value: u64 = row.number();
        let labels = labels(row)?;
        if let Some(family) = self.families.last_mut() {
            family.add(labels, value)?;
        }
        Ok(())
    }
}

impl Steps for PageSteps {
    fn take_step(&mut self, step: &str, row: &mut Row<'_>) {
        let done = match step {
            "counter" => self.begin(row, MetricKind::Counter),
            "gauge" => self.begin(row, MetricKind::Gauge),
            "sample" => self.sample(row),
            _ => return row.fail(RowError::NoSuchStep),
        };
        if let Err(error) = done {
            row.debug(&error)
        }
    }
}

/// Says a line, `<` and `>` for braces, which stand for a repetition in a row.
fn say_line(row: &mut Row<'_>, line: &str) {
    row.say("\"");
    for part in line.chars() {
        match part {
            '{' => row.close("<"),
            '}' => row.close(">"),
            part => row.close_shown(&part),
        }
    }
    row.close("\"");
}

/// Says each line of the text of metrics that steps make, and whether its last octet is no line feed.
fn shown(row: &mut Row<'_>) {
    let alloc = row.alloc();
    let mut made = PageSteps {
        families: Vec::new(alloc),
    };
    row.take_steps(";", &mut made);
    let Ok(octets) = exposition(alloc, made.families.as_slice()) else {
        return row.fail(RowError::OutOfMemory);
    };
    if let Ok(text) = str::from_utf8(octets.as_slice()) {
        for line in text.lines() {
            say_line(row, line);
        }
    }
    if octets.last() != Some(&b'\n') {
        row.say("unended");
    }
}
