//! Rows of a service in all layers, which are set as the row says.

use crate::layer_rows::Layers;
use crate::request_rows::hint_said;
use crate::said::{Shown, called};
use crate::target::Target;
use dns_middleware::{Settings, wrap};
use dns_service::{OutOfMemory, Request, Service};
use rows_table::{Row, RowError, array_of};

/// All layers as a row sets them, with a target, and how often their stream is polled.
#[derive(Drop)]
pub(crate) struct All {
    strict: bool,
    edns: bool,
    cookies: Option<[u8; 16]>,
    polls: u8,
    target: Target,
}

impl All {
    /// The layers of the next words: `strict` or `relaxed`, `edns` or `plain`, the secret of cookies or `-`, how often the
    /// stream is polled, and the target.
    pub(crate) fn next(row: &mut Row<'_>) -> All {
        All {
            strict: either(row, "strict", "relaxed"),
            edns: either(row, "edns", "plain"),
            cookies: match row.word() {
                "-" => None,
                word => Some(row.read(array_of(word), [0; 16])),
            },
            polls: row.number(),
            target: Target::next(row),
        }
    }
}

impl Layers for All {
    /// What the layers as one give at that many polls, and the hint that the request has after the call.
    fn ask<S: Service<()>>(&self, row: &mut Row<'_>, service: S, request: &mut Request<()>) {
        let mut settings = Settings::new(row.alloc());
        settings.strict = self.strict;
        settings.edns = self.edns;
        settings.cookies = self.cookies;
        in_settings(row, self, &settings, service, request);
        row.close(", hint");
        hint_said(row, request.transport_ctx())
    }
}

/// What a service in its layers by settings gives at that many polls of a request.
fn in_settings<S: Service<()>>(
    row: &mut Row<'_>,
    all: &All,
    settings: &Settings,
    service: S,
    request: &mut Request<()>,
)
    requires { S.can_call service }
{
    match wrap(row.alloc(), settings, service, all.target) {
        Ok(service) => called(row, service, request, Shown::Polls(all.polls)),
        Err(OutOfMemory) => row.fail(RowError::OutOfMemory),
    }
}

/// Whether the next word is the first of two, and not the second.
fn either(row: &mut Row<'_>, first: &str, second: &str) -> bool {
    let word = row.word();
    if word != first && word != second {
        row.fail(RowError::OutOfForm);
    }
    word == first
}
