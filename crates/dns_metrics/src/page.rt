//! Pages, as requests ask for them.

ghost use Rattle.std.specs.Prelude.{◌≡◌, ◌∷◌, ◌++◌, [], OnOk};
ghost use Rattle.http_server.specs.Response.{fields_of};
ghost use Rattle.dns_metrics.specs.Exposition.{exposition_text};
ghost use Rattle.dns_metrics.specs.Pages.{Extends, IsAnswered, IsGiven, allowed, page_of, text_format};

use crate::error::MetricError;
use crate::family::Family;
use crate::text::exposition;
use bytes::{BufMut, Bytes};
use http::{HeaderName, HeaderValue, Request, StatusCode};
use http_server::{Response, Service};
use std::alloc::{AllocError, Global};

/// What is measured.
pub trait Measured {
    /// The metrics, as they are now.
    fn families(&self, alloc: Global) -> Result<Vec<Family>, MetricError>;
}

/// What a request asks for.
#[derive(Clone, Copy)]
pub enum Page {
    /// The metrics.
    Metrics,
    /// The metrics, by a method that isn't allowed (RFC 9110, section 15.5.6).
    NotAllowed,
    /// A page that isn't there (RFC 9110, section 15.5.5).
    NotFound,
}

/// What a request of a method asks for at a path.
pub fn page_of(method: &str, path: &str) -> Page
    ensures { result ≡ page_of method.now path.now }
{
    if path != "/metrics" {
        return Page::NotFound;
    }
    if method == "GET" || method == "HEAD" {
        return Page::Metrics;
    }
    Page::NotAllowed
}

/// The pages of what is measured.
#[derive(Drop)]
pub(crate) struct Pages<'a, M> {
    pub(crate) alloc: Global,
    pub(crate) measured: &'a M,
}

/// Answers with the text of families.
fn give(response: &mut Response, alloc: Global, families: &[Family]) -> Result<(), AllocError>
    ensures { OnOk result (Extends text_format (exposition_text families.now) response.old response.new) }
{
    let text = exposition(alloc, families)?;
    response.body.put_slice(text.as_slice())?;
    let format = HeaderValue::from_static("text/plain; version=0.0.4; charset=utf-8");
    response.add_header(HeaderName::from_static("content-type"), format)?;
    Ok(())
}

/// Answers with the methods that are allowed.
fn allow(response: &mut Response) -> Result<(), AllocError>
    ensures status { OnOk result (response.new.status ≡ 405) }
    ensures fields { OnOk result (fields_of response.new ≡ fields_of response.old ++ allowed ∷ []) }
    ensures body { OnOk result (response.new.body ≡ response.old.body) }
{
    response.status = StatusCode::METHOD_NOT_ALLOWED;
    let methods = HeaderValue::from_static("GET, HEAD");
    response.add_header(HeaderName::from_static("allow"), methods)?;
    Ok(())
}

impl<'a, M: Measured> Pages<'a, M> {
    /// Answers with what is measured now.
    fn give_metrics(&self, response: &mut Response) -> Result<(), AllocError>
        ensures { OnOk result (IsGiven response.old response.new) }
    {
        match self.measured.families(self.alloc) {
            Ok(families) => {
                give(response, self.alloc, families.as_slice())?;
                Ok(())
            }
            Err(_) => {
                response.status = StatusCode::INTERNAL_SERVER_ERROR;
                Ok(())
            }
        }
    }
}

impl<'a, M: Measured> Service for Pages<'a, M> {
    ghost answers = { λ old request response new. IsAnswered request response × (new ≡ old) };

    fn call(
        &mut self,
        request: &Request<Bytes>,
        response: &mut Response,
    ) -> Result<(), AllocError> {
        let closing = HeaderValue::from_static("close");
        response.add_header(HeaderName::from_static("connection"), closing)?;
        match page_of(request.method().as_str(), request.uri().path()) {
            Page::Metrics => {
                self.give_metrics(response)?;
                Ok(())
            }
            Page::NotAllowed => {
                allow(response)?;
                Ok(())
            }
            Page::NotFound => {
                response.status = StatusCode::NOT_FOUND;
                Ok(())
            }
        }
    }
}
