//! Who answers the requests of a connection.
use crate::answers::{ContentKind, Wanted, refuse_host, refuse_method, say, say_line};
use crate::host::is_of_here;
use bytes::Bytes;
use http::{Request, StatusCode};
use http_server::{Response, Service};
use pg_page::{NodeView, Sheet, Shown, put_metrics, put_page, status_json};
use std::alloc::{AllocError, Global};
use std::sync::Wait;
use std::time::Clock;

/// Looks at a node for who asks.
#[derive(Drop)]
pub struct Looker<'a, R: Wait + Clock, N: Shown> {
    pub rt: &'a R,
    pub alloc: Global,
    pub node: &'a N,
    /// Whether this machine alone is to look on.
    pub is_here: bool,
}

impl<R: Wait + Clock, N: Shown> Service for Looker<'_, R, N> {
    ghost answers = { λ _ _ _ _. Unit {0} };

    fn call(
        &mut self,
        request: &Request<Bytes>,
        response: &mut Response,
    ) -> Result<(), AllocError> {
        answer(self, request, response)
    }
}

fn answer<R: Wait + Clock, N: Shown>(
    looker: &Looker<'_, R, N>,
    request: &Request<Bytes>,
    response: &mut Response,
) -> Result<(), AllocError> {
    if looker.is_here && !is_of_here(request) {
        return refuse_host(response);
    }
    let method = request.method().as_str();
    if method != "GET" && method != "HEAD" {
        return refuse_method(response);
    }
    match Wanted::at(request.uri().path()) {
        Some(Wanted::Health) => say_health(looker, response),
        Some(wanted) => say_view(looker, wanted, response),
        None => say_line(StatusCode::NOT_FOUND, "no such page\n", response),
    }
}

fn say_health<R: Wait + Clock, N: Shown>(
    looker: &Looker<'_, R, N>,
    response: &mut Response,
) -> Result<(), AllocError> {
    let health = looker.node.health(looker.rt);
    let status = StatusCode::from_u16(health.status()).unwrap_or(StatusCode::INTERNAL_SERVER_ERROR);
    say_line(status, health.line(), response)
}

/// Copies what is wanted of the node, and writes it then, behind no lock.
fn say_view<R: Wait + Clock, N: Shown>(
    looker: &Looker<'_, R, N>,
    wanted: Wanted,
    response: &mut Response,
) -> Result<(), AllocError> {
    let alloc = looker.alloc;
    let view = looker.node.view(looker.rt, wanted == Wanted::Page)?;
    let (kind, written) = match wanted {
        Wanted::Metrics => (ContentKind::Metrics, metrics(alloc, &view)),
        Wanted::Status => (ContentKind::Json, status_json(alloc, &view)),
        _ => (ContentKind::Html, page(alloc, &view)),
    };
    drop(view);
    let text = Bytes::from_vec(written?)?;
    say(StatusCode::OK, kind, text, response)
}

fn metrics(alloc: Global, view: &NodeView) -> Result<Vec<u8>, AllocError> {
    let mut sheet = Sheet::new(alloc);
    put_metrics(view, &mut sheet);
    sheet.into_bytes()
}

fn page(alloc: Global, view: &NodeView) -> Result<Vec<u8>, AllocError> {
    let mut sheet = Sheet::new(alloc);
    put_page(view, &mut sheet);
    sheet.into_bytes()
}
