//! What is answered, whatever is asked.
use bytes::Bytes;
use http::{HeaderName, HeaderValue, StatusCode, header};
use http_server::Response;
use std::alloc::AllocError;

/// What may be asked for, each at its path.
#[derive(Clone, Copy, Debug, PartialEq, Eq)]
pub enum Wanted {
    Page,
    Metrics,
    Status,
    Health,
}

impl Wanted {
    pub fn at(path: &str) -> Option<Wanted> {
        match path {
            "/" => Some(Wanted::Page),
            "/metrics" => Some(Wanted::Metrics),
            "/status.json" => Some(Wanted::Status),
            "/healthz" => Some(Wanted::Health),
            _ => None,
        }
    }
}

/// What kind of text an answer is.
#[derive(Clone, Copy, Debug, PartialEq, Eq)]
pub enum ContentKind {
    Html,
    Metrics,
    Json,
    Plain,
}

impl ContentKind {
    fn value(self) -> HeaderValue {
        match self {
            ContentKind::Html => HeaderValue::from_static("text/html; charset=utf-8"),
            ContentKind::Metrics => HeaderValue::from_static(
                "text/plain; version=0.0.4; charset=utf-8",
            ),
            ContentKind::Json => HeaderValue::from_static("application/json"),
            ContentKind::Plain => HeaderValue::from_static("text/plain; charset=utf-8"),
        }
    }
}

/// Fills in an answer: its status, its kind and its text. No browser keeps it, takes it for another
/// kind, or runs or loads anything for it, and its connection ends behind it.
pub fn say(
    status: StatusCode,
    kind: ContentKind,
    text: Bytes,
    response: &mut Response,
) -> Result<(), AllocError> {
    response.status = status;
    response.body.push(text)?;
    add(header::CONTENT_TYPE, kind.value(), response)?;
    add(
        header::CONNECTION,
        HeaderValue::from_static("close"),
        response,
    )?;
    add(
        header::CACHE_CONTROL,
        HeaderValue::from_static("no-store"),
        response,
    )?;
    let sniffing = HeaderValue::from_static("nosniff");
    add(header::X_CONTENT_TYPE_OPTIONS, sniffing, response)?;
    let policy = HeaderValue::from_static("default-src 'none'; style-src 'unsafe-inline'");
    add(header::CONTENT_SECURITY_POLICY, policy, response)
}

/// Fills in an answer of one line.
pub fn say_line(
    status: StatusCode,
    line: &'static str,
    response: &mut Response,
) -> Result<(), AllocError> {
    let text = Bytes::from_static(line.as_bytes());
    say(status, ContentKind::Plain, text, response)
}

/// Says that only GET and HEAD are taken.
pub fn refuse_method(response: &mut Response) -> Result<(), AllocError> {
    add(
        header::ALLOW,
        HeaderValue::from_static("GET, HEAD"),
        response,
    )?;
    let status = StatusCode::METHOD_NOT_ALLOWED;
    say_line(status, "only GET and HEAD\n", response)
}

/// Says that the node isn't the host that was asked.
pub fn refuse_host(response: &mut Response) -> Result<(), AllocError> {
    let status = StatusCode::MISDIRECTED_REQUEST;
    say_line(
        status,
        "the Host is neither an address nor localhost\n",
        response,
    )
}

fn add(name: HeaderName, value: HeaderValue, response: &mut Response) -> Result<(), AllocError> {
    response.add_header(name, value)
}
