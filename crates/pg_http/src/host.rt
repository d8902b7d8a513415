//! Whom a request takes for its host. A page of another place, whose name was made to mean this
//! machine, gives that name.
use bytes::Bytes;
use http::{Request, header};
use std::net::IpAddr;

/// Whether a request gives no host but an address or `localhost`. Browsers always give one.
pub fn is_of_here(request: &Request<Bytes>) -> bool {
    let Some(host) = request.headers().get(header::HOST) else {
        return true;
    };
    match host.to_str() {
        Ok(host) => names_here(without_port(host)),
        Err(_) => false,
    }
}

fn without_port(host: &str) -> &str {
    match host.rsplit_once(':') {
        Some((name, port)) if port.parse::<u16>().is_ok() => name,
        _ => host,
    }
}

fn names_here(name: &str) -> bool {
    name.eq_ignore_ascii_case("localhost")
        || IpAddr::parse_ascii(without_brackets(name).as_bytes()).is_ok()
}

/// An address of version 6 stands in brackets.
fn without_brackets(name: &str) -> &str {
    match name.strip_prefix('[') {
        Some(rest) => rest.strip_suffix(']').unwrap_or(name),
        None => name,
    }
}
