//! Connections for which there is no room, and the end of the others.
use pg_streams::hear_out;
use std::io::Write;
use std::net::{Shutdown, TcpStream};
use std::time::Clock;

const FULL: &[u8] =
    b"HTTP/1.1 503 Service Unavailable\r\nconnection: close\r\ncontent-length: 26\r\n\r\ntoo many connections here\n";

/// Says that there is no room.
pub fn say_full(stream: &TcpStream) {
    let mut writer = stream;
    writer.write_all(FULL).ok();
}

/// Ends a connection. What was written behind the last request is read for a moment.
pub fn hang_up<R: Clock>(rt: &R, stream: &TcpStream) {
    stream.shutdown(Shutdown::Write).ok();
    hear_out(rt, stream).ok();
    stream.shutdown(Shutdown::Both).ok();
}
