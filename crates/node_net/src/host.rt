//! What a node asks of the system.
use std::net::{Net, TcpListener, TcpStream};
use std::sync::Wait;
use std::thread::Threads;
use std::time::Clock;

/// The handles that a node at work needs. (Not `Files`: a bound that holds it isn't known to hold
/// in another thread.)
pub trait Host: Net<Listener = TcpListener, Stream = TcpStream> + Threads + Wait + Clock + Sync {}

impl<R> Host for R
where
    R: Net<Listener = TcpListener, Stream = TcpStream> + Threads + Wait + Clock + Sync,
{}
