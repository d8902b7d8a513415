//! Sockets of the two nodes, joined over the loopback.
use anyhow::Result;
use std::io;
use std::net::{Net, TcpListener, TcpStream};

/// Both ends of a connection over the loopback, and what cuts it.
pub fn connected<R>(rt: &R) -> Result<(TcpStream, TcpStream, TcpStream)>
where
    R: Net<Listener = TcpListener, Stream = TcpStream>,
{
    let (out, back) = both_ends(rt)?;
    let hook = out.try_clone()?;
    Ok((out, back, hook))
}

fn both_ends<R>(rt: &R) -> io::Result<(TcpStream, TcpStream)>
where
    R: Net<Listener = TcpListener, Stream = TcpStream>,
{
    let listener = TcpListener::bind(rt, "127.0.0.1:0")?;
    let out = TcpStream::connect(rt, listener.local_addr()?)?;
    let (back, _) = listener.accept()?;
    Ok((out, back))
}

/// A second handle of this socket, which sends without delay.
pub fn second_of(socket: &TcpStream) -> io::Result<TcpStream> {
    socket.set_nodelay(true)?;
    socket.try_clone()
}
