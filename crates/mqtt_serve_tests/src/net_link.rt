//! A `Link` over sockets of the runtime whose calls don't wait (MQTT 5.0, 4.2).

use mqtt_link::{Got, Link, got};
use std::io;
use std::io::{ErrorKind, Read, Write};
use std::net::{Net, OpenListener, OpenStream, SocketAddr, TcpListener};

/// A listening socket and its connections, of any `Net`.
#[derive(Drop)]
pub(crate) struct NetLink<R: Net> {
    listener: R::Listener,
}

impl<R: Net> NetLink<R> {
    /// Listens at an address; port 0 is any that is free.
    pub(crate) fn bind(net: &R, address: SocketAddr) -> io::Result<NetLink<R>> {
        let listener = TcpListener::bind(net, address)?;
        listener.set_nonblocking(true)?;
        Ok(NetLink { listener })
    }

    /// The address at which it listens, with its port.
    pub(crate) fn address(&self) -> io::Result<SocketAddr> {
        self.listener.local_addr()
    }
}

impl<R: Net> Link for NetLink<R> {
    type Peer = R::Stream;

    fn accept(&mut self) -> Got<R::Stream> {
        let stream = match self.listener.accept() {
            Ok((stream, _)) => stream,
            Err(fault) => {
                return match fault.kind() {
                    ErrorKind::WouldBlock | ErrorKind::Interrupted => Got::Nothing,
                    _ => Got::Failure,
                };
            }
        };
        if stream.set_nonblocking(true).is_err() {
            return Got::Failure;
        }
        // A socket that has no such option serves as well, later.
        let _ = stream.set_nodelay(true);
        Got::Given(stream)
    }

    /// Returns at once, since the runtime waits on one socket alone.
    fn wait(&mut self) {}

    fn read(&mut self, peer: &mut R::Stream, buffer: &mut [u8]) -> Got<usize> {
        got(peer.read(buffer))
    }

    fn write(&mut self, peer: &mut R::Stream, bytes: &[u8]) -> Got<usize> {
        got(peer.write(bytes))
    }
}
