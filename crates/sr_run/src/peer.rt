use std::io::ErrorKind;
use std::net::TcpStream;

/// Whether a client has closed its connection, or its half of it. Requests that it sent before and that were not read
/// yet hide that.
pub(crate) fn is_gone(peer: &TcpStream) -> bool {
    if peer.set_nonblocking(true).is_err() {
        return false;
    }
    let mut byte = [0];
    let gone = match peer.peek(&mut byte) {
        Ok(count) => count == 0,
        Err(error) => error.kind() != ErrorKind::WouldBlock
            && error.kind() != ErrorKind::Interrupted,
    };
    // A read that cannot wait would end the session as well.
    peer.set_nonblocking(false).is_err() || gone
}
