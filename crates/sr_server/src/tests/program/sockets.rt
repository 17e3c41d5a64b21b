//! The server over a loopback socket.
use crate::tests::session::{REPLIES, RUN};
use sr_book::Book;
use sr_policy::Policy;
use sr_start::serve;
use std::hash::RandomState;
use std::io::{Read, Write};
use std::net::{Shutdown, TcpListener, TcpStream};
use std::test::Fail;

// The client has sent all its requests before the server starts, so that one thread can be both.
#[test]
fn answers_a_client(rt: HostRuntime) -> Result<(), Fail> {
    let alloc = rt.alloc();
    let listener = TcpListener::bind(&rt, "127.0.0.1:0")?;
    let mut client = TcpStream::connect(&rt, listener.local_addr()?)?;
    client.write_all(RUN)?;
    client.shutdown(Shutdown::Write)?;
    let book = Book::new(alloc, Policy::empty(alloc), RandomState::new(&rt)?);
    let served = serve(&rt, alloc, &listener, book, 1, 1, None);
    assert!(rt; served == Ok(1), "{served:?}");
    let mut replies = Vec::new(alloc);
    client.read_to_end(&mut replies)?;
    assert!(rt; replies.as_slice() == REPLIES.as_slice());
    Ok(())
}
