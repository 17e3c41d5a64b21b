// What no clause says: which bytes are read, and that they are read back from what clients send.
use sr_resp::{decode, encode};
use std::alloc::{AllocError, Global};
use std::test::Fail;

/// Whether these bytes are read as a reply, and the reply is spelled by the same bytes.
fn is_read_back(alloc: Global, bytes: &[u8]) -> Result<bool, AllocError> {
    match decode(alloc, bytes)? {
        Some(reply) => Ok(encode(alloc, &reply)?.as_slice() == bytes),
        None => Ok(false),
    }
}

/// Replies of each kind, and arrays of them, some in others.
const REPLIES: &[&str] = &[
    "+OK\r\n",
    "+PONG\r\n",
    "-ERR unknown command\r\n",
    "-TOOMANY more than 4096 stranded entries\r\n",
    ":0\r\n",
    ":-1\r\n",
    ":9223372036854775807\r\n",
    ":-9223372036854775808\r\n",
    "$0\r\n\r\n",
    "$2\r\n\r\n\r\n",
    "$42\r\nabcdefghijklmnopqrstuvwxyzabcdefghijklmnop\r\n",
    "$-1\r\n",
    "*-1\r\n",
    "*0\r\n",
    "*2\r\n*-1\r\n$3\r\na\r\n\r\n",
    "*2\r\n*2\r\n*0\r\n:1\r\n$-1\r\n",
    "*1\r\n*2\r\n$3\r\n1-1\r\n*2\r\n$1\r\na\r\n$1\r\nb\r\n",
];

/// Bytes that are not one reply of this server.
const OTHERS: &[&str] = &[
    "",
    "\r\n",
    "+OK",
    "+OK\n",
    "+OK\r",
    "+ok\r\n",
    "OK\r\n",
    ":\r\n",
    ":007\r\n",
    ":-0\r\n",
    ":+1\r\n",
    ":9223372036854775808\r\n",
    ":-9223372036854775809\r\n",
    "$2\r\na\r\n",
    "$1\r\nab\r\n",
    "$01\r\na\r\n",
    "$-2\r\n",
    "*-2\r\n",
    "*1\r\n",
    "*2\r\n:1\r\n",
    "*18446744073709551615\r\n",
    "*18446744073709551616\r\n",
    "*2\r\n*18446744073709551615\r\n:1\r\n",
    ":1\r\n:2\r\n",
    "-ERR foo\r\n",
];

#[test]
fn replies_are_read_back_from_their_bytes_and_nothing_else(rt: HostRuntime) -> Result<(), Fail> {
    for bytes in REPLIES {
        assert!(rt; is_read_back(rt.alloc(), bytes.as_bytes())?, "at {bytes}");
    }
    for bytes in OTHERS {
        assert!(rt;
            decode(rt.alloc(), bytes.as_bytes())?.is_none(),
            "at {bytes}"
        );
    }
    Ok(())
}
