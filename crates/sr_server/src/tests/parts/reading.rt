// What no reply shows: that no byte is looked at twice, and none behind a fault.
use sr_resp::{ReadFault, Reader};
use std::alloc::{AllocError, Global};

/// Hands out up to ten waiting requests, and returns their number.
fn count(reader: &mut Reader) -> usize {
    (0..10).filter(|_| reader.next_request().is_some()).count()
}

/// XADD with one field, whose value is the longest word.
fn longest_add(alloc: Global) -> Result<Vec<u8>, AllocError> {
    let mut bytes = Vec::from_slice(
        alloc,
        b"*5\r\n$4\r\nXADD\r\n$1\r\ns\r\n$1\r\n*\r\n$1\r\nf\r\n",
    )?;
    bytes.extend_from_slice(b"$1048576\r\n")?;
    bytes.extend_from_slice(Vec::from_elem(alloc, b'v', 1_048_576)?.as_slice())?;
    bytes.extend_from_slice(b"\r\n")?;
    Ok(bytes)
}

/// Whether a reader that gets these bytes one by one, which are a request, has looked at each of them once.
fn looks_once(alloc: Global, bytes: &[u8]) -> Result<bool, ReadFault> {
    let mut reader = Reader::new(alloc);
    for byte in bytes {
        reader.feed(alloc, &[*byte])?;
    }
    let looked = reader.looked();
    let found = count(&mut reader);
    Ok(found == 1 && looked == bytes.len() as u64 && reader.looked() == looked)
}

// A refused piece is not taken, but its bytes were looked at.
#[test]
fn looks_at_each_byte_once(rt: HostRuntime) -> Result<(), ReadFault> {
    let bytes = longest_add(rt.alloc())?;
    let once = looks_once(rt.alloc(), bytes.as_slice())?;
    assert!(rt; once);
    Ok(())
}

/// How many bytes a reader has looked at once it refused this piece; none if it took it.
fn looked_until_fault(alloc: Global, piece: &[u8]) -> u64 {
    let mut reader = Reader::new(alloc);
    match reader.feed(alloc, piece) {
        Err(ReadFault::Protocol) => reader.looked(),
        _ => 0,
    }
}

// A request has at most 4,096 words.
#[test]
fn looks_at_no_byte_behind_a_fault(rt: HostRuntime) -> Result<(), ReadFault> {
    let mut bytes = Vec::from_slice(rt.alloc(), b"*4097")?;
    bytes.extend_from_slice(Vec::from_elem(rt.alloc(), b'x', 100)?.as_slice())?;
    let looked = looked_until_fault(rt.alloc(), bytes.as_slice());
    assert!(rt; looked == 5);
    Ok(())
}
