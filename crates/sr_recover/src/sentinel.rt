//! A Sentinel, which knows where the primary of a name is.
use crate::fault::{Fault, peer_text, text_of};
use crate::place::Place;
use crate::wire::connect;
use sr_peer::{Part, append_header, append_word, ask};
use std::alloc::{AllocError, Global};
use std::str::from_utf8;

/// Where a primary is now, by the Sentinel at this place. It is given no password.
///
/// Source: Redis documentation, "High availability with Redis Sentinel", section "Obtaining the address of the
/// current master".
pub(crate) fn primary(
    rt: &HostRuntime,
    place: &Place,
    master: &str,
    timeout: u64,
) -> Result<Place, Fault> {
    let mut wire = match connect(rt, place, timeout) {
        Ok(wire) => wire,
        Err(Fault::Host(_host, why)) => return Err(fault_at(rt.alloc(), place, why.as_str())),
        Err(Fault::Connect(_place, why, _advice)) => {
            return Err(fault_at(rt.alloc(), place, why.as_str()));
        }
        Err(fault) => return Err(fault),
    };
    let request = request_for(rt.alloc(), master)?;
    let answers = match ask(&mut wire, rt.alloc(), request.as_slice(), 1) {
        Ok(answers) => answers,
        Err(fault) => return Err(fault_at(rt.alloc(), place, peer_text(fault))),
    };
    let mut parts = answers.parts();
    match parts.next() {
        Some(Part::NullArray | Part::NullBulk) => Err(fault_at(
            rt.alloc(),
            place,
            "it knows no primary of this name (see SENTINEL MASTERS)",
        )),
        Some(Part::Error(text)) => {
            let text = text_of(rt.alloc(), text)?;
            Err(fault_at(rt.alloc(), place, text.as_str()))
        }
        Some(Part::Array(2)) => match (parts.next(), parts.next()) {
            (Some(Part::Bulk(host)), Some(Part::Bulk(port))) => address(rt.alloc(), host, port),
            _ => Err(Fault::Shape("SENTINEL")),
        },
        _ => Err(Fault::Shape("SENTINEL")),
    }
}

/// The request for the address of a primary.
fn request_for(alloc: Global, master: &str) -> Result<Vec<u8>, AllocError> {
    let mut request = Vec::new(alloc);
    append_header(&mut request, 3)?;
    append_word(&mut request, b"SENTINEL")?;
    append_word(&mut request, b"GET-MASTER-ADDR-BY-NAME")?;
    append_word(&mut request, master.as_bytes())?;
    Ok(request)
}

/// The place with this host and this port.
fn address(alloc: Global, host: &[u8], port: &[u8]) -> Result<Place, Fault> {
    let number = match from_utf8(port) {
        Ok(text) => text.parse::<u16>().unwrap_or(0),
        Err(_) => 0,
    };
    if host.is_empty() || number == 0 {
        return Err(Fault::Shape("SENTINEL"));
    }
    Ok(Place::Port(text_of(alloc, host)?, number))
}

/// What it is to the user that a Sentinel is of no help.
fn fault_at(alloc: Global, place: &Place, why: &str) -> Fault {
    let told = match place.shown(alloc) {
        Ok(place) => format!(in alloc; "{place}: {why}"),
        Err(error) => Err(error),
    };
    match told {
        Ok(text) => Fault::Sentinel(text),
        Err(_) => Fault::Memory,
    }
}
