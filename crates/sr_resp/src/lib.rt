//! RESP2 both ways: requests read from a stream of bytes, and replies written to one or read back from their bytes.
#![tactic(auto)]

mod bytes;
mod code;
mod decoding;
mod draft;
mod encoding;
mod form;
mod piece;
mod reader;
mod reply;
mod request;
mod scan;
mod send;
mod stage;

pub use code::{ErrCode, Word};
pub use decoding::decode;
pub use draft::Draft;
pub use encoding::{append_reply, encode};
pub use reader::{ReadFault, Reader, one_reading, one_spelling};
pub use reply::Reply;
pub use send::{SendFault, Sink, WriteFailed, WriteTo, send_all};
