//! One module a command: its row in the table, its parts, and its reader, which takes the words after its name.
//!
//! A reader judges the form first, then numbers, then ids, and copies at the end. This is the order of refusals, and
//! nothing is allocated before everything is judged.

pub(crate) mod named;
pub(crate) mod ping;
pub(crate) mod recover;
pub(crate) mod xack;
pub(crate) mod xadd;
pub(crate) mod xautoclaim;
pub(crate) mod xclaim;
pub(crate) mod xdel;
pub(crate) mod xgroup;
pub(crate) mod xinfo;
pub(crate) mod xlen;
pub(crate) mod xpending;
pub(crate) mod xrange;
pub(crate) mod xread;
pub(crate) mod xreadgroup;
pub(crate) mod xtrim;

pub use ping::Ping;
pub use xack::Xack;
pub use xadd::Xadd;
pub use xautoclaim::Xautoclaim;
pub use xclaim::{TimeAsked, Xclaim};
pub use xdel::Xdel;
pub use xgroup::{
    XgroupCreate, XgroupCreateConsumer, XgroupDelConsumer, XgroupDestroy, XgroupSetId,
};
pub use xinfo::{XinfoConsumers, XinfoGroups, XinfoStream};
pub use xlen::Xlen;
pub use xpending::{PendingAsked, Xpending};
pub use xrange::{Xrange, Xrevrange};
pub use xread::Xread;
pub use xreadgroup::Xreadgroup;
pub use xtrim::Xtrim;
