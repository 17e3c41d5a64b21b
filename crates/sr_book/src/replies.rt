use sr_resp::Reply;

/// Where the replies of an event are kept: one, as most events have it, takes no block of its own.
#[derive(Drop)]
pub(crate) enum Replies {
    Nobody,
    One((u64, Reply)),
    Several(Vec<(u64, Reply)>),
}
