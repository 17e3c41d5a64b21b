use sr_bytes::Name;
use sr_ids::Id;
use std::marker::Model;

/// What a plan gives one consumer: the entries with these ids, by id.
#[derive(Drop)]
pub struct Batch<'a> {
    consumer: &'a Name,
    ids: Vec<Id>,
}

impl<'a> Model for Batch<'a> {
    ghost use Rattle.sr_plan.specs.Batches.{BatchState};

    ghost Value = { BatchState };

    ghost view = { λ b. record { consumer = b.consumer.now; ids = b.ids.items } };
}

impl<'a> Batch<'a> {
    ghost use Rattle.std.specs.Prelude.{◌≡◌};

    /// The entries with these ids go to the consumer.
    pub(crate) fn new(consumer: &'a Name, ids: Vec<Id>) -> Batch<'a>
        ensures { result ≡ record { consumer = consumer.now; ids = ids.items } }
    {
        Batch { consumer, ids }
    }

    /// The consumer that gets the entries.
    pub fn consumer(&self) -> &Name
        ensures { result.now ≡ self.now.consumer }
    {
        self.consumer
    }

    /// The ids of the entries.
    pub fn ids(&self) -> &[Id]
        ensures { result.now ≡ self.now.ids }
    {
        self.ids.as_slice()
    }
}
