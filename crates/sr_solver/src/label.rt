ghost use Rattle.std.specs.Prelude.{◌≡◌, ◌+◌, ◌≤◌, IfSome};
ghost use Rattle.sr_transport.specs.{greatest_charge};
ghost use Rattle.sr_solver.specs.Limits.{greatest_way};
ghost use Rattle.sr_solver.specs.Labels.{unreached, reach_of, IsFirstLabel};

/// Greater than the length of any path.
pub const FAR: u64 = 1 << 63;

/// What a search knows of a consumer.
#[derive(Clone, Copy)]
pub struct Label {
    /// How many entries move along the path to it, or 0 where the search has not reached it.
    pub hops: usize,
    /// The length of that path, or `FAR`.
    pub dist: u64,
    /// The entry that the path's last step moves to it.
    pub mover: usize,
    /// Whether the entries that stand at it have been offered to the other consumers.
    pub closed: bool,
    /// No entry that was offered, but not looked for, comes nearer than this; `FAR` if there is none.
    pub guess: u64,
}

impl Label {
    /// The label of a consumer that the search has not reached.
    pub fn none() -> Label
        ensures { result ≡ unreached }
    {
        Label {
            hops: 0,
            dist: FAR,
            mover: 0,
            closed: false,
            guess: FAR,
        }
    }

    /// How near a consumer may be: by the path that is known, or by one that is guessed.
    pub fn reach(self) -> u64
        ensures { result ≡ reach_of self }
    {
        self.dist.min(self.guess)
    }
}

/// The label of a consumer to which the new entry itself comes, at this cost; it is not reached if the pair is not
/// allowed.
pub fn first_label(cost: Option<u64>, price: u64, entry: usize) -> Label
    requires price { price ≤ greatest_way }
    requires cost { IfSome cost (λ c. c ≤ greatest_charge) }
    ensures { IsFirstLabel cost price entry result }
{
    let Some(cost) = cost else {
        return Label::none();
    };
    Label {
        hops: 1,
        dist: cost + price,
        mover: entry,
        closed: false,
        guess: FAR,
    }
}
