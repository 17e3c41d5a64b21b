/// What a loop looks at to keep connections within bounds. No clause of a connection speaks of it.
#[derive(Clone, Copy, Drop)]
pub(crate) struct Usage {
    /// The moment at which its last whole request was looked at, or at which it joined.
    heard: u64,
    /// At most how many bytes there are in its requests that are not answered yet.
    unanswered: usize,
    /// How many bytes it sent last. What follows a whole request is among them.
    last: usize,
    /// Whether a request was looked at since then.
    answers: bool,
    /// Whether no request was begun last since many bytes are to be sent.
    stopped: bool,
}

impl Usage {
    /// That of a connection that comes at this moment.
    pub(crate) fn from(moment: u64) -> Usage {
        Usage {
            heard: moment,
            unanswered: 0,
            last: 0,
            answers: false,
            stopped: false,
        }
    }

    /// That many bytes came.
    pub(crate) fn took(&mut self, count: usize) {
        self.unanswered = self.unanswered.saturating_add(count);
        self.last = count;
    }

    /// A whole request is looked at.
    pub(crate) fn looks(&mut self, moment: u64) {
        self.heard = moment;
        self.answers = true;
        self.stopped = false;
    }

    /// No request is begun, since many bytes are to be sent.
    pub(crate) fn stops(&mut self) {
        self.stopped = true;
    }

    /// Whether no request was begun last since many bytes are to be sent.
    pub(crate) fn has_stopped(&self) -> bool {
        self.stopped
    }

    /// No whole request is left.
    pub(crate) fn has_looked(&mut self) {
        self.stopped = false;
        if self.answers {
            self.unanswered = self.unanswered.min(self.last);
            self.answers = false;
        }
    }

    /// The moment at which its last whole request was looked at.
    pub(crate) fn heard(&self) -> u64 {
        self.heard
    }

    /// At most how many bytes there are in its requests that are not answered yet.
    pub(crate) fn unanswered(&self) -> usize {
        self.unanswered
    }
}
