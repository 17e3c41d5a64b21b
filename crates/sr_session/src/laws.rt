ghost use Rattle.std.specs.Prelude.{ℕ, Bool, List, Some};
ghost use Rattle.sr_resp.specs.{Words};
ghost use Rattle.sr_book.specs.{BookState};
ghost use Rattle.sr_session.specs.Answered.{Answers};
ghost use Rattle.sr_session.specs.Session.{AreAnswered};
ghost use Rattle.sr_session.specs.Responses.{AreRecordedResponses};

/// Law: what answers the requests of a session at a desk that shows its book is what the records that they add address
/// to the session, in their order; what is not in them is the text of an error. Calling this has no effect.
pub fn replies_are_recorded()
    ensures { (may_tell : ℕ → Bool) (blocking : Bool) (session : ℕ) (old new : BookState) (requests : List Words)
        (text : List ℕ)
        → AreAnswered (Answers may_tell blocking session) (Some old) requests text (Some new)
        → AreRecordedResponses session old requests text new }
{}
