ghost use Rattle.std.specs.Prelude.{◌≡◌, ◌++◌, ℕ, List, []};
ghost use Rattle.sr_book.specs.Server.{Server};
ghost use Rattle.sr_book.specs.{BookState, Recorded, next_index};
ghost use Rattle.sr_book.specs.Records.{Legal};
ghost use Rattle.sr_hub.specs.OneRequest.{spoken};
ghost use Rattle.sr_hub.specs.Line.{ConnectionState, IsLine};
ghost use Rattle.sr_hub.specs.Lines.{AreAll};

/// Law: records of other sessions leave the line of a connection a line. Whatever the server gives its session on the
/// way is its letter, and its one reply. Calling this has no effect.
pub fn lines_pass()
    ensures { (records more : List Recorded) (old : BookState) (new : Server) (taken given : List ℕ)
        (line : ConnectionState)
        → AreAll records old → Legal (next_index old) old.server more new → spoken line.session more ≡ []
        → IsLine records old.server taken given line → IsLine (records ++ more) new taken given line }
{}
