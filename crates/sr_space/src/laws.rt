ghost use Rattle.std.specs.Prelude.{◌≡◌, ◌≢◌, ◌↔◌, ◌&&◌, ℕ, IsTrue, List, Option, Some, IsSome, false};
ghost use Rattle.sr_args.specs.declared.call.Call.{Call};
ghost use Rattle.sr_args.specs.declared.call.Call.TheVariants as calls;
ghost use Rattle.sr_args.specs.declared.commands.xread.Xread.{Xread};
ghost use Rattle.sr_args.specs.declared.commands.xreadgroup.Xreadgroup.{Xreadgroup};
ghost use Rattle.sr_resp.specs.declared.code.ErrCode as codes;
ghost use Rattle.sr_resp.specs.{error_reply};
ghost use Rattle.sr_resp.specs.Reply.{null_array};
ghost use Rattle.sr_stream.specs.{StreamState, IsStream};
ghost use Rattle.sr_space.specs.{at_once, executed, stream_at, with_stream};
ghost use Rattle.sr_space.specs.Blocking.{finds_nothing};
ghost use Rattle.sr_space.specs.declared.blocking.Outcome.TheVariants as outcomes;
ghost use Rattle.sr_space.specs.Keys.{Key, Keys, AreStreams};
ghost use Rattle.sr_space.specs.PendingAt.{AskForNew, pending_at};
ghost use Rattle.sr_space.specs.Effect.{key_of};
ghost use Rattle.sr_space.specs.Readers.{asks, is_read, read_at, read_beside};

/// Law: a changed stream is at its key, and the streams at other keys stay. Calling this has no effect.
pub fn one_stream_changes()
    ensures at_key { (keys : Keys) (key : Key) (stream : StreamState) →
        stream_at (with_stream keys key stream) key ≡ Some stream }
    ensures others { (keys : Keys) (key other : Key) (stream : StreamState) → other ≢ key →
        stream_at (with_stream keys key stream) other ≡ stream_at keys other }
{}

/// Law: if the entries of each stream rise up to its last id, they do so after each command. Calling this has no
/// effect.
pub fn streams_stay_sound()
    ensures { (keys : Keys) (moment : ℕ) (call : Call) →
        AreStreams keys → AreStreams (at_once keys moment call).keys }
{}

/// Law: an error reply changes no key. Calling this has no effect.
pub fn errors_change_nothing()
    ensures { (keys : Keys) (moment : ℕ) (call : Call) (code : codes.ErrCode) →
        (at_once keys moment call).outcome ≡ error_reply code → (at_once keys moment call).keys ≡ keys }
{}

/// Law: no command takes a key away. Calling this has no effect.
pub fn keys_stay()
    ensures { (keys : Keys) (moment : ℕ) (call : Call) (key : Key) →
        IsSome (stream_at keys key) → IsSome (stream_at (at_once keys moment call).keys key) }
{}

/// Law: with NOACK, a read of new entries changes no pending list. Calling this has no effect.
pub fn noack_keeps_pending()
    ensures { (keys : Keys) (moment : ℕ) (read : Xreadgroup) (key : Key) (name : List ℕ) → IsTrue read.no_ack
        → AskForNew read.streams
        → pending_at (at_once keys moment (calls.Xreadgroup read)).keys key name ≡ pending_at keys key name }
{}

/// Law: a call leaves the keys that it leaves at once, whether it waits or not. Calling this has no effect.
pub fn waiting_leaves_the_same()
    ensures { (keys : Keys) (moment : ℕ) (call : Call) →
        (executed keys moment call).keys ≡ (at_once keys moment call).keys }
{}

/// Law: a read that finds nothing replies the null array, and no other read does. Calling this has no effect.
pub fn nothing_is_the_null_array()
    ensures xread { (keys : Keys) (moment : ℕ) (read : Xread) →
        let call = calls.Xread read in
        ((at_once keys moment call).outcome ≡ null_array) ↔ IsTrue (finds_nothing keys moment call) }
    ensures xreadgroup { (keys : Keys) (moment : ℕ) (read : Xreadgroup) →
        let call = calls.Xreadgroup read in
        ((at_once keys moment call).outcome ≡ null_array) ↔ IsTrue (finds_nothing keys moment call) }
{}

/// Law: a read that waits finds nothing at the keys that it left, so it is not served at once. Calling this has no
/// effect.
pub fn waiting_finds_nothing()
    ensures { (keys : Keys) (moment later : ℕ) (call again : Call) (deadline : Option ℕ) →
        (executed keys moment call).outcome ≡ outcomes.Blocked again deadline →
        IsTrue (finds_nothing (executed keys moment call).keys later again) }
{}

/// Law: whether a read finds nothing is the same at each moment. Calling this has no effect.
pub fn moments_find_the_same()
    ensures { (keys : Keys) (moment later : ℕ) (read : Call) →
        finds_nothing keys later read ≡ finds_nothing keys moment read }
{}

/// Law: a call on one key changes nothing for the reads that do not ask its stream. Calling this has no effect.
pub fn others_find_the_same()
    ensures { (keys : Keys) (moment earlier later : ℕ) (call read : Call) (key : Key) → key_of call ≡ Some key →
        asks key read ≡ false →
        finds_nothing (executed keys moment call).keys later read ≡ finds_nothing keys earlier read }
{}

/// Law: a read leaves no answer to a read that finds nothing. Calling this has no effect.
pub fn reads_leave_nothing()
    ensures { (keys : Keys) (moment earlier later : ℕ) (call read : Call) → IsTrue (is_read call) →
        IsTrue (finds_nothing keys earlier read) → IsTrue (finds_nothing (executed keys moment call).keys later read) }
{}

/// Law: a read finds nothing exactly if it finds nothing in its stream at a key, and nothing in its other streams; and
/// a call on this key changes nothing for the others. Calling this has no effect.
pub fn streams_are_read_apart()
    ensures apart { (keys : Keys) (moment : ℕ) (key : Key) (read : Call) → finds_nothing keys moment read
        ≡ (finds_nothing keys moment (read_at key read) && finds_nothing keys moment (read_beside key read)) }
    ensures beside { (keys : Keys) (moment earlier later : ℕ) (call read : Call) (key : Key) → key_of call ≡ Some key →
        finds_nothing (executed keys moment call).keys later (read_beside key read)
        ≡ finds_nothing keys earlier (read_beside key read) }
{}
