//! How many entries each consumer was given so far, while the entries of an assignment are gone through.
ghost use Rattle.std.specs.Prelude.{◌≡◌, ◌+◌, ◌^◌, ◌<◌, length, slice_index, slice_set};

/// Gives a consumer one more entry, and answers how many it had.
pub(crate) fn give(given: &mut [u64], consumer: usize) -> u64
    requires within { consumer < length given.old }
    requires few { slice_index given.old consumer < 2 ^ 63 }
    ensures had { result ≡ slice_index given.old consumer }
    ensures more { given.new ≡ slice_set given.old consumer (slice_index given.old consumer + 1) }
{
    let had = given[consumer];
    given[consumer] = had + 1;
    had
}
