ghost use Rattle.std.specs.Prelude.{◌≡◌, ℕ, ◌+◌, ◌<◌, ◌≤◌, ◌^◌, length, slice_index, slice_set};
ghost use Rattle.sr_transport.specs.{most_entries};
ghost use Rattle.sr_solver.specs.Members.{IsListed, AreApart, IsRemoved};

/// Takes an entry out of the row of members that begins at `row`; the last member takes its place.
pub fn remove(members: &mut [u16], row: usize, entry: usize)
    requires short { length members.old ≤ 2 ^ 32 }
    requires room { row + slice_index members.old row < length members.old }
    requires member { IsListed members.old row (slice_index members.old row) entry }
    requires apart { AreApart members.old row (slice_index members.old row) }
    ensures { IsRemoved row entry members.old members.new }
{
    let last = members[row] - 1;
    members[row] = last;
    for place in 0..last as usize {
        if members[row + 1 + place] as usize == entry {
            members[row + 1 + place] = members[row + 1 + last as usize];
            return;
        }
    }
}

/// Adds an entry to the row of members that begins at `row`.
pub fn add(members: &mut [u16], row: usize, entry: usize)
    requires short { length members.old ≤ 2 ^ 32 }
    requires room { row + 1 + slice_index members.old row < length members.old }
    requires entry { entry < most_entries }
    requires few { slice_index members.old row ≤ most_entries }
    ensures { members.new ≡ slice_set (slice_set members.old (row + 1 + slice_index members.old row) entry) row
        (slice_index members.old row + 1) }
{
    let count = members[row];
    members[row + 1 + count as usize] = entry as u16;
    members[row] = count + 1;
}
