// That the definitions mean what they should: the limits of a problem, each with the number that is just taken and the
// one that is just refused. No program asks for more.
use sr_transport::{Problem, Tier};
use std::alloc::{AllocError, Global};
use std::test::Fail;

/// What is tried: how many consumers, their room, how many entries, how many costs, each cost, and whether that is
/// taken.
type Limit = (&'static str, usize, u64, usize, usize, u64, bool);

const LIMITS: &[Limit] = &[
    ("a cost of 2 ^ 40", 1, 1, 1, 1, 1_099_511_627_776, true),
    ("a cost of one more", 1, 1, 1, 1, 1_099_511_627_777, false),
    ("64 consumers", 64, 1, 1, 64, 1, true),
    ("65 consumers", 65, 1, 1, 65, 1, false),
    ("4,096 entries", 1, 1, 4096, 4096, 1, true),
    ("4,097 entries", 1, 1, 4097, 4097, 1, false),
    ("a room of 1,000,000,000", 1, 1_000_000_000, 1, 1, 1, true),
    ("a room of one more", 1, 1_000_000_001, 1, 1, 1, false),
    ("a place too few", 2, 1, 3, 5, 1, false),
    ("a place too many", 2, 1, 3, 7, 1, false),
    ("a place for each pair", 2, 1, 3, 6, 1, true),
];

/// Whether a problem of this size and with these rooms and costs is taken if it should be.
fn is_right(alloc: Global, limit: Limit) -> Result<bool, AllocError> {
    let (_, consumers, room, entries, places, cost, want) = limit;
    let mut tiers = Vec::new(alloc);
    for consumer in 0..consumers {
        tiers.push(Tier {
            consumer,
            room,
            fee: 0,
        })?;
    }
    let costs = vec![in alloc; Some(cost); places]?;
    Ok(Problem::new(tiers, consumers, entries, costs).is_some() == want)
}

/// Tiers of two consumers, each a consumer, a room and a fee, and whether they are taken.
type Tiers = (&'static str, &'static [(usize, u64, u64)], bool);

const TIERS: &[Tiers] = &[
    ("one each", &[(0, 1, 0), (1, 1, 0)], true),
    ("two and one", &[(0, 1, 0), (0, 1, 7), (1, 1, 0)], true),
    ("one and two", &[(0, 1, 0), (1, 0, 0), (1, 1, 0)], true),
    (
        "a fee of 2 ^ 40",
        &[(0, 1, 0), (0, 1, 1_099_511_627_776), (1, 1, 0)],
        true,
    ),
    (
        "a fee of one more",
        &[(0, 1, 0), (0, 1, 1_099_511_627_777), (1, 1, 0)],
        false,
    ),
    ("a first tier with a fee", &[(0, 1, 1), (1, 1, 0)], false),
    (
        "three of one",
        &[(0, 1, 0), (0, 1, 1), (0, 1, 2), (1, 1, 0)],
        false,
    ),
    ("none of the second", &[(0, 1, 0), (0, 1, 1)], false),
    ("none of the first", &[(1, 1, 0)], false),
    (
        "the second before the first",
        &[(1, 1, 0), (0, 1, 0)],
        false,
    ),
    ("apart", &[(0, 1, 0), (1, 1, 0), (0, 1, 1)], false),
    (
        "a third consumer",
        &[(0, 1, 0), (1, 1, 0), (2, 1, 0)],
        false,
    ),
];

#[test]
fn tiers_are_one_or_two_each_in_order(rt: HostRuntime) -> Result<(), Fail> {
    let alloc = rt.alloc();
    for (name, tiers, want) in TIERS {
        let tiers = tiers.iter().map(|(consumer, room, fee)| Tier {
            consumer: *consumer,
            room: *room,
            fee: *fee,
        });
        let tiers = tiers.collect(alloc)?;
        let costs = Vec::from_slice(alloc, &[Some(1), Some(1)])?;
        assert!(rt;
            Problem::new(tiers, 2, 1, costs).is_some() == *want,
            "{name}"
        );
    }
    Ok(())
}

#[test]
fn limits_are_taken_and_one_more_is_refused(rt: HostRuntime) -> Result<(), Fail> {
    for limit in LIMITS {
        assert!(rt; is_right(rt.alloc(), *limit)?, "at {}", limit.0);
    }
    Ok(())
}
