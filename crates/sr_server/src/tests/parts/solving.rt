// What no clause says: that a problem is solved while there is memory, the greatest ones too, and totals that were
// worked out by hand.
use sr_solver::solve;
use sr_transport::{Problem, Solved, Tier, check};
use std::alloc::{AllocError, Global};
use std::test::Fail;

/// Whether an answer is right, and has this total, or none if there are too few places.
fn is_answer(problem: &Problem, solved: &Solved, want: Option<u64>) -> bool {
    let total = match solved {
        Solved::Best { total, .. } => Some(*total),
        Solved::Short { .. } => None,
    };
    check(problem, solved) && total == want
}

/// Whether a problem of so many consumers is solved so.
fn is_solved(
    alloc: Global,
    tiers: Vec<Tier>,
    consumers: usize,
    costs: Vec<Option<u64>>,
    want: Option<u64>,
) -> Result<bool, AllocError> {
    let entries = costs.len() / consumers.max(1);
    match Problem::new(tiers, consumers, entries, costs) {
        Some(problem) => Ok(is_answer(&problem, &solve(alloc, &problem)?, want)),
        None => Ok(false),
    }
}

/// How many consumers there are, the room of each, how many entries, the cost of each pair, and the least total.
const EVEN: &[(usize, u64, usize, u64, Option<u64>)] = &[
    (64, 1, 64, 3, Some(192)),
    (
        1,
        4096,
        4096,
        1_099_511_627_776,
        Some(4_503_599_627_370_496),
    ),
    (1, 4095, 4096, 1, None),
];

/// Of the first two entries one finds no place.
const UNEVEN: &[Option<u64>] = &[Some(1), None, Some(1), None, Some(5), Some(5)];

/// Two consumers of three places each, one of the first without a fee; both entries cost 2 at the first and 8 at the
/// second. The fee, and the least total: both at the first, or one at each.
const FEES: &[(u64, u64)] = &[(0, 4), (5, 9), (6, 10), (7, 10)];

/// The tiers of this many consumers with one room each.
fn plain(alloc: Global, consumers: usize, room: u64) -> Result<Vec<Tier>, AllocError> {
    let mut tiers = Vec::new(alloc);
    for consumer in 0..consumers {
        tiers.push(Tier {
            consumer,
            room,
            fee: 0,
        })?;
    }
    Ok(tiers)
}

#[test]
fn a_fee_is_weighed_against_the_costs(rt: HostRuntime) -> Result<(), Fail> {
    let alloc = rt.alloc();
    for (fee, want) in FEES {
        let tiers = [(0, 1, 0), (0, 2, *fee), (1, 3, 0)];
        let tiers = tiers.iter().map(|(consumer, room, fee)| Tier {
            consumer: *consumer,
            room: *room,
            fee: *fee,
        });
        let tiers = tiers.collect(alloc)?;
        let costs = Vec::from_slice(alloc, &[Some(2), Some(8), Some(2), Some(8)])?;
        assert!(rt;
            is_solved(alloc, tiers, 2, costs, Some(*want))?,
            "fee {fee}"
        );
    }
    Ok(())
}

#[test]
fn solving_is_not_always_out_of_memory(rt: HostRuntime) -> Result<(), Fail> {
    let alloc = rt.alloc();
    for (consumers, room, entries, cost, want) in EVEN {
        let tiers = plain(alloc, *consumers, *room)?;
        let costs = vec![in alloc; Some(*cost); *consumers * *entries]?;
        assert!(rt;
            is_solved(alloc, tiers, *consumers, costs, *want)?,
            "{consumers} consumers"
        );
    }
    let tiers = plain(alloc, 2, 1)?;
    let costs = Vec::from_slice(alloc, UNEVEN)?;
    assert!(rt; is_solved(alloc, tiers, 2, costs, None)?);
    Ok(())
}
