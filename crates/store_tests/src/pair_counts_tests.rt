use crate::expect::same;
use port_indexes::PairCounts;

/// The pair (5, 9) twice, and (5, 7) and (6, 1) once.
static COUNTED: [(u64, u64); 4] = [(5, 9), (5, 7), (6, 1), (5, 9)];

/// Adds these pairs to the counts, and commits that.
fn count(counts: &mut PairCounts) -> Option<()> {
    for (first, second) in &COUNTED {
        counts.add(*first, *second).ok()?;
    }
    counts.commit();
    Some(())
}

/// The counts of (5, 7) and (5, 9), and the least second number of a pair with 5.
type OfFive = ([u64; 2], Option<u64>);

fn of_five(counts: &PairCounts) -> OfFive {
    ([counts.count(5, 7), counts.count(5, 9)], counts.least(5))
}

/// Subtracts one from (5, 9), and clears (5, 7). Returns flags that each was done, and the pairs with 5 then.
fn count_fewer(counts: &mut PairCounts) -> ([Option<()>; 2], OfFive) {
    let fewer = counts.subtract(5, 9).ok();
    let cleared = counts.clear(5, 7).ok();
    ([fewer, cleared], of_five(counts))
}

/// Returns the steps that were done; and the pairs with 5: at first, after (5, 9) was decremented and (5, 7) cleared,
/// after (5, 9) was cleared too, after a rollback, and after the first change was made again and committed.
fn changed(counts: &mut PairCounts) -> ([Option<()>; 6], [OfFive; 5]) {
    let counted = count(counts);
    let first = of_five(counts);
    let ([fewer_of_9, none_of_7], fewer) = count_fewer(counts);
    let none_of_9 = counts.subtract(5, 9).ok();
    let none = of_five(counts);
    counts.roll_back();
    let again = of_five(counts);
    let ([fewer_again, none_again], _) = count_fewer(counts);
    counts.commit();
    (
        [
            counted,
            fewer_of_9,
            none_of_7,
            none_of_9,
            fewer_again,
            none_again,
        ],
        [first, fewer, none, again, of_five(counts)],
    )
}

#[test]
fn counts_change_and_are_rolled_back(rt: HostRuntime) {
    let mut counts = PairCounts::new(rt.alloc());
    let seen = changed(&mut counts);
    drop(counts);
    let first = ([1, 2], Some(7));
    let fewer = ([0, 1], Some(9));
    let wanted = [first, fewer, ([0, 0], None), first, fewer];
    same(&rt, seen, ([Some(()); 6], wanted));
}
