// What codes come to over stacks of lattices: the same in every order.
use bits::Bits;
use both::Both;
use cases::worked_cases;
use lattice::{Lattice, gather};
use lift::Lift;
use once::Once;
use peak::Peak;
use set::Set;
use std::process::Abort;
use std::test::Fail;
use versions::Versions;

// Three numbers, in each of their orders, written out since std makes no permutations.
fn orders(numbers: [u32; 3]) -> [[u32; 3]; 6] {
    let [a, b, c] = numbers;
    [
        [a, b, c],
        [a, c, b],
        [b, a, c],
        [b, c, a],
        [c, a, b],
        [c, b, a],
    ]
}

// What three codes come to.
fn gathered<L: Lattice + Drop>(numbers: [u32; 3]) -> Option<L> {
    gather(&numbers.map(Bits::low))
}

// Three codes come to a value with these words, in each order.
fn expect_join<L: Lattice + Drop>(
    rt: &impl Abort,
    numbers: [u32; 3],
    words: &[u32],
) -> Result<(), Fail> {
    assert_eq!(rt; usize::from(L::width()), words.len());
    for order in orders(numbers) {
        let Some(value) = gathered::<L>(order) else {
            return Err(Fail::new("they clash"));
        };
        expect_words(rt, &value, words);
    }
    Ok(())
}

fn expect_words<L: Lattice>(rt: &impl Abort, value: &L, words: &[u32]) {
    for (i, word) in (0..L::width()).zip(words) {
        assert_eq!(rt; value.word(i), *word, "word {i}");
    }
}

// Three codes clash, in each order.
fn expect_clash<L: Lattice + Drop>(rt: &impl Abort, numbers: [u32; 3]) {
    for order in orders(numbers) {
        assert!(rt; gathered::<L>(order).is_none());
    }
}

#[test]
fn the_worked_cases_stand(rt: HostRuntime) {
    assert!(rt; worked_cases());
}

#[test]
fn sets_are_joined(rt: HostRuntime) -> Result<(), Fail> {
    expect_join::<Set>(&rt, [3, 200, 40], &[8, 256, 0, 0, 0, 0, 256, 0])
}

#[test]
fn readings_are_joined(rt: HostRuntime) -> Result<(), Fail> {
    expect_join::<Lift<Peak>>(&rt, [399, 0, 1_600], &[1, 1_600])?;
    expect_join::<Lift<Peak>>(&rt, [0, 0, 1_601], &[1, 0])?;
    expect_join::<Lift<Peak>>(&rt, [1_601, 1_602, 1_603], &[0, 0])
}

#[test]
fn what_is_written_once_is_joined(rt: HostRuntime) -> Result<(), Fail> {
    expect_join::<Once>(&rt, [7, 7, 65_536], &[1, 7])?;
    expect_clash::<Once>(&rt, [7, 8, 7]);
    Ok(())
}

#[test]
fn pairs_are_joined(rt: HostRuntime) -> Result<(), Fail> {
    expect_join::<Both<Set, Once>>(&rt, [14, 15, 64], &[128, 1, 0, 0, 0, 0, 0, 0, 1, 7])?;
    expect_clash::<Both<Set, Once>>(&rt, [14, 15, 17]);
    Ok(())
}

#[test]
fn layers_are_joined(rt: HostRuntime) -> Result<(), Fail> {
    // Slot 3 at counts 2 and 1, and the value 7.
    expect_join::<Lift<Both<Versions, Once>>>(
        &rt,
        [2 * 19, 2 * 11, 2 * 7 + 1],
        &[1, 0, 0, 0, 2, 0, 0, 0, 0, 1, 7],
    )?;
    expect_clash::<Lift<Both<Versions, Once>>>(&rt, [2 * 19, 2 * 7 + 1, 2 * 8 + 1]);
    Ok(())
}
