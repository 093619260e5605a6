//! The numbers of patterns and states, which end at 2147483646.
use crate::asserts::{equal, same};
use ac_input::primitives::{PatternID, SmallIndex, StateID};

/// Which conversions of a number succeed.
fn taken(number: u32) -> [bool; 12] {
    let size = number as usize;
    let wide = number as u64;
    [
        SmallIndex::new(size).is_ok(),
        PatternID::new(size).is_ok(),
        StateID::new(size).is_ok(),
        SmallIndex::try_from(number).is_ok(),
        PatternID::try_from(number).is_ok(),
        StateID::try_from(number).is_ok(),
        SmallIndex::try_from(wide).is_ok(),
        PatternID::try_from(wide).is_ok(),
        StateID::try_from(wide).is_ok(),
        SmallIndex::try_from(size).is_ok(),
        PatternID::try_from(size).is_ok(),
        StateID::try_from(size).is_ok(),
    ]
}

/// Numbers that are made of others, and what they take of a list.
fn conversions() -> [bool; 9] {
    let index = SmallIndex::from(255u8);
    let letters = ['a', 'b', 'c'];
    [
        index == SmallIndex::must(255),
        PatternID::from(index) == PatternID::from(255u8),
        StateID::from(index) == StateID::from(255u8),
        SmallIndex::try_from(65535u16).ok() == Some(SmallIndex::must(65535)),
        PatternID::try_from(65535u16).ok() == Some(PatternID::must(65535)),
        StateID::try_from(65535u16).ok() == Some(StateID::must(65535)),
        *SmallIndex::must(0).of(&letters) == 'a',
        *PatternID::must(1).of(&letters) == 'b',
        *StateID::must(2).of(&letters) == 'c',
    ]
}

/// The greatest number by each of its calls, and the least one.
fn greatest_and_least() -> [bool; 18] {
    let index = SmallIndex::MAX;
    let pattern = PatternID::MAX;
    let state = StateID::MAX;
    [
        [index.as_usize(), pattern.as_usize(), state.as_usize()] == [2147483646; 3],
        [index.as_u64(), pattern.as_u64(), state.as_u64()] == [2147483646; 3],
        [index.as_u32(), pattern.as_u32(), state.as_u32()] == [2147483646; 3],
        [index.as_i32(), pattern.as_i32(), state.as_i32()] == [2147483646; 3],
        [index.one_more(), pattern.one_more(), state.one_more()] == [2147483647; 3],
        [SmallIndex::LIMIT, PatternID::LIMIT, StateID::LIMIT] == [2147483647; 3],
        [SmallIndex::SIZE, PatternID::SIZE, StateID::SIZE] == [4; 3],
        size_of::<SmallIndex>() == 4,
        size_of::<PatternID>() == 4,
        size_of::<StateID>() == 4,
        SmallIndex::default() == SmallIndex::ZERO,
        PatternID::default() == PatternID::ZERO,
        StateID::default() == StateID::ZERO,
        SmallIndex::ZERO < index,
        PatternID::ZERO < pattern,
        state > StateID::ZERO,
        SmallIndex::from(pattern) == index,
        SmallIndex::from(state) == index,
    ]
}

/// The number that doesn't fit.
const PAST: Option<u64> = Some(2147483647);

#[test]
fn numbers(rt: HostRuntime) {
    for (number, fits) in [
        (0, true),
        (2147483646, true),
        (2147483647, false),
        (u32::MAX, false),
    ] {
        equal(
            &rt,
            &(number, taken(number)),
            &(number, [fits; 12]),
            "what fits",
        );
    }
    same(&rt, &conversions(), &[true; 9], "conversions");
    same(
        &rt,
        &greatest_and_least(),
        &[true; 18],
        "the greatest and the least",
    );
    let facts = [
        SmallIndex::new(2147483647).err().map(|it| it.attempted()) == PAST,
        PatternID::new(2147483647).err().map(|it| it.attempted()) == PAST,
        StateID::new(2147483647).err().map(|it| it.attempted()) == PAST,
        SmallIndex::new(usize::MAX).err().map(|it| it.attempted()) == Some(u64::MAX),
        PatternID::try_from(u64::MAX).err().map(|it| it.attempted()) == Some(u64::MAX),
    ];
    same(&rt, &facts, &[true; 5], "what doesn't fit");
}
