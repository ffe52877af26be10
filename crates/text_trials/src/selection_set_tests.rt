//! Lists of selections, settled.

use selection_set::{Pair, Sel, Sels, SelsError};
use smallvec::SmallVec;
use std::alloc::Global;
use std::process::Abort;
use std::test::Fail;
use text_model::{Coord, MAX_SELECTIONS};

const fn at(line: u32, column: u32) -> Coord {
    Coord { line, column }
}

const fn straight(low: Coord, high: Coord) -> Sel {
    Sel {
        low,
        high,
        turned: false,
        target: None,
    }
}

const fn turned(low: Coord, high: Coord, target: u32) -> Sel {
    Sel {
        low,
        high,
        turned: true,
        target: Some(target),
    }
}

// A selection on the first line.
const fn first(low: u32, high: u32) -> Sel {
    straight(at(0, low), at(0, high))
}

// The list has just these selections and this main one; the name is of the row.
fn assert_list<R: Abort>(rt: &R, list: &Sels, expected: &[Sel], main: usize, name: &str) {
    assert_eq!(rt; list.len(), expected.len(), "{name}");
    assert_eq!(rt; list.main(), main, "{name}");
    for (i, sel) in expected.iter().enumerate() {
        assert!(rt; i < list.len());
        assert_eq!(rt; list.at(i), *sel, "{name}, at {i}");
    }
}

// Selections that are given, the number of the main one, and those of the list.
type Row<'a> = (&'a str, &'a [Sel], usize, &'a [Sel], usize);

#[test]
fn lists_in_any_order_are_settled(rt: HostRuntime) -> Result<(), Fail> {
    let alloc = rt.alloc();
    let copied = [straight(at(0, 1), at(0, 1)), straight(at(1, 1), at(1, 1))];
    let touching = [first(0, 1), first(2, 3)];
    let over_lines = [straight(at(0, 0), at(0, 2)), straight(at(1, 0), at(1, 1))];
    let sharing = [first(2, 4), turned(at(0, 0), at(0, 2), 7)];
    let shared = [turned(at(0, 0), at(0, 4), 7)];
    let inner = [turned(at(0, 1), at(0, 3), 7), first(10, 10), first(0, 9)];
    let outer = [first(0, 9), first(10, 10)];
    let equal_lows = [first(2, 2), turned(at(0, 0), at(0, 1), 3), first(0, 0)];
    let unequal = [turned(at(0, 0), at(0, 1), 3), first(2, 2)];
    let seven = [
        first(20, 21),
        straight(at(1, 0), at(1, 4)),
        first(5, 6),
        straight(at(0, 30), at(1, 0)),
        first(0, 2),
        first(2, 5),
        first(7, 7),
    ];
    let four = [
        first(0, 6),
        first(7, 7),
        first(20, 21),
        straight(at(0, 30), at(1, 4)),
    ];
    let rows: [Row<'_>; 7] = [
        (
            "a copy on the next line is the main one",
            &copied,
            1,
            &copied,
            1,
        ),
        ("touching", &touching, 1, &touching, 1),
        ("over lines", &over_lines, 0, &over_lines, 0),
        ("sharing", &sharing, 0, &shared, 0),
        ("inner", &inner, 1, &outer, 1),
        ("equal lows", &equal_lows, 2, &unequal, 0),
        ("more than four", &seven, 1, &four, 3),
    ];
    for (name, given, main, expected, expected_main) in rows {
        assert!(rt; main < given.len());
        let list = Sels::of_sels(alloc, given, main)?;
        assert_list(&rt, &list, expected, expected_main, name);
        let copy = list.copy(alloc)?;
        assert_list(&rt, &copy, expected, expected_main, name);
    }
    Ok(())
}

#[test]
fn pairs_become_the_list(rt: HostRuntime) -> Result<(), Fail> {
    let chain = [(5, 3), (1, 3), (4, 4)].map(|p| Pair {
        anchor: at(0, p.0),
        cursor: at(0, p.1),
    });
    let back = [Pair {
        anchor: at(1, 0),
        cursor: at(0, 2),
    }];
    let turned = Sel {
        low: at(0, 2),
        high: at(1, 0),
        turned: true,
        target: None,
    };
    let rows: [(&str, &[Pair], Sel); 2] = [
        ("pairs of a chain become one", &chain, first(1, 5)),
        ("a pair is turned where the cursor is first", &back, turned),
    ];
    for (name, pairs, expected) in rows {
        assert!(rt; 0 < pairs.len());
        let list = Sels::of_pairs(rt.alloc(), pairs, 0)?;
        assert_list(&rt, &list, [expected].as_slice(), 0, name);
    }
    Ok(())
}

#[test]
fn a_vector_becomes_the_list(rt: HostRuntime) -> Result<(), Fail> {
    let alloc = rt.alloc();
    let one = Sels::one(alloc, turned(at(1, 0), at(2, 3), 5));
    assert_eq!(rt; one.as_slice(), [turned(at(1, 0), at(2, 3), 5)].as_slice());
    let rows = [
        ("in order", [first(0, 1), first(1, 2), first(4, 4)], 1),
        ("falling", [first(4, 4), first(1, 2), first(0, 1)], 0),
    ];
    for (name, sels, main) in rows {
        let given = SmallVec::from_slice(alloc, sels.as_slice())?;
        assert!(rt; 2 < given.len());
        let list = Sels::of_vec(alloc, given, 2)?;
        assert_list(
            &rt,
            &list,
            [first(0, 2), first(4, 4)].as_slice(),
            main,
            name,
        );
    }
    Ok(())
}

#[test]
fn changed_ones_are_settled_in_place(rt: HostRuntime) -> Result<(), Fail> {
    let given = [first(0, 1), first(3, 4), first(6, 8), first(10, 10)];
    assert!(rt; 0 < given.len());
    let mut list = Sels::of_sels(rt.alloc(), given.as_slice(), 0)?;
    assert_eq!(rt; list.len(), 4);
    list.set_main(2);
    list.put(1, first(1, 3));
    list.put(2, turned(at(0, 3), at(0, 3), 1));
    list.settle();
    assert_list(
        &rt,
        &list,
        [first(0, 3), first(10, 10)].as_slice(),
        0,
        "changed",
    );
    assert_eq!(rt; list.len(), 2);
    list.set_main(1);
    list.settle();
    assert_list(
        &rt,
        &list,
        [first(0, 3), first(10, 10)].as_slice(),
        1,
        "settled again",
    );
    Ok(())
}

#[test]
fn only_so_many_are_taken(rt: HostRuntime) -> Result<(), Fail> {
    let mut given = Vec::new(rt.alloc());
    for i in 0..MAX_SELECTIONS {
        given.push(first(2 * i as u32, 2 * i as u32))?;
    }
    assert!(rt; 7 < given.len());
    let list = Sels::of_sels(rt.alloc(), given.as_slice(), 7)?;
    assert_eq!(rt; list.len(), MAX_SELECTIONS);
    assert_eq!(rt; list.main(), 7);
    given.push(first(0, 0))?;
    assert!(rt; 7 < given.len());
    let refused = Sels::of_sels(rt.alloc(), given.as_slice(), 7);
    assert!(rt; matches!(refused, Err(SelsError::TooMany)));
    Ok(())
}
