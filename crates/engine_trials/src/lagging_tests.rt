//! How lists stand while another client types: each at the stamp where it stood, until the log is full.

use insert_prompt::insert_key;
use kak_text::Coord;
use kak_world::{AnyTurn, Mode, World};
use key_names::{Base, Key};
use list_shelf::Holder;
use regex_ports::RegexPattern;
use std::alloc::{AllocError, Global};
use std::process::Abort;
use std::test::Fail;

// How many shifts a log holds before it begins again.
const FULL: u32 = 100_000;

const fn plain(base: Base) -> Key {
    Key {
        control: false,
        alt: false,
        shift: false,
        base,
    }
}

// A world that clients 0 and 1 have joined.
#[tactic(auto, unfolding(kak_world::specs::Flat::joined_by))]
fn two_clients(alloc: Global) -> Result<World<RegexPattern, AnyTurn>, AllocError> {
    let mut world = World::<RegexPattern, AnyTurn>::new(alloc)?;
    world.join(alloc, 0)?;
    world.join(alloc, 1)?;
    Ok(world)
}

// Lets client 0 type some letters, of which each hundredth is a newline.
fn type_letters<R: Abort>(
    rt: &R,
    alloc: Global,
    world: &mut World<RegexPattern, AnyTurn>,
    from: u32,
    to: u32,
) {
    for n in from..to {
        let base = if n % 100 == 99 {
            Base::Ret
        } else {
            Base::Char('x')
        };
        assert!(rt; world.acts(0));
        assert!(rt; insert_key(alloc, world, 0, plain(base)).is_ok());
    }
}

// How the buffer's log and client 1's list stand: the first stamp, the log's, and the list's.
fn stamps<R: Abort>(rt: &R, world: &World<RegexPattern, AnyTurn>) -> (u64, u64, u64) {
    match world.buffer(0) {
        None => (0, 0, FULL as u64 + 1),
        Some(buffer) => {
            assert!(rt; buffer.has_list(Holder::Of(1)));
            (
                buffer.log().first(),
                buffer.log().stamp(),
                buffer.stamp(Holder::Of(1)),
            )
        }
    }
}

#[test]
fn a_list_stands_until_the_log_is_full(rt: HostRuntime) -> Result<(), Fail> {
    let alloc = rt.alloc();
    let mut world = two_clients(alloc)?;
    assert!(rt; world.is_joined(0));
    world.own_mut(0).mode = Mode::Insert;
    assert!(rt; world.is_joined(0));
    world.enter(0);
    type_letters(&rt, alloc, &mut world, 0, FULL);
    assert_eq!(rt; stamps(&rt, &world), (0, 100_000, 0));
    type_letters(&rt, alloc, &mut world, FULL, FULL + 1);
    assert_eq!(rt; stamps(&rt, &world), (0, 1, 0));
    world.end_step();
    assert!(rt; world.is_joined(1));
    world.enter(1);
    assert!(rt; world.acts(1));
    let sels = world.sels(1).as_slice();
    assert_eq!(rt; sels.len(), 1);
    assert_eq!(rt;
        sels[0].low,
        Coord {
            line: 1_000,
            column: 1
        }
    );
    assert_eq!(rt; stamps(&rt, &world), (1, 1, 1));
    Ok(())
}
