//! What stands before a key: a count and a register.
#![tactic(auto, using(kak_world::proofs::WorldLaws::world_laws))]

ghost use Rattle.std.specs.Prelude.{◌≡◌, true};
ghost use Rattle.kak_world.specs.Flat.{acts, pending_of};
ghost use Rattle.normal_keys.specs.Rows.{with_digit, prefix_of, client_cleared, prefixed, waiting};

use kak_world::{Turn, World};
use key_names::Key;
use regex_ports::Pattern;

/// The greatest count.
const MAX_COUNT: u32 = 999_999;

/// What stands before a key.
#[derive(Clone, Copy, PartialEq, Eq, Debug)]
pub struct Prefix {
    /// How often the key is to be run; 0 where no digit said so.
    pub count: u32,
    /// The register that was chosen for it, if one was.
    pub register: Option<char>,
}

/// A count with one more digit.
pub(crate) fn with_digit(count: u32, digit: u32) -> u32
    ensures { result ≡ with_digit count digit }
{
    let longer = u64::from(count) * 10 + u64::from(digit);
    longer.min(u64::from(MAX_COUNT)) as u32
}

/// Takes what stands before a key of a client, and the key that waits, if one does.
pub(crate) fn take_prefix<P: Pattern, T: Turn>(
    world: &mut World<P, T>,
    who: u32,
) -> (Prefix, Option<Key>)
    requires { acts who world.old.flat ≡ true }
    ensures clears { world.new.flat ≡ client_cleared who world.old.flat }
    ensures prefix { result.0 ≡ prefix_of who world.old.flat }
    ensures pending { result.1 ≡ pending_of who world.old.flat }
{
    let own = world.own_mut(who);
    let prefix = Prefix {
        count: own.count,
        register: own.register,
    };
    let pending = own.pending;
    own.count = 0;
    own.register = None;
    own.pending = None;
    (prefix, pending)
}

/// Gives a client a count, and a register or none.
pub(crate) fn set_prefix<P: Pattern, T: Turn>(
    world: &mut World<P, T>,
    who: u32,
    count: u32,
    register: Option<char>,
)
    requires { acts who world.old.flat ≡ true }
    ensures { world.new.flat ≡ prefixed count register who world.old.flat }
{
    let own = world.own_mut(who);
    own.count = count;
    own.register = register;
}

/// Lets a key wait for the next one, with a count.
pub(crate) fn wait<P: Pattern, T: Turn>(world: &mut World<P, T>, who: u32, key: Key, count: u32)
    requires { acts who world.old.flat ≡ true }
    ensures { world.new.flat ≡ waiting key count who world.old.flat }
{
    let own = world.own_mut(who);
    own.count = count;
    own.pending = Some(key);
}
