//! The laws of the definitions: each is the contract of a function that does nothing.
ghost use Rattle.std.specs.Prelude.{◌≡◌};
ghost use Rattle.kak_engine.specs.Examples.{Examples, SizeExamples};
ghost use Rattle.kak_engine.specs.MouseExamples.{MouseExamples};
ghost use Rattle.kak_engine.specs.RescueExamples.{RescueExamples};
ghost use Rattle.kak_engine.specs.NestingExamples.{NestingExamples};
ghost use Rattle.kak_engine.specs.HookExamples.{HookExamples};
ghost use Rattle.kak_engine.specs.declared.engine.TheConstants.{MAX_UNITS};
ghost use Rattle.kak_engine.specs.declared.place.TheConstants.{MAX_DEPTH};
ghost use Rattle.kak_engine.specs.Laws.{BoundEndsNoStep, KeysKeepClients, OtherClientsStay, ResizesChangeSizes, StepsEnd};

/// The bound on nesting ends no step by itself: with a bound above how deep a row may
/// nest by its units and stages, more of it makes no difference.
pub fn bound_ends_no_step()
    ensures { BoundEndsNoStep }
{}

/// No key makes a client come or go, its own or another one, and each that had joined has joined still.
pub fn keys_keep_clients()
    ensures { KeysKeepClients }
{}

/// No event of a client makes another one come or go, and one that had joined has joined still.
pub fn others_stay()
    ensures { OtherClientsStay }
{}

/// A resize gives the windows of its client so many rows and columns, and changes nothing else.
pub fn resizes_change_sizes()
    ensures { ResizesChangeSizes }
{}

/// The limits, in numbers.
pub fn limits()
    ensures units { MAX_UNITS ≡ 4096 }
    ensures depth { MAX_DEPTH ≡ 32 }
{}

/// Behind each history no step is under way: it is nobody's turn, and no unit is left.
pub fn steps_end()
    ensures { StepsEnd }
{}

/// Worked examples of rows that ask the outside for something.
pub fn worked_examples()
    ensures { Examples }
{}

/// Worked examples of what is run inside something else, and of keys that are recorded.
pub fn nesting_examples()
    ensures { NestingExamples }
{}

/// Worked examples of windows of other sizes.
#[tactic(auto, unfolding(kak_world::specs::Flat::client_of, kak_world::specs::Flat::shown_of, kak_world::specs::Flat::buffer_of, kak_world::specs::Flat::list_of, kak_world::specs::Flat::own_of, kak_world::specs::Flat::view_of, kak_world::specs::Flat::with_own, kak_world::specs::Flat::joined_by))]
pub fn size_examples()
    ensures { SizeExamples }
{}

/// Worked examples of the mouse and of scrolling.
pub fn mouse_examples()
    ensures { MouseExamples }
{}

/// Worked examples of what a rescue writes.
pub fn rescue_examples()
    ensures { RescueExamples }
{}

/// Worked examples of hooks that are run, and of how what they do ends.
pub fn hook_examples()
    ensures { HookExamples }
{}
