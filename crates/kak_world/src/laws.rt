//! Laws of the flat world, and worked examples of its definitions: each is the contract of a function that does nothing.

ghost use Rattle.kak_world.specs.DroppingExamples.{DroppingExamples};
ghost use Rattle.kak_world.specs.Examples.{Examples};
ghost use Rattle.kak_world.specs.Names.{NamesAreLeast};
ghost use Rattle.kak_world.specs.Showing.{GapsAreTaken};
ghost use Rattle.kak_world.specs.ScopedExamples.{ScopedExamples};
ghost use Rattle.kak_world.specs.ShowingExamples.{ShowingExamples};
ghost use Rattle.kak_world.specs.WindowExamples.{WindowExamples};
ghost use Rattle.kak_world.specs.StoredExamples.{StoredExamples};
ghost use Rattle.kak_world.specs.EventExamples.{EventExamples};
ghost use Rattle.std.specs.Prelude.{◌≡◌};

use crate::options::MAX_INDENT;
use crate::slots::MAX_BUFFERS;
use crate::world::MAX_CLIENTS;

/// At most 64 clients are here at once, there are at most 1,024 buffers, and a line is indented by at most 64 columns at
/// once.
pub fn limits_are_these()
    ensures clients { MAX_CLIENTS ≡ 64 }
    ensures buffers { MAX_BUFFERS ≡ 1024 }
    ensures indent { MAX_INDENT ≡ 64 }
{}

/// The number in a new client's name is the least that no other client has.
pub fn names_are_least()
    ensures { NamesAreLeast }
{}

/// The number of a new buffer was no buffer's, and all numbers below it are; each other number has what it had.
pub fn gaps_are_taken()
    ensures { GapsAreTaken }
{}

/// Worked examples of clients that come and go, and of changes that move everybody's selections.
#[tactic(auto, unfolding(crate::specs::Flat::client_of, crate::specs::Flat::shown_of, crate::specs::Flat::rest_of, crate::specs::Flat::buffer_of, crate::specs::Flat::list_of, crate::specs::Flat::is_joined, crate::specs::Flat::acts, crate::specs::Flat::with_rest, crate::specs::Flat::own_of, crate::specs::Flat::name_of, crate::specs::Flat::text_of, crate::specs::Flat::sels_of, crate::specs::Flat::tabstop_of, crate::specs::Flat::joined_by, crate::specs::Flat::left_by_client, crate::specs::Changing::changed_in, crate::specs::Flat::story_of, crate::specs::Flat::node_number_of, crate::specs::Changing::edited_by, crate::specs::Changing::traveled_by, crate::specs::Changing::commits, crate::specs::Editing::travel_row))]
pub fn worked_examples()
    ensures { Examples }
{}

/// Worked examples of buffers that are opened, and of clients that are shown one.
#[tactic(auto, unfolding(crate::specs::Flat::client_of, crate::specs::Flat::shown_of, crate::specs::Flat::rest_of, crate::specs::Flat::buffer_of, crate::specs::Flat::list_of, crate::specs::Flat::is_joined, crate::specs::Flat::name_of, crate::specs::Flat::sels_of, crate::specs::Flat::with_list_of, crate::specs::Flat::with_sels, crate::specs::Flat::joined_by, crate::specs::Showing::shows, crate::specs::Showing::buffer_opened))]
pub fn showing_examples()
    ensures { ShowingExamples }
{}

/// Worked examples of windows: how large they are belongs to their client, and where each stands to its buffer too.
#[tactic(auto, unfolding(crate::specs::Flat::client_of, crate::specs::Flat::shown_of, crate::specs::Flat::buffer_of, crate::specs::Flat::list_of, crate::specs::Flat::own_of, crate::specs::Flat::view_of, crate::specs::Flat::with_own, crate::specs::Flat::with_list_of, crate::specs::Flat::with_corner, crate::specs::Flat::joined_by, crate::specs::Showing::shows, crate::specs::Showing::buffer_opened))]
pub fn window_examples()
    ensures { WindowExamples }
{}

/// Worked examples of buffers that are dropped.
#[tactic(auto, unfolding(crate::specs::Flat::client_of, crate::specs::Flat::shown_of, crate::specs::Flat::rest_of, crate::specs::Flat::buffer_of, crate::specs::Flat::list_of, crate::specs::Flat::is_joined, crate::specs::Flat::name_of, crate::specs::Flat::sels_of, crate::specs::Flat::with_list_of, crate::specs::Flat::with_sels, crate::specs::Flat::joined_by, crate::specs::Showing::shows, crate::specs::Showing::buffer_opened, crate::specs::Dropping::dropped))]
pub fn dropping_examples()
    ensures { DroppingExamples }
{}

/// Worked examples of what is kept by scope: it goes with its client or its buffer.
#[tactic(auto, unfolding(crate::specs::Flat::client_of, crate::specs::Flat::shown_of, crate::specs::Flat::rest_of, crate::specs::Flat::scoped_of, crate::specs::Flat::buffer_of, crate::specs::Flat::list_of, crate::specs::Flat::is_joined, crate::specs::Flat::with_scoped, crate::specs::Flat::with_list_of, crate::specs::Flat::with_sels, crate::specs::Flat::joined_by, crate::specs::Flat::left_by_client, crate::specs::Showing::shows, crate::specs::Showing::buffer_opened, crate::specs::Dropping::dropped))]
pub fn scoped_examples()
    ensures { ScopedExamples }
{}

/// Worked examples of what a step leaves as it is stored: what others have, with exactly the exceptions that are meant.
pub fn stored_examples()
    ensures { StoredExamples }
{}

/// Worked examples of events that are due, of hooks that begin, and of errors that are told.
#[tactic(auto, unfolding(crate::specs::Flat::client_of, crate::specs::Flat::shown_of, crate::specs::Flat::rest_of, crate::specs::Flat::scoped_of, crate::specs::Flat::buffer_of, crate::specs::Flat::own_of, crate::specs::Flat::name_of, crate::specs::Flat::number_of, crate::specs::Flat::with_own, crate::specs::Flat::with_rest, crate::specs::Flat::with_scoped, crate::specs::Flat::joined_by))]
pub fn event_examples()
    ensures { EventExamples }
{}
