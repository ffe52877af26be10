//! The laws of the definitions: each is the contract of a function that does nothing.

ghost use Rattle.step_texts.specs.Examples.{Examples};
ghost use Rattle.step_texts.specs.Laws.{TextsAreLeftWithin, TextsGoThrough};

/// Where memory was wanting in an event, the texts are those from before it where no task began; else those behind some of the single
/// changes of the last task that began, in order, or behind that task; or they are those behind the event. A file that the task opens
/// may be there or not.
pub fn texts_are_left_within()
    ensures { TextsAreLeftWithin }
{}

/// In an event each task begins with the texts that the one before it left, the first one with those from before the event; and the
/// last one leaves the texts that stand behind the event.
pub fn texts_go_through()
    ensures { TextsGoThrough }
{}

/// Worked examples.
#[tactic(auto, unfolding(kak_world::specs::Flat::client_of, kak_world::specs::Flat::shown_of, kak_world::specs::Flat::buffer_of, kak_world::specs::Flat::list_of, kak_world::specs::Flat::own_of, kak_world::specs::Flat::text_of, kak_world::specs::Flat::sels_of, kak_world::specs::Flat::story_of))]
pub fn worked_examples()
    ensures { Examples }
{}
