//! Laws of the rows, and worked examples of the definitions: each is the contract of a function that does nothing.

ghost use Rattle.insert_prompt.specs.Examples.{Examples};
ghost use Rattle.insert_prompt.specs.Laws.{InsertRowsKeepClients};
ghost use Rattle.insert_prompt.specs.PromptExamples.{PromptExamples};

/// No key of insert mode or of a prompt makes a client come or go.
pub fn rows_keep_clients()
    ensures { InsertRowsKeepClients }
{}

/// Worked examples of the rows of insert mode.
#[tactic(auto, unfolding(kak_world::specs::Flat::client_of, kak_world::specs::Flat::shown_of, kak_world::specs::Flat::buffer_of, kak_world::specs::Flat::list_of, kak_world::specs::Flat::own_of, kak_world::specs::Flat::text_of, kak_world::specs::Flat::sels_of, kak_world::specs::Flat::with_own, kak_world::specs::Changing::changed_in, kak_world::specs::Changing::edited_by, kak_world::specs::Changing::commits, kak_world::specs::Editing::edit_row, kak_world::specs::Flat::story_of, kak_world::specs::Flat::rest_of, kak_world::specs::Flat::with_rest, kak_world::specs::Registers::set_row))]
pub fn worked_examples()
    ensures { Examples }
{}

/// Worked examples of the rows of prompts.
pub fn prompt_examples()
    ensures { PromptExamples }
{}
