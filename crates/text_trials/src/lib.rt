//! Trials of texts and selections: characters, keys, faces, windows, files, lists of selections and what changes do to them.
#![tactic(auto)]

#[cfg(test)]
mod change_list_tests;
#[cfg(test)]
mod kak_faces_tests;
#[cfg(test)]
mod kak_text_tests;
#[cfg(test)]
mod key_names_tests;
#[cfg(test)]
mod list_shelf_tests;
#[cfg(test)]
mod move_marks_tests;
#[cfg(test)]
mod program_words_tests;
#[cfg(test)]
mod rows;
#[cfg(test)]
mod selection_map_tests;
#[cfg(test)]
mod selection_set_tests;
#[cfg(test)]
mod selection_texts_tests;
#[cfg(test)]
mod shelf_log_tests;
#[cfg(test)]
mod text_coding_tests;
#[cfg(test)]
mod window_view_tests;
