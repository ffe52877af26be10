//! Trials of ports, files and registers in memory, of words, options and orders, of boxed user interfaces, and of what
//! windows show.
#![tactic(auto)]

#[cfg(test)]
mod command_forms_tests;
#[cfg(test)]
mod kak_files_tests;
#[cfg(test)]
mod kak_ports_tests;
#[cfg(test)]
mod kak_registers_tests;
#[cfg(test)]
mod kak_words_tests;
#[cfg(test)]
mod line_painting_tests;
#[cfg(test)]
mod scope_options_tests;
#[cfg(test)]
mod ui_board_tests;
