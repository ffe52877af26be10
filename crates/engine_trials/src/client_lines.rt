//! Lines that a client is sent.

/// What is sent before the first drawing.
pub(crate) const OPTIONS: &str =
    "{\"jsonrpc\":\"2.0\",\"method\":\"set_ui_options\",\"params\":[{}]}\n";

/// A drawing of the empty buffer.
pub(crate) const EMPTY: &str =
    "{\"jsonrpc\":\"2.0\",\"method\":\"draw\",\"params\":[[[{\"contents\":\"\\n\",\"face\":{\"attributes\":[],\"bg\":\"cyan\",\"fg\":\"black\",\"underline\":\"default\"}}]],{\"attributes\":[],\"bg\":\"default\",\"fg\":\"default\",\"underline\":\"default\"},{\"attributes\":[],\"bg\":\"default\",\"fg\":\"blue\",\"underline\":\"default\"}]}\n{\"jsonrpc\":\"2.0\",\"method\":\"draw_status\",\"params\":[[],[{\"contents\":\"*scratch* 1:1 normal 1/1 - client0\",\"face\":{\"attributes\":[],\"bg\":\"default\",\"fg\":\"cyan\",\"underline\":\"default\"}}],{\"attributes\":[],\"bg\":\"default\",\"fg\":\"cyan\",\"underline\":\"default\"}]}\n{\"jsonrpc\":\"2.0\",\"method\":\"set_cursor\",\"params\":[\"buffer\",{\"column\":0,\"line\":0}]}\n{\"jsonrpc\":\"2.0\",\"method\":\"refresh\",\"params\":[false]}\n";

/// The refusal of a line that is no request.
pub(crate) const INVALID: &str =
    "{\"error\":{\"code\":-32600,\"message\":\"Invalid\"},\"id\":null,\"jsonrpc\":\"2.0\"}\n";
