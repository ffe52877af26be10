//! The requests of the methods whose parameters are numbers, places and buttons.

ghost use Rattle.std.specs.Prelude.{◌≡◌, Ok, IfOk, IfErr};
ghost use Rattle.serde_json.specs.View.{view};
ghost use Rattle.window_view.specs.Sizes.{sized};
ghost use Rattle.requests.specs.Reading.{IsLineError};
ghost use Rattle.json_ui.specs.Methods.{resize_in, scroll_in, move_in, press_in, release_in, menu_select_in, fitting};

use crate::parameters::{coord_at, has_more_than, lines_at, pointed_in, signed_at, whole_at};
use drawings::Refusal;
use mouse_events::Mouse;
use requests::{LineError, Request};
use serde_json::Value;
use window_view::Size;

// So many rows and columns, each brought into those that a window may have.
fn size_of(rows: u64, columns: u64) -> Size
    ensures { result ≡ sized rows columns }
{
    let most = u64::from(u16::MAX);
    Size::new_within(rows.min(most) as u16, columns.min(most) as u16)
}

/// The request of `resize`.
pub(crate) fn resize_in(request: &Value) -> Option<Request>
    ensures { result ≡ resize_in (view request.now) }
{
    if has_more_than(request, 2) {
        return None;
    }
    let rows = whole_at(request, 0)?;
    let columns = whole_at(request, 1)?;
    Some(Request::Resize(size_of(rows, columns)))
}

/// The request of `scroll`.
pub(crate) fn scroll_in(request: &Value) -> Option<Request>
    ensures { result ≡ scroll_in (view request.now) }
{
    if has_more_than(request, 3) {
        return None;
    }
    let lines = lines_at(request, 0)?;
    if !has_more_than(request, 1) {
        return Some(Request::Scroll(lines, None));
    }
    let place = coord_at(request, 1)?;
    Some(Request::Scroll(lines, Some(place)))
}

/// The request of `mouse_move`.
pub(crate) fn move_in(request: &Value) -> Option<Request>
    ensures { result ≡ move_in (view request.now) }
{
    if has_more_than(request, 2) {
        return None;
    }
    let place = coord_at(request, 0)?;
    Some(Request::Mouse(Mouse::Move(place)))
}

/// The request of `mouse_press`.
pub(crate) fn press_in(request: &Value) -> Option<Request>
    ensures { result ≡ press_in (view request.now) }
{
    let (button, place) = pointed_in(request)?;
    Some(Request::Mouse(Mouse::Press(button, place)))
}

/// The request of `mouse_release`.
pub(crate) fn release_in(request: &Value) -> Option<Request>
    ensures { result ≡ release_in (view request.now) }
{
    let (button, place) = pointed_in(request)?;
    Some(Request::Mouse(Mouse::Release(button, place)))
}

/// The request of `menu_select`.
pub(crate) fn menu_select_in(request: &Value) -> Option<Request>
    ensures { result ≡ menu_select_in (view request.now) }
{
    if has_more_than(request, 1) {
        return None;
    }
    if whole_at(request, 0).is_some() || signed_at(request, 0).is_some() {
        return Some(Request::MenuSelect);
    }
    None
}

/// A request; where there is none, the parameters don't fit the method.
pub(crate) fn fitting(request: Option<Request>) -> Result<Request, LineError>
    ensures request { IfOk result (λ r. fitting request ≡ Ok r) }
    ensures error { IfErr result (λ e. IsLineError e (fitting request)) }
{
    match request {
        Some(request) => Ok(request),
        None => Err(LineError::Refused(Refusal::Params)),
    }
}
