//! Paths: names with `/` between them.

ghost use Rattle.std.specs.Prelude.{◌≡◌, drop};
ghost use Rattle.std.specs.List.{list_any};
ghost use Rattle.highlight_paint.specs.Paths.{is_slash, is_below, is_child};

// Whether a byte is `/`.
fn is_slash(byte: u8) -> bool
    ensures { result ≡ is_slash byte }
{
    byte == b'/'
}

/// Whether a path stands below another one.
pub(crate) fn is_below(above: &[u8], path: &[u8]) -> bool
    ensures { result ≡ is_below above.now path.now }
{
    for i in 0..above.len() {
        if i >= path.len() {
            return false;
        }
        if above[i] != path[i] {
            return false;
        }
    }
    above.len() < path.len() && is_slash(path[above.len()])
}

/// Whether there is a `/` among the bytes of a path from one on.
pub(crate) fn has_slash(path: &[u8], from: usize) -> bool
    ensures { result ≡ list_any is_slash (drop from path.now) }
{
    for i in from..path.len() {
        if is_slash(path[i]) {
            return true;
        }
    }
    false
}

/// Whether a path is that of a name right below another one.
pub(crate) fn is_child(above: &[u8], path: &[u8]) -> bool
    ensures { result ≡ is_child above.now path.now }
{
    is_below(above, path) && !has_slash(path, above.len() + 1)
}
