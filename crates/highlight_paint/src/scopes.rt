//! Scopes that are compared.

ghost use Rattle.std.specs.Prelude.{◌≡◌};
ghost use Rattle.scope_options.specs.Scopes.{is_same_scope, is_of_client, is_of_buffer};

use scope_options::Scope;

/// Whether two scopes are one.
pub(crate) fn is_same_scope(a: Scope, b: Scope) -> bool
    ensures { result ≡ is_same_scope a b }
{
    match (a, b) {
        (Scope::Global, Scope::Global) => true,
        (Scope::Buffer(m), Scope::Buffer(n)) => m == n,
        (Scope::Window(k, m), Scope::Window(l, n)) => k == l && m == n,
        _ => false,
    }
}

/// Whether a scope is a window of a client.
pub(crate) fn is_of_client(scope: Scope, client: u32) -> bool
    ensures { result ≡ is_of_client client scope }
{
    match scope {
        Scope::Window(who, _) => who == client,
        _ => false,
    }
}

/// Whether a scope is a buffer, or a window on it.
pub(crate) fn is_of_buffer(scope: Scope, buffer: u32) -> bool
    ensures { result ≡ is_of_buffer buffer scope }
{
    match scope {
        Scope::Global => false,
        Scope::Buffer(n) => n == buffer,
        Scope::Window(_, n) => n == buffer,
    }
}
