//! What each role has.

ghost use Rattle.std.specs.Prelude.{◌≡◌, ◌≤◌};
ghost use Rattle.lat_words.specs.Roles.{role_of, most_lines, is_server};

use crate::config::Role;

pub(crate) fn role_of(text: &[u8]) -> Option<Role>
    ensures { result ≡ role_of text.now }
{
    if text == "server".as_bytes() {
        Some(Role::Server)
    } else if text == "switch".as_bytes() {
        Some(Role::Switch)
    } else if text == "node".as_bytes() {
        Some(Role::Node)
    } else if text == "tariff".as_bytes() {
        Some(Role::Tariff)
    } else {
        None
    }
}

/// How many lines it has at most.
pub(crate) fn most_lines(role: Role) -> u64
    ensures value { result ≡ most_lines role }
    ensures most { result ≤ 64 }
{
    match role {
        Role::Server => 32,
        Role::Switch => 8,
        Role::Node | Role::Tariff => 64,
    }
}

/// Whether it is a server, with or without several sessions on a line.
pub(crate) fn is_server(role: Role) -> bool
    ensures { result ≡ is_server role }
{
    matches!(role, Role::Server | Role::Switch)
}
