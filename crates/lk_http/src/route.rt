ghost use Rattle.std.specs.Prelude.{◌≡◌, ◌==◌, IfOk, Some, map};
ghost use Rattle.std.specs.List.{list_all, slice_split};
ghost use Rattle.lk_http.specs.Routes.{is_id, is_id_byte, is_name, is_name_byte, load_of, query_of, server_routes, target_by, target_of};

use crate::request::Target;
use crate::routes::Route;
use lk_val::{NoMemory, Text};
use matchit::Router;
use std::alloc::{AllocError, Global};

/// The target of a path, where a route leads to it. (lookd)
pub(crate) fn find_target(
    alloc: Global,
    router: &Router<Route>,
    path: &str,
) -> Result<Option<Target>, NoMemory>
    requires { router.now ≡ server_routes }
    ensures { IfOk result (λ target. target ≡ target_of path.now) }
{
    let Ok(found) = router.at(path) else {
        return Ok(None);
    };
    let pieces = cut(alloc, path)?;
    target_by(alloc, pieces.as_slice(), *found.value)
}

// What stands between slashes.
fn cut(alloc: Global, path: &str) -> Result<Vec<&str>, AllocError>
    ensures { IfOk result (λ pieces. map (λ p. p.now) pieces.items ≡ slice_split (λ b. b == 47) path.now) }
{
    path.split('/').collect(alloc)
}

// The target of a route's pieces.
fn target_by(alloc: Global, pieces: &[&str], route: Route) -> Result<Option<Target>, NoMemory>
    ensures { IfOk result (λ target. target ≡ target_by (map (λ p. p.now) pieces.now) route) }
{
    match (route, pieces) {
        (Route::Check, _) => Ok(Some(Target::Check)),
        (Route::Query, [_, _, explore]) => query_of(alloc, explore),
        (Route::Append, [_, _, table, _, id]) => load_of(alloc, table, false, id),
        (Route::Replace, [_, _, table, _, id]) => load_of(alloc, table, true, id),
        _ => Ok(None),
    }
}

fn query_of(alloc: Global, explore: &str) -> Result<Option<Target>, NoMemory>
    ensures { IfOk result (λ target. target ≡ query_of explore.now) }
{
    if is_name(explore) {
        Ok(Some(Target::Query(Text::from_str(alloc, explore)?)))
    } else {
        Ok(None)
    }
}

fn load_of(alloc: Global, table: &str, replaces: bool, id: &str) -> Result<Option<Target>, NoMemory>
    ensures { IfOk result (λ target. target ≡ load_of table.now replaces id.now) }
{
    if is_name(table) && is_id(id) {
        let table = Text::from_str(alloc, table)?;
        let id = Text::from_str(alloc, id)?;
        Ok(Some(Target::Load(table, replaces, id)))
    } else {
        Ok(None)
    }
}

// Whether the piece can be the name of an explore or of a table.
fn is_name(piece: &str) -> bool
    ensures { result ≡ is_name piece.now }
{
    !piece.is_empty() && are_name_bytes(piece.as_bytes())
}

fn are_name_bytes(bytes: &[u8]) -> bool
    ensures { result ≡ list_all is_name_byte bytes.now }
{
    bytes.iter().all(|byte| is_name_byte(*byte))
}

fn is_name_byte(byte: u8) -> bool
    ensures { result ≡ is_name_byte byte }
{
    byte.is_ascii_alphanumeric() || byte == b'_'
}

// Whether the piece can be a load's id.
fn is_id(piece: &str) -> bool
    ensures { result ≡ is_id piece.now }
{
    !piece.is_empty() && piece.len() <= 64 && are_id_bytes(piece.as_bytes())
}

fn are_id_bytes(bytes: &[u8]) -> bool
    ensures { result ≡ list_all is_id_byte bytes.now }
{
    bytes.iter().all(|byte| is_id_byte(*byte))
}

fn is_id_byte(byte: u8) -> bool
    ensures { result ≡ is_id_byte byte }
{
    is_name_byte(byte) || byte == b'.' || byte == b'-'
}
