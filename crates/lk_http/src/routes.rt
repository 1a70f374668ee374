ghost use Rattle.std.specs.Prelude.{◌≡◌, [], IfOk, OnOk};
ghost use Rattle.lk_http.specs.Routes.{server_routes};

use lk_val::NoMemory;
use matchit::{InsertError, Router};
use std::alloc::Global;

/// A route of the server: which of its calls a path is for.
#[derive(Clone, Copy, PartialEq, Eq)]
pub enum Route {
    Check,
    Query,
    /// A load behind the rows of a table.
    Append,
    /// A load in place of the rows of a table.
    Replace,
}

/// The router over the routes of the server.
pub(crate) fn server_router(alloc: Global) -> Result<Router<Route>, NoMemory>
    ensures { IfOk result (λ router. router ≡ server_routes) }
{
    let mut router = Router::new(alloc);
    match insert_all(&mut router) {
        Ok(()) => Ok(router),
        Err(_) => Err(NoMemory),
    }
}

fn insert_all(router: &mut Router<Route>) -> Result<(), InsertError>
    requires { router.old ≡ [] }
    ensures { OnOk result (router.new ≡ server_routes) }
{
    router.insert("/check", Route::Check)?;
    router.insert("/query/{explore}", Route::Query)?;
    router.insert("/load/{table}/append/{id}", Route::Append)?;
    router.insert("/load/{table}/replace/{id}", Route::Replace)?;
    Ok(())
}
