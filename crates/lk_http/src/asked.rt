ghost use Rattle.std.specs.Prelude.{◌≡◌, IfOk, map};
ghost use Rattle.httparse.specs.Borrowed.{header_parts};
ghost use Rattle.lk_http.specs.Fields.{user_of};
ghost use Rattle.lk_http.specs.Judged.{IsWhole};
ghost use Rattle.lk_http.specs.Reading.{IsAsked};
ghost use Rattle.lk_http.specs.Routes.{server_routes, target_of};

use crate::faults::HttpFault;
use crate::fields::{body_length, closes, user_of};
use crate::request::Target;
use crate::route::find_target;
use crate::routes::Route;
use httparse::{EMPTY_HEADER, Header, Request, Status};
use lk_val::{NoMemory, Text};
use matchit::Router;
use std::alloc::Global;

// What a head asks for.
#[derive(Drop)]
pub(crate) struct Asked {
    pub post: bool,
    pub close: bool,
    // The length of the body, or why it is refused.
    pub length: Result<u64, HttpFault>,
    pub parts: Result<Parts, NoMemory>,
}

// What takes memory of a head.
#[derive(Drop)]
pub(crate) struct Parts {
    pub user: Text,
    // None where there is no route.
    pub target: Option<Target>,
}

// What a whole head asks for.
pub(crate) fn read_asked(alloc: Global, router: &Router<Route>, head: &[u8]) -> Asked
    requires whole { IsWhole head.now }
    requires routes { router.now ≡ server_routes }
    ensures { IsAsked head.now result }
{
    let mut headers = [EMPTY_HEADER; 64];
    let mut request = Request::new(&mut headers);
    let Ok(Status::Complete(_)) = request.parse(head) else {
        unreachable!()
    };
    let (Some(method), Some(path), Some(minor)) = (request.method, request.path, request.version)
    else {
        unreachable!()
    };
    let post = method == "POST";
    let headers: &[Header<'_>] = request.headers;
    Asked {
        post,
        close: closes(minor, headers),
        length: body_length(post, headers),
        parts: copy_parts(alloc, router, path, headers),
    }
}

fn copy_parts(
    alloc: Global,
    router: &Router<Route>,
    path: &str,
    headers: &[Header<'_>],
) -> Result<Parts, NoMemory>
    requires { router.now ≡ server_routes }
    ensures { IfOk result (λ parts. (parts.user ≡ user_of (map header_parts headers.now))
        × (parts.target ≡ target_of path.now)) }
{
    Ok(Parts {
        user: Text::from_str(alloc, user_of(headers))?,
        target: find_target(alloc, router, path)?,
    })
}
