ghost use Rattle.std.specs.Prelude.{◌≡◌, false, option_map};
ghost use Rattle.lk_turns.specs.Doings.{http_reply};

use lk_http::HttpFault;

// The status and the body of a request that is refused as it is; none where there is no reply. (RFC 9110)
pub(crate) fn refusal_of(fault: HttpFault) -> Option<(u16, &'static [u8])>
    ensures { option_map (λ refusal. record { status = refusal.0; csv = false; body = refusal.1.now }) result ≡ http_reply fault }
{
    match fault {
        HttpFault::H1 => Some((400, b"{\"error\":\"H1\"}")),
        HttpFault::H2 => Some((411, b"{\"error\":\"H2\"}")),
        HttpFault::H3(_) => Some((413, b"{\"error\":\"H3\"}")),
        HttpFault::H4(_) => Some((404, b"{\"error\":\"H4\"}")),
        HttpFault::H5(_) => Some((405, b"{\"error\":\"H5\"}")),
        HttpFault::H6 => Some((431, b"{\"error\":\"H6\"}")),
        HttpFault::Truncated | HttpFault::ReadFault | HttpFault::NoMemory => None,
    }
}
