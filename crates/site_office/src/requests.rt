//! What a line of a site's session asks for.
ghost use Rattle.std.specs.Prelude.{◌≡◌};
ghost use Rattle.line_io.specs.Views.{text_of};
ghost use Rattle.site_office.specs.Lines.{info_request, site_request};
ghost use Rattle.site_office.specs.Views.{asked_seen};

use crate::tokens::{token_of, without_token};
use line_io::Line;
use protocol::ProtocolFault;
use session::{Request, read_request};
use tenant_quota::Reserve;

/// What a line of a site's session asks for.
#[derive(Clone, Copy)]
pub enum SiteRequest<'a> {
    /// HELLO: a session with this reservation, perhaps by a token.
    Greets(Option<&'a [u8]>, Reserve),
    /// RESERVE: that the session's reservation be raised to this.
    Raises(Reserve),
    /// INFO: what the customer may have and has.
    Informs,
    /// PING: a sign that the site is there.
    Pings,
    /// What concerns the session alone.
    Plain(Request),
}

/// What a line asks for, where a tenant is there (`seated`) or not.
pub fn read_site_request(seated: bool, line: Line<'_>) -> SiteRequest<'_>
    ensures { asked_seen result ≡ site_request seated (text_of line.entry) }
{
    let Line::Whole(bytes) = line else {
        return SiteRequest::Plain(Request::Fault(ProtocolFault::LongLine));
    };
    if bytes == b"INFO".as_slice() {
        return info_request(seated);
    }
    if bytes == b"PING".as_slice() {
        return SiteRequest::Pings;
    }
    match read_request(seated, Line::Whole(without_token(bytes))) {
        Request::Hello(reserve) => SiteRequest::Greets(token_of(bytes), reserve),
        Request::Reserve(reserve) => SiteRequest::Raises(reserve),
        asked => SiteRequest::Plain(asked),
    }
}

/// What a line INFO asks for: the budget of the session's customer, where a tenant is there.
fn info_request<'a>(seated: bool) -> SiteRequest<'a>
    ensures { asked_seen result ≡ info_request seated }
{
    if seated {
        SiteRequest::Informs
    } else {
        SiteRequest::Plain(Request::Fault(ProtocolFault::NoHello))
    }
}
