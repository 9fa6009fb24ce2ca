//! A site's health and metrics by HTTP.
use crate::links::first_line;
use crate::shared::Shared;
use crate::telling::metrics_of;
use crate::visits::Host;
use site_desk::SiteNaming;
use std::alloc::AllocError;
use std::net::TcpListener;
use std::sync::Wait;
use std::time::{Clock, Duration};

/// Seconds in which a request is whole, and in which its answer is taken.
const REQUEST_SECS: u64 = 2;

/// What a request asks for.
#[derive(Clone, Copy)]
enum Asked {
    Health,
    Metrics,
    Missing,
}

/// What a request asks for; `None` where it isn't whole yet.
fn asked_by(request: &[u8]) -> Option<Asked> {
    let line = first_line(request)?;
    Some(if line.starts_with(b"GET /health ".as_slice()) {
        Asked::Health
    } else if line.starts_with(b"GET /metrics ".as_slice()) {
        Asked::Metrics
    } else {
        Asked::Missing
    })
}

/// The answer to what a request asks for.
fn answer<J: SiteNaming, R: AllocGlobal + Clock + Wait>(
    rt: &R,
    shared: &Shared<J>,
    asked: Asked,
) -> Result<String, AllocError> {
    match asked {
        Asked::Health => {
            let is_draining = shared.register(rt).draining.is_some();
            String::from_str(
                rt.alloc(),
                if is_draining {
                    "HTTP/1.0 503 Service Unavailable\r\nContent-Length: 9\r\n\r\ndraining\n"
                } else {
                    "HTTP/1.0 200 OK\r\nContent-Length: 3\r\n\r\nok\n"
                },
            )
        }
        Asked::Metrics => {
            let body = metrics_of(rt, shared)?;
            let size = body.len();
            format!(in rt.alloc();
                "HTTP/1.0 200 OK\r\nContent-Type: text/plain; version=0.0.4\r\nContent-Length: {size}\r\n\r\n{body}"
            )
        }
        Asked::Missing => String::from_str(
            rt.alloc(),
            "HTTP/1.0 404 Not Found\r\nContent-Length: 0\r\n\r\n",
        ),
    }
}

/// Who answers requests by HTTP.
#[derive(Drop)]
struct WebHost<'a, J: SiteNaming, R> {
    rt: &'a R,
    shared: &'a Shared<J>,
}

impl<J: SiteNaming, R: AllocGlobal + Clock + Wait> Host for WebHost<'_, J, R> {
    /// In which time a request is whole, and in which its answer is taken.
    fn limit(&self) -> Duration {
        Duration::from_secs(REQUEST_SECS)
    }

    /// The answer to a request.
    fn answer(&self, bytes: &[u8]) -> Option<Result<String, AllocError>> {
        let asked = asked_by(bytes)?;
        Some(answer(self.rt, self.shared, asked))
    }
}

/// Takes the connections by HTTP, which other threads answer ([`answer_web`]).
pub(crate) fn serve_web<J: SiteNaming, R: Clock + AllocGlobal + Wait>(
    rt: &R,
    shared: &Shared<J>,
    listener: TcpListener,
) {
    for came in listener.incoming() {
        shared.web.take(rt, rt.alloc(), came);
    }
}

/// Answers one connection by HTTP after another, for ever.
pub(crate) fn answer_web<J: SiteNaming, R: Clock + AllocGlobal + Wait>(rt: &R, shared: &Shared<J>) {
    shared.web.answer_all(rt, &WebHost { rt, shared });
}
