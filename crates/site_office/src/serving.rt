//! The sessions of a site's connection: bytes in and bytes out.
ghost use Rattle.std.specs.Prelude.{◌≡◌, None};
ghost use Rattle.line_io.specs.Leads.{between};
ghost use Rattle.site_office.specs.Sessions.{SeenSiteSession};

use crate::environment::Environment;
use crate::laws::nobody_stays;
use crate::office::SiteOffice;
use crate::turns::SiteLines;
use line_io::{LineFault, Sink, Source, TalkEnd};
use session::serve_talk;
use site_book::Who;
use site_desk::{SiteDesk, SiteNaming, SiteTrace};
use std::alloc::{Allocator, Global};
use std::sync::Wait;
use std::time::Clock;

/// What a connection is served with.
pub struct Connection<'a, J: SiteNaming, H: Environment, A: Allocator = Global> {
    /// The desks of all halls.
    pub desks: &'a [SiteDesk<J, A>],
    /// The desk of its next session, unless that one's customer has another.
    pub desk: &'a SiteDesk<J, A>,
    /// Its clock, and who knows tokens and rates.
    pub environment: H,
    /// Whose it is.
    pub own: Who,
    /// The depth of the leaves that workers compute, in plies.
    pub grain: u8,
}

/// Serves the one session of a connection up to a line `BYE`, the end of the source, or a failure of source or sink, and gives back how it
/// ended, what its tenant's seat knew of its desk's history when it left (`None` where no tenant came), and the environment. What it said is a
/// session in that history (`specs/Sessions.antt`): each line `DONE k` that it wrote has the minimax value and the best choice of the position
/// and the depth of the k-th `ASK` line that was answered by `JOB`, and each line `TABLE k` with entries their table. And each answer to its
/// tenant is a function of its request and of what the tenant's own part of that history had made of it at a moment; only RESERVE may also be
/// refused by the customer's book, or for want of memory.
pub fn serve_connection<'a, S, K, J, H, R, A>(
    rt: &'a R,
    source: &mut S,
    sink: &mut K,
    connection: Connection<'a, J, H, A>,
) -> (Result<TalkEnd, LineFault>, Option<SiteTrace<J>>, H)
where
    S: Source,
    K: Sink,
    J: SiteNaming,
    H: Environment,
    R: Wait + Clock,
    A: Allocator + Clone,
    ensures { SeenSiteSession J.begun (between S.gives source.old source.new) (between K.takes sink.old sink.new) result.0 result.1 }
{
    let Connection {
        desks,
        desk,
        environment,
        own,
        grain,
    } = connection;
    let mut office = SiteOffice::new(rt, desks, desk, environment, own, grain);
    let end = serve_office(rt, source, sink, &mut office);
    let (knew, environment) = office.close();
    (end, knew, environment)
}

/// Serves the sessions of an office where no tenant is there; none is there when it returns.
fn serve_office<S, K, J, H, R, A>(
    rt: &R,
    source: &mut S,
    sink: &mut K,
    office: &mut SiteOffice<'_, J, H, R, A>,
) -> Result<TalkEnd, LineFault>
where
    S: Source,
    K: Sink,
    J: SiteNaming,
    H: Environment,
    R: Wait + Clock,
    A: Allocator + Clone,
    requires { office.old.seat ≡ None }
    ensures nobody { office.new.seat ≡ None }
    ensures seen { office.old.knew ≡ None → SeenSiteSession J.begun (between S.gives source.old source.new) (between K.takes sink.old sink.new) result office.new.knew }
{
    let end = serve_talk::<SiteLines, S, K, SiteOffice<'_, J, H, R, A>, R>(
        rt, source, sink, office,
    );
    nobody_stays::<S, K, SiteOffice<'_, J, H, R, A>>();
    end
}
