//! Worked examples of what a session's tenant is told by its own part of a desk's history, computed from the
//! definitions alone. `reply_to 2 1` is the reply at grain 2 to tenant 1; refusal 1 is NoTenant, and 17 NoJob.
ghost use Rattle.std.specs.Prelude.{◌≡◌, Some, None};
ghost use Rattle.session.specs.declared.standings.Standing.TheVariants.{Pending};
ghost use Rattle.session.specs.Calls.{Get, Cancel, AskQuota, AskLive, Told, Ended, Rest, Alive, Refused};
ghost use Rattle.desk_office.specs.Answers.{reply_to};
ghost use Rattle.desk_office.specs.Rows.{after_hello, after_ask, tenant_told};

/// Tenant 1 reserves 4 segments and 8 nodes, and tenant 2 reserves as well and asks: tenant 1 has all that it reserved, no
/// frame and no job. Tenant 3 isn't there.
pub fn of_a_new_tenant()
    ensures quota { reply_to 2 1 (tenant_told after_hello 1) AskQuota ≡ Rest (record { segments = 4; nodes = 8; steps = 128 }) }
    ensures live { reply_to 2 1 (tenant_told after_hello 1) AskLive ≡ Alive (record { frames = 0; words = 0 }) }
    ensures job { reply_to 2 1 (tenant_told after_hello 1) (Get 1) ≡ Refused 17 }
    ensures nobody { reply_to 2 3 (tenant_told after_hello 3) AskQuota ≡ Refused 1 }
{}

/// After tenant 1 asked for the opening to depth 0: it has a node and a segment less, a frame of 12 words, and a job that
/// can be cancelled.
pub fn of_a_tenant_that_asked()
    ensures quota { reply_to 2 1 (tenant_told after_ask 1) AskQuota ≡ Rest (record { segments = 3; nodes = 7; steps = 128 }) }
    ensures live { reply_to 2 1 (tenant_told after_ask 1) AskLive ≡ Alive (record { frames = 1; words = 12 }) }
    ensures job { reply_to 2 1 (tenant_told after_ask 1) (Get 1) ≡ Told 1 Pending }
    ensures ends { reply_to 2 1 (tenant_told after_ask 1) (Cancel 1) ≡ Ended 1 }
    ensures other { reply_to 2 1 (tenant_told after_ask 1) (Cancel 2) ≡ Refused 17 }
{}
