//! Worked examples of tenants' journals in the hall, computed from the definitions alone. A seat's step stands
//! with its tenant first, a worker's with the worker and the frame; an entry of a journal with the worker and the frame's
//! serial, or the serial alone.
ghost use Rattle.std.specs.Prelude.{◌≡◌, [], ◌∷◌};
ghost use Rattle.tenant_quota.specs.Reserves.{ReserveOf};
ghost use Rattle.sched_rules.specs.declared.job.Job.TheVariants.{Live, Done, Spent};
ghost use Rattle.sched_rules.specs.declared.step.StepOf.TheVariants.{Admit, AdmitMore, Take, Advance, Spend, Cancel, Leave};
ghost use Rattle.jamboree_core.specs.jamboree_rules.declared.leaf.LeafAnswer.{LeafAnswer};
ghost use Rattle.hall.specs.declared.entry.JournalEntry.TheVariants.{Taken, Advanced, Spent as SpentEntry, Long};
ghost use Rattle.hall.specs.declared.entry.LongEntry.TheVariants.{Admitted, Raised, Cancelled};
ghost use Rattle.hall.specs.Entries.{steps_in, long_count};
ghost use Rattle.hall.specs.Journals.{journals_after, gone_by, total_length, admitted_journal, journal_in, longs_in, places_in, reserved_in};
ghost use Rattle.hall.specs.Uses.{uses};

/// Tenants 1 and 2 are admitted, and tenant 1 cancels job 3 and leaves. With 8 nodes a journal has 898 places, and 521
/// for long entries, which are a list of their own.
pub fn journals_of_two_tenants()
    ensures begun { (quota : ReserveOf) → journals_after (Admit 2 quota) (admitted_journal 1 quota ∷ []) ≡ admitted_journal 1 quota ∷ admitted_journal 2 quota ∷ [] }
    ensures places { (admitted_journal 1 (record { segments = 4; nodes = 8 })).places ≡ 898 }
    ensures longs { (admitted_journal 1 (record { segments = 4; nodes = 8 })).longs ≡ 521 }
    ensures written { (quota : ReserveOf) → journal_in (journals_after (Cancel 1 3) (admitted_journal 1 quota ∷ admitted_journal 2 quota ∷ [])) 1 ≡ Admit 1 quota ∷ Cancel 1 3 ∷ [] }
    ensures other { (quota : ReserveOf) → journal_in (journals_after (Cancel 1 3) (admitted_journal 1 quota ∷ admitted_journal 2 quota ∷ [])) 2 ≡ Admit 2 quota ∷ [] }
    ensures ended { (quota : ReserveOf) → journals_after (Leave 1) (journals_after (Cancel 1 3) (admitted_journal 1 quota ∷ admitted_journal 2 quota ∷ [])) ≡ admitted_journal 2 quota ∷ [] }
    ensures gone { (quota : ReserveOf) → gone_by (Leave 1) (journals_after (Cancel 1 3) (admitted_journal 1 quota ∷ admitted_journal 2 quota ∷ [])) ≡ 3 }
    ensures length { (quota : ReserveOf) → total_length (journals_after (Cancel 1 3) (admitted_journal 1 quota ∷ admitted_journal 2 quota ∷ [])) ≡ 3 }
{}

/// An admission, a Take, a Cancel and an Advance of tenant 7: two long entries, each where its place is
/// in the journal. Where a long entry is missing, so is its step.
pub fn entries_of_a_journal()
    ensures in_order { (quota : ReserveOf) → steps_in 7 (Long ∷ Taken 1 3 ∷ Long ∷ Advanced 2 4 ∷ []) (Admitted quota ∷ Cancelled 5 ∷ [])
        ≡ Admit 7 quota ∷ Take 1 (record { tenant = 7; serial = 3 }) ∷ Cancel 7 5 ∷ Advance 2 (record { tenant = 7; serial = 4 }) ∷ [] }
    ensures count { long_count (Long ∷ Taken 1 3 ∷ Long ∷ Advanced 2 4 ∷ []) ≡ 2 }
    ensures wanting { steps_in 7 (Long ∷ SpentEntry 6 ∷ []) [] ≡ Spend (record { tenant = 7; serial = 6 }) ∷ [] }
{}

/// A tenant of 8 nodes raises them to 10, and then its segments alone: each raise makes a place of its own
/// beside those of the nodes.
pub fn a_raise_makes_places()
    ensures nodes { places_in (journals_after (AdmitMore 1 (record { segments = 4; nodes = 10 })) (admitted_journal 1 (record { segments = 4; nodes = 8 }) ∷ [])) 1 ≡ 931 }
    ensures longs { longs_in (journals_after (AdmitMore 1 (record { segments = 4; nodes = 10 })) (admitted_journal 1 (record { segments = 4; nodes = 8 }) ∷ [])) 1 ≡ 524 }
    ensures segments { places_in (journals_after (AdmitMore 1 (record { segments = 5; nodes = 10 })) (journals_after (AdmitMore 1 (record { segments = 4; nodes = 10 })) (admitted_journal 1 (record { segments = 4; nodes = 8 }) ∷ []))) 1 ≡ 932 }
    ensures newest { (first second : ReserveOf) → reserved_in {A = LeafAnswer} (Admit 1 first ∷ AdmitMore 1 second ∷ Cancel 1 3 ∷ []) ≡ second }
    ensures kept { (quota : ReserveOf) → steps_in 7 (Long ∷ []) (Raised quota ∷ []) ≡ AdmitMore 7 quota ∷ [] }
{}

/// A tenant with five counted steps and three jobs, of which two have ended, has used 11: its admission, the five
/// steps, three Submits, and a Spend or a Cancel for each of the two.
pub fn what_is_used()
    ensures { uses (record { reserve = record { segments = 4; nodes = 8 }; serials = 3; steps = 5; jobs = Done [] ∷ Spent ∷ Live 3 ∷ []; frames = [] }) ≡ 11 }
{}
