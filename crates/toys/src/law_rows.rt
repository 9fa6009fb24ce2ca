//! What the laws say a tenant's jobs were submitted with, on worked examples of a core's steps. `Submit 1 (3 ∷ []) 4`
//! is tenant 1's, of one word, 3, and a frame of 4 words.
ghost use Rattle.std.specs.Prelude.{◌≡◌, ℕ, [], ◌∷◌, Ok, Err};
ghost use Rattle.sched_rules.specs.declared.refusal.Refusal.TheVariants.{NoNodes};
ghost use Rattle.sched_rules.specs.declared.step.StepOf.TheVariants.{Submit};
ghost use Rattle.sched_rules.specs.declared.step.DidOf.TheVariants.{Submitted};
ghost use Rattle.sched_laws.specs.Fitted.{origins_of, origins_after};
ghost use Rattle.toys.specs.FanRows.{one, fan_steps};
ghost use Rattle.toys.specs.ChainRows.{chain_begins};

/// The words that a tenant's jobs were submitted with, in order: a refused Submit adds none, nor does another
/// tenant's.
pub fn words_of_submits()
    ensures fan { origins_of fan_steps ≡ (0 ∷ 0 ∷ []) ∷ [] }
    ensures chain { origins_of (chain_begins 6 3) ≡ (2 ∷ 0 ∷ []) ∷ [] }
    ensures taken { origins_after {I = ℕ} {A = ℕ} (λ number. (7 ∷ []) ∷ []) (Submit 1 (3 ∷ []) 4) (Ok (Submitted 2 (one 2))) 1 ≡ (7 ∷ []) ∷ (3 ∷ []) ∷ [] }
    ensures another { origins_after {I = ℕ} {A = ℕ} (λ number. (7 ∷ []) ∷ []) (Submit 1 (3 ∷ []) 4) (Ok (Submitted 2 (one 2))) 2 ≡ (7 ∷ []) ∷ [] }
    ensures refused { origins_after {I = ℕ} {A = ℕ} (λ number. (7 ∷ []) ∷ []) (Submit 1 (3 ∷ []) 4) (Err NoNodes) 1 ≡ (7 ∷ []) ∷ [] }
{}
