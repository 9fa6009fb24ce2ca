//! The definitions of the book of reservations, tried on one small book: each contract is computed from the definitions
//! alone. A `quota` is of segments and nodes, a `left` of segments, nodes and steps, a `rest` of tenants, segments and
//! nodes.
ghost use Rattle.std.specs.Prelude.{◌≡◌, ◌+◌, ◌≤◌, Some, None, [], ◌∷◌, true, false};
ghost use Rattle.tenant_quota.specs.Accounts.{account_of, fresh, charged_by, charged_segments, reserved_segments, reserved_nodes};
ghost use Rattle.tenant_quota.specs.Reservations.{empty_of, admitted, left_in_book, opened_of, reserve_of, unreserved_of, HasRoom, IsFull, CanRaise, IsTooMuch, IsLower, HasLeft, IsShort, IsOutOfSteps};
ghost use Rattle.tenant_quota.specs.Rows.{quota, left, rest, two_tenants, after_charge, after_tick, after_credit, after_release, after_raise};

/// Two tenants reserve all 8 segments, in either order; a third finds no room.
pub fn two_tenants_reserve()
    ensures accounts { two_tenants.accounts ≡ (1, fresh (quota 5 8)) ∷ (2, fresh (quota 3 8)) ∷ [] }
    ensures either_order { admitted (admitted (empty_of 8 32) 1 (quota 5 8)) 2 (quota 3 8) ≡ two_tenants }
    ensures reserved { reserve_of 2 two_tenants ≡ Some (quota 3 8) }
    ensures left { left_in_book 1 two_tenants ≡ Some (left 5 8 128) }
    ensures nobody { left_in_book 3 two_tenants ≡ None }
    ensures rest { unreserved_of two_tenants ≡ rest 62 0 16 }
    ensures full { IsFull two_tenants (quota 1 1) }
{}

/// Tenant 1 is charged 5 segments for a node, takes a step and gives the segments back; tenant 2 keeps what it has.
pub fn one_tenant_uses()
    ensures short { IsShort two_tenants 1 6 0 }
    ensures enough { HasLeft two_tenants 1 5 1 }
    ensures charged { left_in_book 1 after_charge ≡ Some (left 0 7 128) }
    ensures opened { opened_of 1 after_charge ≡ Some 1 }
    ensures ticked { left_in_book 1 after_tick ≡ Some (left 0 7 127) }
    ensures credited { left_in_book 1 after_credit ≡ Some (left 5 7 127) }
    ensures other { left_in_book 2 after_credit ≡ Some (left 3 8 128) }
    ensures sums { charged_segments after_charge.accounts ≡ 5 }
{}

/// When tenant 2 is released, what it had reserved is free, and a third tenant finds room.
pub fn one_tenant_leaves()
    ensures gone { left_in_book 2 after_release ≡ None }
    ensures rest { unreserved_of after_release ≡ rest 63 3 24 }
    ensures room { HasRoom after_release (quota 1 1) }
{}

/// Tenant 1 can't raise what it has reserved to 7 segments while tenant 2 has 3 of the 8, nor to fewer or
/// the same; when tenant 2 has left it can raise it to all 8, and keeps what it used.
pub fn one_tenant_raises()
    ensures too_much { IsTooMuch after_credit 1 (quota 7 8) }
    ensures fewer { IsLower after_credit 1 (quota 4 24) }
    ensures fewer_nodes { IsLower after_credit 1 (quota 8 7) }
    ensures same { IsLower after_credit 1 (quota 5 8) }
    ensures nodes { CanRaise after_credit 1 (quota 5 24) }
    ensures all { CanRaise after_release 1 (quota 8 32) }
    ensures left { left_in_book 1 after_raise ≡ Some (left 8 23 383) }
    ensures rest { unreserved_of after_raise ≡ rest 63 0 8 }
{}
