//! Worked examples of picks and shares of a pool, computed from the definitions alone. An `account` stands with its
//! name, its group, how much it was served, and the turn since when it waits (0: not active).
ghost use Rattle.std.specs.Prelude.{◌≡◌, true, false, ℕ, [], ◌∷◌, Some, None, map};
ghost use Rattle.fair_share.specs.Accounts.{is_before, capped_sum};
ghost use Rattle.fair_share.specs.Lines.{account_at, least_served, floor_of, has_rival, woken, rested_at, charged};
ghost use Rattle.fair_share.specs.Waits.{is_ahead, is_older, Comes, Wakes, Rests, Serves, Picks, Longs, picks_in, long_picks_in, tasks_in};
ghost use Rattle.fair_share.specs.Shares.{new_shares, pick_counted, tenant_entered, entered_place, customer_at, network_at, tenant_seen, left_all};
ghost use Rattle.fair_share.specs.Rows.{account, four, three, served};

/// Two were served as much: the one that has waited for longer comes before the other. One that was served less comes before
/// both.
pub fn who_comes_before_whom()
    ensures longer { is_before (account 2 0 50 2) (account 1 0 50 3) ≡ true }
    ensures shorter { is_before (account 1 0 50 3) (account 2 0 50 2) ≡ false }
    ensures less { is_before (account 3 0 49 9) (account 2 0 50 2) ≡ true }
    ensures itself { is_before (account 1 0 50 3) (account 1 0 50 3) ≡ false }
{}

/// Whoever becomes active starts where the least served active one of its group is, and not below its own count; its turn is the
/// line's. Who is active already stays.
pub fn where_one_starts()
    ensures floor { floor_of 0 four.accounts ≡ 50 }
    ensures nobody { least_served 2 four.accounts ≡ None }
    ensures starts { account_at (woken 2 four).accounts 2 ≡ account 3 0 50 4 }
    ensures next_turn { (woken 2 four).turn ≡ 5 }
    ensures stays { woken 0 four ≡ four }
    ensures greater { account_at (woken 2 (charged 2 70 four)).accounts 2 ≡ account 3 0 80 5 }
    ensures alone { account_at (woken 3 (rested_at 3 four)).accounts 3 ≡ account 4 1 0 4 }
{}

/// How much somebody was served is counted up to 2^64 - 1, and stays there.
pub fn a_count_stays_at_the_greatest()
    ensures below { capped_sum 18446744073709551610 5 ≡ 18446744073709551615 }
    ensures at { capped_sum 18446744073709551610 6 ≡ 18446744073709551615 }
{}

/// Of tenants 7 and 8 in network 500 and 9 in network 700: the first two share a place of a network and of a customer,
/// the third has others.
pub fn places()
    ensures tenants { entered_place 9 1 700 (tenant_entered 8 0 500 (tenant_entered 7 0 500 (new_shares 2))) ≡ Some 2 }
    ensures network { network_at three 1 ≡ 0 }
    ensures customer { customer_at three 1 ≡ 0 }
    ensures other_network { network_at three 2 ≡ 1 }
    ensures other_customer { customer_at three 2 ≡ 1 }
{}

/// What a tenant was served, here 100, counts for its network and its customer too, and not for its neighbour.
pub fn what_is_charged()
    ensures customers { ((account_at served.customers.accounts 0).served ≡ 100) × ((account_at served.customers.accounts 1).served ≡ 30) }
    ensures networks { ((account_at served.networks.accounts 0).served ≡ 100) × ((account_at served.networks.accounts 1).served ≡ 30) }
    ensures tenants { ((account_at served.tenants.accounts 0).served ≡ 100) × ((account_at served.tenants.accounts 1).served ≡ 0) × ((account_at served.tenants.accounts 2).served ≡ 30) }
{}

/// A customer is active while one of its tenants is, and its count is kept when the last has left; then it begins there again, a
/// network anew.
pub fn a_count_outlives_its_tenants()
    ensures one_rests { has_rival 0 (tenant_seen 0 false served).networks.accounts ≡ true }
    ensures both_rest { has_rival 0 (tenant_seen 1 false (tenant_seen 0 false served)).networks.accounts ≡ false }
    ensures one_left { (left_all 0 served).kept ≡ 0 ∷ 0 ∷ [] }
    ensures both_left { (left_all 1 (left_all 0 served)).kept ≡ 100 ∷ 0 ∷ [] }
    ensures again { account_at (tenant_entered 12 0 500 (left_all 1 (left_all 0 served))).customers.accounts 0 ≡ account 1 0 100 0 }
    ensures anew { account_at (tenant_entered 12 0 500 (left_all 1 (left_all 0 served))).networks.accounts 0 ≡ account 501 0 0 0 }
{}

/// Of a line of four accounts those that don't come after the first in its group: itself, and the one that has been
/// active for longer.
pub fn who_is_ahead()
    ensures { map (is_ahead 0 (account 1 0 50 3)) four.accounts ≡ true ∷ true ∷ false ∷ false ∷ [] }
{}

/// How many events of a list are picks, and how many are tasks: picks are tasks too.
pub fn tasks_and_picks()
    ensures picks { picks_in (Wakes 1 ∷ Serves 0 5 ∷ Picks 1 7 ∷ Rests 1 ∷ Picks 0 1 ∷ []) ≡ 2 }
    ensures tasks { tasks_in (Wakes 1 ∷ Serves 0 5 ∷ Picks 1 7 ∷ Rests 1 ∷ Picks 0 1 ∷ []) ≡ 3 }
{}

/// Of the four the first has waited since the third turn: itself, and those that wait since the second and the first, have waited as long. Once
/// it is served it waits since then; one that isn't active waits for nothing.
pub fn who_has_waited_as_long()
    ensures older { map (is_older (account 1 0 50 3)) four.accounts ≡ true ∷ true ∷ false ∷ true ∷ [] }
    ensures served { account_at (charged 0 7 four).accounts 0 ≡ account 1 0 57 4 }
    ensures turn { (charged 0 7 four).turn ≡ 5 }
    ensures rests { account_at (charged 2 7 four).accounts 2 ≡ account 3 0 17 0 }
{}

/// Each fourth pick is of who has waited longest, the first after three others; it is a task too, and no pick of who was served least.
pub fn each_fourth_pick()
    ensures first { (pick_counted (new_shares 2)).picks ≡ 1 }
    ensures fourth { (pick_counted (pick_counted (pick_counted (pick_counted (new_shares 2))))).picks ≡ 0 }
    ensures longs { long_picks_in (Picks 1 7 ∷ Longs 0 1 ∷ Serves 0 5 ∷ Longs 3 2 ∷ []) ≡ 2 }
    ensures picks { picks_in (Picks 1 7 ∷ Longs 0 1 ∷ Serves 0 5 ∷ Longs 3 2 ∷ []) ≡ 1 }
    ensures tasks { tasks_in (Picks 1 7 ∷ Longs 0 1 ∷ Serves 0 5 ∷ Longs 3 2 ∷ []) ≡ 4 }
{}
