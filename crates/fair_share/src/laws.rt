//! Laws on those who share a pool of workers: how long one that is active waits for its next task. They hold for any line
//! of accounts, and for any tasks of which at least each k-th is picked, while the others are anybody's. One that has just
//! become active, and was served no more than the others, waits for k tasks for each active one that doesn't come after it,
//! whatever tasks cost and whoever comes meanwhile. One that is active all along waits for k tasks for each unit that it was
//! served more than the least active, times the others that are there or come. Where each k-th task is one of who has waited
//! longest, an active one waits for k tasks for each that has waited as long, whatever it was served and whoever comes.
ghost use Rattle.std.specs.Prelude.{◌≡◌, ◌≢◌, ℕ, ◌+◌, ◌*◌, ◌<◌, ◌≤◌, List, count_by, length, true};
ghost use Rattle.fair_share.specs.declared.account.ShareAccount.{ShareAccount};
ghost use Rattle.fair_share.specs.Accounts.{is_active, is_rival};
ghost use Rattle.fair_share.specs.Lines.{LineOf, IsNextAccount, account_at, charged};
ghost use Rattle.fair_share.specs.Waits.{LineEvent, Waits, IsEach, IsEachLong, IsLeast, IsLed, IsWaiting, is_ahead, is_member, is_older, picks_in, long_picks_in, tasks_in, arrivals_in};

/// An active account that was served no more than any active one of its group, as one that has just become active and
/// wasn't served more before, is picked before anybody who comes later. Let it get no task otherwise. Until it is
/// picked there are fewer picks than active accounts that it doesn't come before, itself counted (`picks`). Where at
/// least one of `many` tasks in a row is a pick, the tasks until then are fewer than `many` times that number of
/// accounts (`tasks`).
pub fn who_is_least_is_picked_soon()
    ensures picks { (group place : ℕ) (line : LineOf) (account : ShareAccount) (events : List LineEvent) → IsLeast group place line account → Waits group place line events →
        picks_in events < count_by (is_ahead group account) line.accounts }
    ensures tasks { (group place many : ℕ) (line : LineOf) (account : ShareAccount) (events : List LineEvent) → IsLeast group place line account → Waits group place line events →
        0 < many → IsEach many 0 events → tasks_in events < many * count_by (is_ahead group account) line.accounts }
{}

/// An account that is active all along is picked again and again. Its lead is how much more it was served, at most,
/// than any active account of its group. Let it get no task otherwise. Until its next pick there are at most lead + 1
/// picks for each other account of the group that is there or comes (`picks`). Where at least one of `many` tasks in a
/// row is a pick, the tasks until then are fewer than `many` times one more than these picks (`tasks`).
///
/// After a pick its lead is at most what that task cost (`lead`). So where each task costs at most so much, how long it
/// waits for its next pick depends on that cost, the others and `many` alone.
pub fn who_is_ready_is_picked()
    ensures picks { (group place lead others : ℕ) (line : LineOf) (account : ShareAccount) (events : List LineEvent) → IsLed group place lead line account → Waits group place line events →
        count_by (is_member group) line.accounts + arrivals_in group events ≡ others + 1 → picks_in events ≤ (lead + 1) * others }
    ensures tasks { (group place lead others many : ℕ) (line : LineOf) (account : ShareAccount) (events : List LineEvent) → IsLed group place lead line account → Waits group place line events →
        count_by (is_member group) line.accounts + arrivals_in group events ≡ others + 1 → 0 < many → IsEach many 0 events → tasks_in events < many * ((lead + 1) * others + 1) }
    ensures lead { (group place amount most : ℕ) (line : LineOf) → IsNextAccount group line.accounts place → amount ≤ most → (other : ℕ) → is_rival group (account_at line.accounts other) ≡ true →
        (account_at (charged place amount line).accounts place).served ≤ (account_at (charged place amount line).accounts other).served + most }
{}

/// An account that is active all along is picked as the one that has waited longest before anybody who comes, becomes
/// active or is served later, in whatever group. Let it get no task otherwise. Until it is picked there are fewer such
/// picks than active accounts that have waited as long, itself counted (`picks`), and so fewer than places in the line
/// (`places`). Where at least one of `many` tasks in a row is such a pick, the tasks until then are fewer than `many`
/// times the places (`tasks`).
pub fn who_waits_longest_is_picked()
    ensures picks { (group place : ℕ) (line : LineOf) (account : ShareAccount) (events : List LineEvent) → IsWaiting place line account → Waits group place line events →
        long_picks_in events < count_by (is_older account) line.accounts }
    ensures places { (group place : ℕ) (line : LineOf) (account : ShareAccount) (events : List LineEvent) → IsWaiting place line account → Waits group place line events →
        long_picks_in events < length line.accounts }
    ensures tasks { (group place many : ℕ) (line : LineOf) (account : ShareAccount) (events : List LineEvent) → IsWaiting place line account → Waits group place line events →
        0 < many → IsEachLong many 0 events → tasks_in events < many * length line.accounts }
{}
