//! Uses of the laws on who is served next, at any place of any group: of one that was served least, of one that was
//! served at most so much more, and of one that has waited longest.
ghost use Rattle.std.specs.Prelude.{◌≡◌, ◌+◌, ◌<◌, ◌≤◌, ℕ, List, count_by, length, true};
ghost use Rattle.fair_share.specs.declared.account.ShareAccount.{ShareAccount};
ghost use Rattle.fair_share.specs.Accounts.{is_rival};
ghost use Rattle.fair_share.specs.Lines.{LineOf, IsNextAccount, account_at, charged};
ghost use Rattle.fair_share.specs.Waits.{LineEvent, Waits, IsEach, IsEachLong, IsLeast, IsLed, IsWaiting, is_ahead, is_member, is_older, picks_in, long_picks_in, tasks_in, arrivals_in};

use fair_share::laws::{
    who_is_least_is_picked_soon, who_is_ready_is_picked, who_waits_longest_is_picked,
};

/// Who was served least is the first that is picked where no other is before it. Behind two others it is picked third at the latest, and
/// where of 128 tasks one is a pick, fewer than 384 tasks are done until then. Uses `fair_share::who_is_least_is_picked_soon` (`picks`,
/// `tasks`).
pub fn when_the_least_is_picked()
    ensures first { (group place : ℕ) (line : LineOf) (account : ShareAccount) (events : List LineEvent) → IsLeast group place line account → Waits group place line events →
        count_by (is_ahead group account) line.accounts ≡ 1 → picks_in events ≤ 0 }
    ensures third { (group place : ℕ) (line : LineOf) (account : ShareAccount) (events : List LineEvent) → IsLeast group place line account → Waits group place line events →
        count_by (is_ahead group account) line.accounts ≡ 3 → picks_in events ≤ 2 }
    ensures tasks { (group place : ℕ) (line : LineOf) (account : ShareAccount) (events : List LineEvent) → IsLeast group place line account → Waits group place line events →
        IsEach 128 0 events → count_by (is_ahead group account) line.accounts ≡ 3 → tasks_in events < 384 }
{
    who_is_least_is_picked_soon()
}

/// One that was served at most 5 more than the others, of whom two are there or come, is picked again after at most 12
/// picks. Where one of 128 tasks is a pick, fewer than 1664 tasks are done until then. One that is alone is the next
/// that is picked. After a pick it is ahead by at most what that task cost. Uses `fair_share::who_is_ready_is_picked`
/// (`picks`, `tasks`, `lead`).
pub fn when_it_is_picked_again()
    ensures alone { (group place lead : ℕ) (line : LineOf) (account : ShareAccount) (events : List LineEvent) → IsLed group place lead line account → Waits group place line events →
        count_by (is_member group) line.accounts + arrivals_in group events ≡ 1 → picks_in events ≤ 0 }
    ensures again { (group place : ℕ) (line : LineOf) (account : ShareAccount) (events : List LineEvent) → IsLed group place 5 line account → Waits group place line events →
        count_by (is_member group) line.accounts + arrivals_in group events ≡ 3 → picks_in events ≤ 12 }
    ensures tasks { (group place : ℕ) (line : LineOf) (account : ShareAccount) (events : List LineEvent) → IsLed group place 5 line account → Waits group place line events →
        count_by (is_member group) line.accounts + arrivals_in group events ≡ 3 → IsEach 128 0 events → tasks_in events < 1664 }
    ensures lead { (group place amount other : ℕ) (line : LineOf) → IsNextAccount group line.accounts place → is_rival group (account_at line.accounts other) ≡ true →
        (account_at (charged place amount line).accounts place).served ≤ (account_at (charged place amount line).accounts other).served + amount }
{
    who_is_ready_is_picked()
}

/// One that has waited longer than all others is the first that is picked for that; behind one other it is the second
/// at the latest. Among 64 places it is picked before there are 64 such picks. Where one of 512 tasks is such a pick,
/// fewer than 32,768 tasks are done until then. Uses `fair_share::who_waits_longest_is_picked` (`picks`, `places`,
/// `tasks`).
pub fn when_it_has_waited_longest()
    ensures first { (group place : ℕ) (line : LineOf) (account : ShareAccount) (events : List LineEvent) → IsWaiting place line account → Waits group place line events →
        count_by (is_older account) line.accounts ≡ 1 → long_picks_in events ≤ 0 }
    ensures second { (group place : ℕ) (line : LineOf) (account : ShareAccount) (events : List LineEvent) → IsWaiting place line account → Waits group place line events →
        count_by (is_older account) line.accounts ≡ 2 → long_picks_in events ≤ 1 }
    ensures places { (group place : ℕ) (line : LineOf) (account : ShareAccount) (events : List LineEvent) → IsWaiting place line account → Waits group place line events →
        length line.accounts ≡ 64 → long_picks_in events ≤ 63 }
    ensures tasks { (group place : ℕ) (line : LineOf) (account : ShareAccount) (events : List LineEvent) → IsWaiting place line account → Waits group place line events →
        length line.accounts ≡ 64 → IsEachLong 512 0 events → tasks_in events < 32768 }
{
    who_waits_longest_is_picked()
}
