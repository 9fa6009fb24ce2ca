//! Uses of the laws on a site's file: what an accepted directory gives to each guest and to the second customer, and
//! how many lines pass at any rate.
ghost use Rattle.std.specs.Prelude.{◌≡◌, ◌+◌, ◌*◌, ◌<◌, ◌≤◌, ℕ, List, ◌∷◌, None, true};
ghost use Rattle.site_file.specs.declared.directory.Terms.{Terms};
ghost use Rattle.site_file.specs.declared.keys.Keys.{Keys};
ghost use Rattle.site_file.specs.declared.rate.Rate.{Rate};
ghost use Rattle.site_file.specs.Checks.{fault_of, has_key, is_fit_rate, repeated_network, repeated_token};
ghost use Rattle.site_file.specs.Rates.{AreWithin, passed};

use site_file::{accepted_directories_are_fit, no_more_than_the_rate};

/// In a directory without a fault a guest may say a line, and so may the second customer, who has a key; and no token and no network
/// stands twice. Uses `site_file::accepted_directories_are_fit` (`guests`, `named`, `keyed`, `unshared`).
pub fn what_is_accepted()
    ensures guest { (customers : List Terms) (guest : Terms) (keys : Keys) → fault_of customers guest keys ≡ None → 0 < guest.rate.burst }
    ensures second { (one two : Terms) (others : List Terms) (guest : Terms) (keys : Keys) → fault_of (one ∷ two ∷ others) guest keys ≡ None → is_fit_rate two.rate ≡ true }
    ensures keyed { (one two : Terms) (others : List Terms) (guest : Terms) (keys : Keys) → fault_of (one ∷ two ∷ others) guest keys ≡ None → has_key 1 keys ≡ true }
    ensures tokens { (customers : List Terms) (guest : Terms) (keys : Keys) → fault_of customers guest keys ≡ None → repeated_token keys.tokens.items ≡ None }
    ensures networks { (customers : List Terms) (guest : Terms) (keys : Keys) → fault_of customers guest keys ≡ None → repeated_network keys.networks.items ≡ None }
{
    accepted_directories_are_fit()
}

/// At one moment no more lines pass than may come at once, and in so many periods as many more. Uses `site_file::no_more_than_the_rate`.
pub fn lines_at_a_rate()
    ensures at_once { (rate : Rate) (paid now : ℕ) (times : List ℕ) → 0 < rate.period → AreWithin now now times → passed rate paid times ≤ rate.burst }
    ensures in_periods { (rate : Rate) (paid from many : ℕ) (times : List ℕ) → 0 < rate.period → AreWithin from (from + many * rate.period) times →
        passed rate paid times ≤ many + rate.burst }
{
    no_more_than_the_rate()
}
