//! Laws on a site's file: of the directories that are accepted, and of all lines of a customer. A function here does
//! nothing: its contract is the law.
ghost use Rattle.std.specs.Prelude.{◌≡◌, List, None, true, ℕ, ◌+◌, ◌*◌, ◌≤◌};
ghost use Rattle.site_file.specs.declared.directory.Terms.{Terms};
ghost use Rattle.site_file.specs.declared.keys.Keys.{Keys};
ghost use Rattle.site_file.specs.Checks.{are_fit_terms, fault_of, first_keyless, is_fit_rate, shared_key};
ghost use Rattle.site_file.specs.declared.rate.Rate.{Rate};
ghost use Rattle.site_file.specs.Rates.{AreWithin, passed};

/// A directory without a fault is fit in each part: the rates of each guest and of each customer are above 0, each customer has a key,
/// and no key stands twice.
pub fn accepted_directories_are_fit()
    ensures guests { (customers : List Terms) (guest : Terms) (keys : Keys) → fault_of customers guest keys ≡ None → is_fit_rate guest.rate ≡ true }
    ensures named { (customers : List Terms) (guest : Terms) (keys : Keys) → fault_of customers guest keys ≡ None → are_fit_terms customers ≡ true }
    ensures keyed { (customers : List Terms) (guest : Terms) (keys : Keys) → fault_of customers guest keys ≡ None → first_keyless customers 0 keys ≡ None }
    ensures unshared { (customers : List Terms) (guest : Terms) (keys : Keys) → fault_of customers guest keys ≡ None → shared_key keys ≡ None }
{}

/// In any time no more lines pass than one each period and as many as may come at once, whatever was said before, however many come,
/// and even if the clock goes back meanwhile.
pub fn no_more_than_the_rate()
    ensures { (rate : Rate) (paid from to : ℕ) (times : List ℕ) → from ≤ to → AreWithin from to times →
        from + passed rate paid times * rate.period ≤ to + rate.period * rate.burst }
{}
