//! The definitions of a site's file, tried on instances: each contract is computed from the definitions alone.
//! 3405803776 is 203.0.113.0, and 2306139568115548161 the first half of 2001:db8:0:1::; beside a network stands how
//! many bits it fixes.
ghost use Rattle.std.specs.Prelude.{◌≡◌, Some, None, [], ◌∷◌, true, false, pos, negsuc};
ghost use Rattle.site_book.specs.declared.who.Who.TheVariants.{Named, V4 as v4_guest, V6 as v6_guest};
ghost use Rattle.site_file.specs.declared.address.Address.TheVariants.{V4, V6};
ghost use Rattle.site_file.specs.declared.address.Network.TheVariants.{V4 as v4_network, V6 as v6_network};
ghost use Rattle.site_file.specs.Addresses.{v6_of, guest_of, has, is_same_network};
ghost use Rattle.site_book.specs.Amounts.{nothing};
ghost use Rattle.site_file.specs.Homes.{amount_of, budgets_at};
ghost use Rattle.site_file.specs.Keys.{by_address, by_connection};
ghost use Rattle.site_file.specs.declared.directory.Terms.{Terms};
ghost use Rattle.site_file.specs.Checks.{repeated_network, has_network, is_fit_rate};
ghost use Rattle.site_file.specs.Rates.{paid_after, may_pass, passed};
ghost use Rattle.site_file.specs.Counts.{count_within};

/// Addresses at the edges of networks: the first and the last within, those before and behind them without, and those
/// of the other version of IP.
pub fn networks_have_addresses()
    ensures first { has (v4_network 3405803776 24) (V4 3405803776) ≡ true }
    ensures last { has (v4_network 3405803776 24) (V4 3405804031) ≡ true }
    ensures before { has (v4_network 3405803776 24) (V4 3405803775) ≡ false }
    ensures behind { has (v4_network 3405803776 24) (V4 3405804032) ≡ false }
    ensures one { has (v4_network 3405803776 32) (V4 3405803777) ≡ false }
    ensures all { has (v4_network 0 0) (V4 4294967295) ≡ true }
    ensures other_version { has (v6_network 0 0 0) (V4 3405803776) ≡ false }
    ensures half { has (v6_network 2306139568115548161 0 64) (V6 2306139568115548161 18446744073709551615) ≡ true }
    ensures other_half { has (v6_network 2306139568115548161 0 64) (V6 2306139568115548162 0) ≡ false }
    ensures more { has (v6_network 2306139568115548161 4096 116) (V6 2306139568115548161 8191) ≡ true }
    ensures past { has (v6_network 2306139568115548161 4096 116) (V6 2306139568115548161 8192) ≡ false }
    ensures front { has (v6_network 2306139568115548161 4096 116) (V6 2306139568115548160 4096) ≡ false }
    ensures every { has (v6_network 0 0 0) (V6 18446744073709551615 7) ≡ true }
    ensures mapped { v6_of 0 281474087547136 ≡ V4 3405803776 }
    ensures not_mapped { v6_of 1 281474087547136 ≡ V6 1 281474087547136 }
    ensures guest { guest_of (V6 2306139568115548161 9) ≡ v6_guest 2306139568115548161 }
    ensures same { is_same_network (v6_network 2306139568115548161 0 64) (v6_network 2306139568115548161 0 64) ≡ true }
    ensures fewer_bits { is_same_network (v6_network 2306139568115548161 0 64) (v6_network 2306139568115548161 0 63) ≡ false }
    ensures other_end { is_same_network (v6_network 2306139568115548161 0 128) (v6_network 2306139568115548161 1 128) ≡ false }
{}

/// Of the networks that have an address the one of more bits counts, wherever it stands, and a certificate before all.
pub fn customers_are_found()
    ensures closer { by_address (record { network = v4_network 3405803776 24; customer = 0 } ∷ record { network = v4_network 3405803840 26; customer = 1 } ∷ []) (V4 3405803841) ≡ Named 1 }
    ensures closer_before { by_address (record { network = v4_network 3405803840 26; customer = 1 } ∷ record { network = v4_network 3405803776 24; customer = 0 } ∷ []) (V4 3405803841) ≡ Named 1 }
    ensures wider { by_address (record { network = v4_network 3405803776 24; customer = 0 } ∷ record { network = v4_network 3405803840 26; customer = 1 } ∷ []) (V4 3405803839) ≡ Named 0 }
    ensures neither { by_address (record { network = v4_network 3405803776 24; customer = 0 } ∷ []) (V4 3405804032) ≡ v4_guest 3405804032 }
    ensures no_certificate { by_connection [] (record { network = v4_network 3405803776 24; customer = 3 } ∷ []) None (V4 3405803776) ≡ Named 3 }
{}

/// What checks of a directory find: the customer of the second of two networks that are the same, and none where they
/// differ in how many bits they fix; whether a customer has a network; and that a rate whose period or count is 0 lets
/// no line pass.
pub fn directories_are_checked()
    ensures twice { repeated_network (record { network = v4_network 3405803776 24; customer = 0 } ∷ record { network = v4_network 3405803776 25; customer = 1 } ∷ record { network = v4_network 3405803776 24; customer = 2 } ∷ []) ≡ Some 2 }
    ensures once { repeated_network (record { network = v4_network 3405803776 24; customer = 0 } ∷ record { network = v4_network 3405803776 25; customer = 1 } ∷ []) ≡ None }
    ensures own_key { has_network 1 (record { network = v4_network 3405803776 24; customer = 1 } ∷ []) ≡ true }
    ensures other_key { has_network 0 (record { network = v4_network 3405803776 24; customer = 1 } ∷ []) ≡ false }
    ensures no_rate { is_fit_rate (record { period = 0; burst = 1 }) ≡ false }
    ensures no_burst { is_fit_rate (record { period = 1; burst = 0 }) ≡ false }
{}

/// At a rate of one line each 10 microseconds and 3 at once: three pass at one time, then one each ten microseconds; a
/// silence gives back three at most.
pub fn three_at_once()
    ensures burst { passed (record { period = 10; burst = 3 }) 0 (100 ∷ 100 ∷ 100 ∷ 100 ∷ 100 ∷ []) ≡ 3 }
    ensures steady { passed (record { period = 10; burst = 3 }) 0 (100 ∷ 100 ∷ 100 ∷ 109 ∷ 110 ∷ 111 ∷ 120 ∷ []) ≡ 5 }
    ensures silence { passed (record { period = 10; burst = 3 }) 0 (100 ∷ 900 ∷ 900 ∷ 900 ∷ 900 ∷ []) ≡ 4 }
    ensures none { passed (record { period = 10; burst = 0 }) 0 (100 ∷ 900 ∷ []) ≡ 0 }
    ensures edge { may_pass (record { period = 10; burst = 1 }) 100 100 ≡ true }
    ensures before { may_pass (record { period = 10; burst = 1 }) 100 99 ≡ false }
    ensures free { paid_after (record { period = 10; burst = 1 }) 100 99 ≡ 100 }
    ensures back { paid_after (record { period = 10; burst = 2 }) 100 95 ≡ 110 }
{}

/// Of a count from 1 to 4,096: 1 is within, and 0 and 4,097 aren't. Nor is -1 within 0 to 4,096.
pub fn numbers_are_counts()
    ensures least { count_within (pos 1) 1 4096 ≡ Some 1 }
    ensures below { count_within (pos 0) 1 4096 ≡ None }
    ensures above { count_within (pos 4097) 1 4096 ≡ None }
    ensures negative { count_within (negsuc 0) 0 4096 ≡ None }
{}

/// Of two customers each has its budget at home, and nothing elsewhere; one without a budget has none.
pub fn customers_have_homes()
    ensures first { (one two : Terms) → one.hall ≡ 0 → two.hall ≡ 32 → budgets_at 0 ((amount_of 5) ∷ (amount_of 7) ∷ []) (one ∷ two ∷ []) ≡ (amount_of 5) ∷ nothing ∷ [] }
    ensures second { (one two : Terms) → one.hall ≡ 0 → two.hall ≡ 32 → budgets_at 32 ((amount_of 5) ∷ (amount_of 7) ∷ []) (one ∷ two ∷ []) ≡ nothing ∷ (amount_of 7) ∷ [] }
    ensures nobody { (one two : Terms) → one.hall ≡ 0 → two.hall ≡ 32 → budgets_at 1 ((amount_of 5) ∷ (amount_of 7) ∷ []) (one ∷ two ∷ []) ≡ nothing ∷ nothing ∷ [] }
    ensures without { (one : Terms) → one.hall ≡ 3 → budgets_at 3 [] (one ∷ []) ≡ nothing ∷ [] }
{}
