//! The definitions of a site's rules, tried on instances: each contract is computed from the definitions alone. Times
//! are milliseconds (of lines: microseconds).
ghost use Rattle.std.specs.Prelude.{◌≡◌, true, false, Some, None, [], ◌∷◌, ◌++◌, replicate, take, codes, Ok, Err};
ghost use Rattle.site_rules.specs.Arrivals.{arrival};
ghost use Rattle.site_rules.specs.Callers.{speaker};
ghost use Rattle.site_rules.specs.Connections.{after_arrival, after_move, home_of, may_belong, with_home, with_one_less, with_one_more};
ghost use Rattle.site_book.specs.declared.who.Who.TheVariants.{Named as NamedWho, V4 as V4Who, V6 as V6Who};
ghost use Rattle.site_rules.specs.Descriptors.{connections_within};
ghost use Rattle.site_rules.specs.Flows.{paid_with, pause};
ghost use Rattle.site_rules.specs.Halls.{hall_of_guest};
ghost use Rattle.site_rules.specs.Paces.{time_left};
ghost use Rattle.site_rules.specs.Watches.{watch_after, is_gone};
ghost use Rattle.site_rules.specs.declared.arrivals.Arrival.TheVariants.{Counted, Heard, Closed};
ghost use Rattle.site_rules.specs.declared.watches.ClientState.TheVariants.{Silent, Ended, Lost};
ghost use Rattle.site_rules.specs.Commands.{command_of, Customer, Address, Session, Stats, End, Drain, Reload, Unknown as not_known};
ghost use Rattle.site_rules.specs.Fields.{field_of};
ghost use Rattle.site_rules.specs.Headers.{signature, local_header, reading};
ghost use Rattle.site_book.specs.declared.held.Group.TheVariants.{Guests, Own};
ghost use Rattle.site_file.specs.declared.address.Address.TheVariants.{V4 as AddressV4, V6 as AddressV6};
ghost use Rattle.site_rules.specs.Sessions.{hall_with, is_same_address, many_of, names_from, session_place, three_sessions};
ghost use Rattle.site_rules.specs.Texts.{Told, Unknown, text_reading, IsReading};
ghost use Rattle.site_rules.specs.declared.faults.HeaderFault.TheVariants.{NoHeader, Version, Command, LongHeader, Family, ShortAddress, WrongText};
ghost use Rattle.site_rules.specs.declared.headers.Origin.TheVariants.{Local, V4, V6};

/// Whether a connection is taken, at each limit and one beyond it.
pub fn connections_are_taken()
    ensures counted { arrival (record { own = 3; most_own = 4; extra = 9; all = 99; most_all = 100 }) ≡ Counted }
    ensures heard { arrival (record { own = 4; most_own = 4; extra = 24; all = 99; most_all = 100 }) ≡ Heard }
    ensures too_many_heard { arrival (record { own = 4; most_own = 4; extra = 25; all = 99; most_all = 100 }) ≡ Closed }
    ensures too_many { arrival (record { own = 0; most_own = 4; extra = 0; all = 100; most_all = 100 }) ≡ Closed }
{}

/// Connections count as a customer's, as nobody's, and as another customer's once a token says so. The first customer here has two.
pub fn connections_are_counted()
    ensures one_more { with_one_more (NamedWho 3) (record { who = V4Who 9; connections = 1; home = None } ∷ record { who = NamedWho 3; connections = 2; home = Some 1 } ∷ [])
        ≡ record { who = V4Who 9; connections = 1; home = None } ∷ record { who = NamedWho 3; connections = 3; home = Some 1 } ∷ [] }
    ensures first { with_one_more (V6Who 9) (record { who = V4Who 9; connections = 1; home = None } ∷ []) ≡ record { who = V4Who 9; connections = 1; home = None } ∷ record { who = V6Who 9; connections = 1; home = None } ∷ [] }
    ensures one_less { with_one_less (NamedWho 3) (record { who = NamedWho 3; connections = 2; home = Some 1 } ∷ []) ≡ record { who = NamedWho 3; connections = 1; home = Some 1 } ∷ [] }
    ensures last { with_one_less (V4Who 9) (record { who = V4Who 9; connections = 1; home = None } ∷ record { who = NamedWho 3; connections = 2; home = Some 1 } ∷ []) ≡ record { who = NamedWho 3; connections = 2; home = Some 1 } ∷ [] }
    ensures nobodys { after_arrival (NamedWho 3) Heard (record { all = 5; extra = 1; customers = [] }) ≡ record { all = 5; extra = 2; customers = [] } }
    ensures closed { after_arrival (NamedWho 3) Closed (record { all = 5; extra = 1; customers = [] }) ≡ record { all = 5; extra = 1; customers = [] } }
    ensures moved { after_move None (NamedWho 3) (record { all = 5; extra = 1; customers = record { who = NamedWho 3; connections = 2; home = None } ∷ [] }) ≡ record { all = 5; extra = 0; customers = record { who = NamedWho 3; connections = 3; home = None } ∷ [] } }
    ensures full { may_belong None (NamedWho 3) 2 (record { all = 5; extra = 1; customers = record { who = NamedWho 3; connections = 2; home = None } ∷ [] }) ≡ false }
    ensures own { may_belong (Some (NamedWho 3)) (NamedWho 3) 2 (record { all = 5; extra = 1; customers = record { who = NamedWho 3; connections = 2; home = None } ∷ [] }) ≡ true }
    ensures here { home_of (NamedWho 3) (with_home (NamedWho 3) 2 (record { who = V4Who 9; connections = 1; home = Some 0 } ∷ record { who = NamedWho 3; connections = 2; home = Some 1 } ∷ [])) ≡ Some 2 }
{}

/// Who speaks: the connection's customer, and nobody where no file has the token.
pub fn tokens_speak()
    ensures own { speaker (V4Who 9) [] None ≡ Some (V4Who 9) }
    ensures nobody { speaker (V4Who 9) [] (Some (codes "a token that nobody has")) ≡ None }
{}

/// Descriptors at the edges.
pub fn descriptors_are_kept()
    ensures enough { connections_within 20000 8192 ≡ Some 8192 }
    ensures few { connections_within 1024 8192 ≡ Some 960 }
    ensures one { connections_within 65 8192 ≡ Some 1 }
    ensures none { connections_within 64 8192 ≡ None }
{}

/// A session's thousand lines at once, and then one each 2 milliseconds (2,000 microseconds), are answered without a
/// pause; one more waits.
pub fn lines_are_paid_for()
    ensures at_once { pause (paid_with 0 1000 5) 5 ≡ 0 }
    ensures one_more { pause (paid_with 0 1001 5) 5 ≡ 2000 }
    ensures later { pause (paid_with 2000005 1 2005) 2005 ≡ 0 }
    ensures too_soon { pause (paid_with 2000005 1 1005) 1005 ≡ 1000 }
{}

/// Guests come to the emptiest hall with room, and stay where they are.
pub fn guests_have_halls()
    ensures most { hall_of_guest (record { sessions = 3; segments = 9; nodes = 5 } ∷ record { sessions = 1; segments = 9; nodes = 7 } ∷ record { sessions = 2; segments = 9; nodes = 7 } ∷ []) None ≡ 1 }
    ensures full { hall_of_guest (record { sessions = 0; segments = 9; nodes = 50 } ∷ record { sessions = 1; segments = 0; nodes = 70 } ∷ record { sessions = 2; segments = 9; nodes = 0 } ∷ []) None ≡ 2 }
    ensures home { hall_of_guest (record { sessions = 3; segments = 9; nodes = 5 } ∷ record { sessions = 0; segments = 9; nodes = 7 } ∷ []) (Some 1) ≡ 1 }
{}

/// A connection has 10 seconds (10,000 ms) to a welcome, and an hour (3,600,000 ms) between lines.
pub fn silences()
    ensures welcome { time_left (record { welcome = 10000; idle = 3600000 }) (record { came = 5; last = 9000; welcomed = false }) 10004 ≡ Some 1 }
    ensures late { time_left (record { welcome = 10000; idle = 3600000 }) (record { came = 5; last = 9000; welcomed = false }) 10005 ≡ None }
    ensures idle { time_left (record { welcome = 10000; idle = 3600000 }) (record { came = 5; last = 9000; welcomed = true }) 10005 ≡ Some 3598995 }
    ensures long { time_left (record { welcome = 10000; idle = 3600000 }) (record { came = 5; last = 9000; welcomed = true }) 3609000 ≡ None }
{}

/// A client whose input ended at 7 ms is gone a minute later (60,007 ms), one that is lost at once, and one that speaks
/// again isn't.
pub fn clients_are_gone()
    ensures first { watch_after (record { since = None }) Ended 7 ≡ record { since = Some 7 } }
    ensures later { watch_after (record { since = Some 7 }) Ended 9 ≡ record { since = Some 7 } }
    ensures again { watch_after (record { since = Some 7 }) Silent 9 ≡ record { since = None } }
    ensures soon { is_gone (record { since = Some 7 }) Ended 60006 60000 ≡ false }
    ensures then { is_gone (record { since = Some 7 }) Ended 60007 60000 ≡ true }
    ensures lost { is_gone (record { since = Some 7 }) Lost 7 60000 ≡ true }
    ensures silent { is_gone (record { since = Some 7 }) Silent 99999 60000 ≡ false }
{}

/// Proxies' headers that are whole (after the signature 33 is version 2 with PROXY, 32 with LOCAL; 17 TCP over IPv4, 33
/// over IPv6; then two bytes of length), and how many bytes they have: the `H` (72) of a HELLO behind the first isn't
/// one of them.
pub fn headers_are_read()
    ensures over_ipv4 { reading (signature ++ 33 ∷ 17 ∷ 0 ∷ 12 ∷ 10 ∷ 0 ∷ 0 ∷ 1 ∷ 127 ∷ 0 ∷ 0 ∷ 2 ∷ 195 ∷ 80 ∷ 18 ∷ 92 ∷ 72 ∷ [])
        ≡ Ok (Some (record { origin = V4 (10 ∷ 0 ∷ 0 ∷ 1 ∷ []) 50000; fields = []; used = 28 })) }
    ensures over_ipv6 { reading (signature ++ 33 ∷ 33 ∷ 0 ∷ 40 ∷ 32 ∷ 1 ∷ replicate 13 0 ++ 7 ∷ replicate 16 9 ++ 0 ∷ 80 ∷ 0 ∷ 81 ∷ 5 ∷ 0 ∷ 1 ∷ 97 ∷ [])
        ≡ Ok (Some (record { origin = V6 (32 ∷ 1 ∷ replicate 13 0 ++ 7 ∷ []) 80; fields = 5 ∷ 0 ∷ 1 ∷ 97 ∷ []; used = 56 })) }
    ensures local { reading (signature ++ 32 ∷ 0 ∷ 0 ∷ 0 ∷ []) ≡ Ok (Some (local_header 0)) }
    ensures local_of_a_family { reading (signature ++ 32 ∷ 17 ∷ 0 ∷ 1 ∷ 0 ∷ []) ≡ Ok (Some (local_header 1)) }
    ensures unknown { reading (signature ++ 33 ∷ 0 ∷ 0 ∷ 2 ∷ 1 ∷ 1 ∷ []) ≡ Ok (Some (local_header 2)) }
{}

/// Bytes that are a beginning of a proxy's header, as 5 of the 12 of the signature, or a body with a byte too few: no
/// fault, but nothing read yet.
pub fn headers_may_come()
    ensures none { reading [] ≡ Ok None }
    ensures some { reading (take 5 signature) ≡ Ok None }
    ensures signed { reading (signature ++ 17 ∷ []) ≡ Ok None }
    ensures unfinished { reading (signature ++ 33 ∷ 17 ∷ 0 ∷ 12 ∷ replicate 11 0) ≡ Ok None }
{}

/// Bytes that are no proxy's header, and the fault of each.
pub fn faults_are_found()
    ensures hello { reading (codes "HELLO 64 4096") ≡ Err NoHeader }
    ensures one_letter { reading (codes "B") ≡ Err NoHeader }
    ensures another_byte { reading (take 11 signature ++ 11 ∷ []) ≡ Err NoHeader }
    ensures version_1 { reading (signature ++ 17 ∷ 17 ∷ 0 ∷ 12 ∷ []) ≡ Err Version }
    ensures command_2 { reading (signature ++ 34 ∷ 17 ∷ 0 ∷ 12 ∷ []) ≡ Err Command }
    ensures long { reading (signature ++ 33 ∷ 17 ∷ 15 ∷ 241 ∷ []) ≡ Err LongHeader }
    ensures udp { reading (signature ++ 33 ∷ 18 ∷ 0 ∷ 0 ∷ []) ≡ Err Family }
    ensures short { reading (signature ++ 33 ∷ 17 ∷ 0 ∷ 11 ∷ replicate 11 0) ≡ Err ShortAddress }
    ensures short_of_ipv6 { reading (signature ++ 33 ∷ 33 ∷ 0 ∷ 35 ∷ replicate 35 0) ≡ Err ShortAddress }
{}

/// A field of a proxy's header is found behind others, and not where its value is cut short.
pub fn fields_are_found()
    ensures second { field_of 5 (4 ∷ 0 ∷ 0 ∷ 5 ∷ 0 ∷ 2 ∷ 97 ∷ 98 ∷ []) ≡ Some (97 ∷ 98 ∷ []) }
    ensures empty { field_of 4 (4 ∷ 0 ∷ 0 ∷ 5 ∷ 0 ∷ 2 ∷ 97 ∷ 98 ∷ []) ≡ Some [] }
    ensures none { field_of 6 (4 ∷ 0 ∷ 0 ∷ 5 ∷ 0 ∷ 2 ∷ 97 ∷ 98 ∷ []) ≡ None }
    ensures cut_short { field_of 5 (5 ∷ 0 ∷ 3 ∷ 97 ∷ 98 ∷ []) ≡ None }
    ensures no_size { field_of 5 (5 ∷ 0 ∷ []) ≡ None }
{}

/// Which of three sessions are meant by hall and number, and which are a customer's, a part's and an address's.
pub fn sessions_are_found()
    ensures second { session_place 1 7 0 three_sessions ≡ Some 1 }
    ensures nowhere { session_place 0 8 0 three_sessions ≡ None }
    ensures hall { hall_with (V4Who 8) three_sessions ≡ Some 1 }
    ensures no_hall { hall_with (V4Who 7) three_sessions ≡ None }
    ensures guests { many_of Guests three_sessions ≡ 2 }
    ensures own { many_of (Own (NamedWho 3)) three_sessions ≡ 1 }
    ensures address { names_from (AddressV4 9) three_sessions ≡ (0, 7) ∷ (1, 7) ∷ [] }
    ensures other_half { is_same_address (AddressV6 1 2) (AddressV6 1 3) ≡ false }
{}

/// What is read of proxies' headers of version 1, which are lines of text.
pub fn texts_are_read()
    ensures over_ipv4 { text_reading (codes "PROXY TCP4 10.0.0.1 127.0.0.2 50000 4700" ++ 13 ∷ 10 ∷ 72 ∷ []) ≡ Told true (codes "10.0.0.1") (codes "127.0.0.2") 50000 42 }
    ensures over_ipv6 { text_reading (codes "PROXY TCP6 ::1 ::1 1 2" ++ 13 ∷ 10 ∷ []) ≡ Told false (codes "::1") (codes "::1") 1 24 }
    ensures unknown { IsReading (codes "PROXY UNKNOWN" ++ 13 ∷ 10 ∷ []) (Ok (Some (record { origin = Local; fields = []; used = 15 }))) }
    ensures unknown_address { text_reading (codes "PROXY UNKNOWN x y" ++ 13 ∷ 10 ∷ []) ≡ Unknown 19 }
    ensures some { IsReading (codes "PRO") (Ok None) }
    ensures no_end { IsReading (codes "PROXY TCP4 10.0.0.1") (Ok None) }
    ensures ping { IsReading (codes "PING") (Err NoHeader) }
    ensures no_return { IsReading (codes "PROXY UNKNOWN" ++ 10 ∷ []) (Err WrongText) }
    ensures one_port { IsReading (codes "PROXY TCP4 10.0.0.1 127.0.0.2 50000" ++ 13 ∷ 10 ∷ []) (Err WrongText) }
    ensures greater_port { IsReading (codes "PROXY TCP4 10.0.0.1 127.0.0.2 65536 1" ++ 13 ∷ 10 ∷ []) (Err WrongText) }
    ensures long { IsReading (codes "PROXY " ++ replicate 101 65) (Err WrongText) }
    ensures version_2 { IsReading (take 5 signature) (Ok None) }
{}

/// What each line of the operator asks: STATS, END, DRAIN and RELOAD, and lines that ask nothing.
pub fn commands_are_read()
    ensures stats { command_of (codes "STATS") ≡ Stats }
    ensures customer { command_of (codes "END CUSTOMER school") ≡ End (Customer (codes "school")) }
    ensures address { command_of (codes "END ADDRESS 10.0.0.1") ≡ End (Address (codes "10.0.0.1")) }
    ensures session { command_of (codes "END SESSION 2 7") ≡ End (Session 2 7) }
    ensures no_session { command_of (codes "END SESSION 2") ≡ not_known }
    ensures drain { command_of (codes "DRAIN 30") ≡ Drain 30000 }
    ensures reload { command_of (codes "RELOAD") ≡ Reload false }
    ensures reload_and_end { command_of (codes "RELOAD END") ≡ Reload true }
    ensures lower_case { command_of (codes "stats") ≡ not_known }
{}
