//! The definitions of a site's sessions, tried on worked lines: each contract is computed from the definitions alone.
//! HELLO and RESERVE have segments and nodes; `true` says that the session's tenant is there.
ghost use Rattle.std.specs.Prelude.{◌≡◌, [], ◌∷◌, ◌++◌, codes, true, false, Some, None};
ghost use Rattle.line_io.specs.Lines.{Whole, TooLong};
ghost use Rattle.protocol.specs.declared.faults.ProtocolFault.TheVariants.{NoCommand, LongLine, NoNumber, NoHello, HelloAgain};
ghost use Rattle.session.specs.Calls.{AskQuota, Get, Welcome};
ghost use Rattle.session.specs.Requests.{Fault, Makes, Ends};
ghost use Rattle.site_office.specs.Lines.{Greets, Raises, Informs, Pings, Plain, site_request};
ghost use Rattle.session.specs.Turns.{turns};
ghost use Rattle.site_office.specs.Sessions.{AreMixed};
ghost use Rattle.site_office.specs.Turns.{info_text};

/// What lines ask for before HELLO, where no tenant is there.
pub fn lines_before_hello()
    ensures hello { site_request false (Whole (codes "HELLO 4 8")) ≡ Greets None (record { segments = 4; nodes = 8 }) }
    ensures token { site_request false (Whole (codes "HELLO 4 8 abc")) ≡ Greets (Some (codes "abc")) (record { segments = 4; nodes = 8 }) }
    ensures empty_token { site_request false (Whole (codes "HELLO 4 8 ")) ≡ Plain (Fault NoCommand) }
    ensures control { site_request false (Whole (codes "HELLO 4 8 ab" ++ 1 ∷ [])) ≡ Plain (Fault NoCommand) }
    ensures tab { site_request false (Whole (codes "HELLO 4 8 " ++ 9 ∷ codes "ab")) ≡ Plain (Fault NoCommand) }
    ensures delete { site_request false (Whole (codes "HELLO 4 8 " ++ 127 ∷ [])) ≡ Plain (Fault NoCommand) }
    ensures high { site_request false (Whole (codes "HELLO 4 8 " ++ 128 ∷ 255 ∷ [])) ≡ Greets (Some (128 ∷ 255 ∷ [])) (record { segments = 4; nodes = 8 }) }
    ensures two_tokens { site_request false (Whole (codes "HELLO 4 8 a b")) ≡ Plain (Fault NoCommand) }
    ensures no_number { site_request false (Whole (codes "HELLO 4 x abc")) ≡ Plain (Fault NoNumber) }
    ensures none_reserved { site_request false (Whole (codes "HELLO 0 8 abc")) ≡ Plain (Fault NoNumber) }
    ensures info { site_request false (Whole (codes "INFO")) ≡ Plain (Fault NoHello) }
    ensures ping { site_request false (Whole (codes "PING")) ≡ Pings }
    ensures ping_now { site_request false (Whole (codes "PING now")) ≡ Plain (Fault NoCommand) }
    ensures ping_in_small { site_request false (Whole (codes "ping")) ≡ Plain (Fault NoCommand) }
    ensures reserve { site_request false (Whole (codes "RESERVE 8 16")) ≡ Plain (Fault NoHello) }
    ensures bye { site_request false (Whole (codes "BYE")) ≡ Plain Ends }
    ensures long { site_request false TooLong ≡ Plain (Fault LongLine) }
{}

/// What lines ask for where the session's tenant is there.
pub fn lines_of_a_tenant()
    ensures reserve { site_request true (Whole (codes "RESERVE 8 16")) ≡ Raises (record { segments = 8; nodes = 16 }) }
    ensures too_much { site_request true (Whole (codes "RESERVE 4097 16")) ≡ Plain (Fault NoNumber) }
    ensures with_return { site_request true (Whole (codes "RESERVE 8 16" ++ 13 ∷ [])) ≡ Plain (Fault NoNumber) }
    ensures hello { site_request true (Whole (codes "HELLO 8 16")) ≡ Plain (Fault HelloAgain) }
    ensures hello_by_token { site_request true (Whole (codes "HELLO 8 16 abc")) ≡ Plain (Fault HelloAgain) }
    ensures info { site_request true (Whole (codes "INFO")) ≡ Informs }
    ensures info_now { site_request true (Whole (codes "INFO now")) ≡ Plain (Fault NoCommand) }
    ensures ping { site_request true (Whole (codes "PING")) ≡ Pings }
    ensures ping_with_return { site_request true (Whole (codes "PING" ++ 13 ∷ [])) ≡ Plain (Fault NoCommand) }
    ensures quota { site_request true (Whole (codes "QUOTA")) ≡ Plain (Makes AskQuota) }
    ensures get { site_request true (Whole (codes "GET 7")) ≡ Plain (Makes (Get 7)) }
{}

/// The answer to INFO, byte by byte, for one budget.
pub fn what_info_says()
    ensures { info_text (record { grain = 4; may_segments = 16384; may_nodes = 1048576; has_segments = 4; has_nodes = 8 }) ≡ codes "INFO 4 16384 1048576 4 8 1.0.0" }
{}

/// PING is answered beside the session, and a HELLO less its token is the first line of its own. QUOTA, where a tenant is there, isn't
/// answered beside it.
pub fn what_is_beside_a_session()
    ensures mixed { AreMixed false (Whole (codes "PING") ∷ Whole (codes "HELLO 4 8 abc") ∷ []) (codes "PONG" ∷ codes "WELCOME 4 8" ∷ []) (Whole (codes "HELLO 4 8") ∷ []) (turns false (Whole (codes "HELLO 4 8") ∷ []) (Welcome (record { segments = 4; nodes = 8 }) ∷ [])) }
    ensures quota { AreMixed true (Whole (codes "QUOTA") ∷ []) (codes "PONG" ∷ []) [] [] → ⊥ }
{}
