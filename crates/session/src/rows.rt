//! The definitions of requests and sessions, tried on worked lines: each contract is computed from the definitions
//! alone. LF is 10, CR is 13. The numbers of HELLO and RESERVE are segments and nodes; faults are 21 to 29, and
//! refusals 1 to 20.
#![tactic(auto, unfolding(crate::proofs::Common::digits, crate::proofs::Common::squares))]

ghost use Rattle.std.specs.Prelude.{◌≡◌, [], ◌∷◌, ◌++◌, replicate, length, codes, pos, negsuc, Some, None, true, false};
ghost use Rattle.othello_moves.specs.declared.choices.Choice.TheVariants.{Square, Pass};
ghost use Rattle.othello_eval.specs.declared.bound.BoundKind.TheVariants.{Low, High};
ghost use Rattle.othello_eval.specs.Tables.{IsTable};
ghost use Rattle.othello_eval.specs.Rows.{entry, equal_moves, corner_and_edge, to_pass};
ghost use Rattle.line_io.specs.Lines.{Whole, TooLong};
ghost use Rattle.othello_board.specs.declared.position_text.positions.Side.TheVariants.{Black};
ghost use Rattle.session.specs.declared.standings.Analysis.{Analysis};
ghost use Rattle.session.specs.declared.standings.Standing.TheVariants.{Pending, Done, Spent, Cancelled};
ghost use Rattle.session.specs.Calls.{Hello, Reserve, Ask, Get, Wait, Cancel, AskQuota, AskLive, Leave, Welcome, Reserved, Job, Told, Rest, Alive, Gone, Refused};
ghost use Rattle.session.specs.Requests.{Makes, Tabulates, Ends, request};
ghost use Rattle.session.specs.Turns.{Tabulated, table_text};
ghost use Rattle.session.specs.Sessions.{calls, out};
ghost use Rattle.session.specs.DoneLines.{asks_of_lines, TurnHolds};
ghost use Rattle.session.specs.Rows.{opening_board, found, faulted};

/// Each command of a session's line, where a tenant is there, and HELLO where none is. Numbers may begin with zeros.
pub fn commands_are_read()
    ensures hello { request false (Whole (codes "HELLO 4 8")) ≡ Makes (Hello (record { segments = 4; nodes = 8 })) }
    ensures reserve { request true (Whole (codes "RESERVE 8 8")) ≡ Makes (Reserve (record { segments = 8; nodes = 8 })) }
    ensures ask { request true (Whole (codes "ASK 0 ---------------------------OX------XO--------------------------- X")) ≡ Makes (Ask 0 opening_board Black) }
    ensures get { request true (Whole (codes "GET 01")) ≡ Makes (Get 1) }
    ensures zero { request true (Whole (codes "GET 0")) ≡ Makes (Get 0) }
    ensures wait { request true (Whole (codes "WAIT 256")) ≡ Makes (Wait 256) }
    ensures cancel { request true (Whole (codes "CANCEL 2")) ≡ Makes (Cancel 2) }
    ensures table { request true (Whole (codes "TABLE 1")) ≡ Tabulates 1 }
    ensures table_of_none { request true (Whole (codes "TABLE 00")) ≡ Tabulates 0 }
    ensures quota { request true (Whole (codes "QUOTA")) ≡ Makes AskQuota }
    ensures live { request true (Whole (codes "LIVE")) ≡ Makes AskLive }
    ensures bye { request true (Whole (codes "BYE")) ≡ Ends }
    ensures early_bye { request false (Whole (codes "BYE")) ≡ Ends }
{}

/// Lines of a session that are no command with its arguments: 22 for one too long, 21 for any other, whether a tenant
/// is there or not.
pub fn foreign_lines_are_faults()
    ensures long { faulted (request true TooLong) ≡ Some 22 }
    ensures empty { faulted (request true (Whole (codes ""))) ≡ Some 21 }
    ensures small_letters { faulted (request true (Whole (codes "get 1"))) ≡ Some 21 }
    ensures no_argument { faulted (request true (Whole (codes "GET"))) ≡ Some 21 }
    ensures one_more { faulted (request true (Whole (codes "GET 1 "))) ≡ Some 21 }
    ensures no_table { faulted (request true (Whole (codes "TABLE"))) ≡ Some 21 }
    ensures two_tables { faulted (request false (Whole (codes "TABLE 1 2"))) ≡ Some 21 }
    ensures small_table { faulted (request true (Whole (codes "table 1"))) ≡ Some 21 }
    ensures no_position { faulted (request true (Whole (codes "ASK 0"))) ≡ Some 21 }
    ensures one_amount { faulted (request true (Whole (codes "RESERVE 8"))) ≡ Some 21 }
    ensures three_amounts { faulted (request false (Whole (codes "HELLO 1 2 3"))) ≡ Some 21 }
    ensures longest { faulted (request true (Whole (replicate 128 65))) ≡ Some 21 }
{}

/// The first fault of each line of a session. Where it may have two, it is 28 (no HELLO yet) or 29 (HELLO again) before
/// 23 (a number), and a depth's fault (23 or 27) before its position's (24 to 26).
pub fn faults_come_in_order()
    ensures before_hello { faulted (request false (Whole (codes "GET 1"))) ≡ Some 28 }
    ensures reserve_before_hello { faulted (request false (Whole (codes "RESERVE x 1"))) ≡ Some 28 }
    ensures table_before_hello { faulted (request false (Whole (codes "TABLE x"))) ≡ Some 28 }
    ensures no_table_number { faulted (request true (Whole (codes "TABLE x"))) ≡ Some 23 }
    ensures nine_table_digits { faulted (request true (Whole (codes "TABLE 000000001"))) ≡ Some 23 }
    ensures many_to_reserve { faulted (request true (Whole (codes "RESERVE 4097 1"))) ≡ Some 23 }
    ensures before_numbers { faulted (request false (Whole (codes "WAIT x"))) ≡ Some 28 }
    ensures again { faulted (request true (Whole (codes "HELLO x 1"))) ≡ Some 29 }
    ensures no_number { faulted (request true (Whole (codes "WAIT x"))) ≡ Some 23 }
    ensures nine_digits { faulted (request true (Whole (codes "GET 123456789"))) ≡ Some 23 }
    ensures no_segment { faulted (request false (Whole (codes "HELLO 0 1"))) ≡ Some 23 }
    ensures many_segments { faulted (request false (Whole (codes "HELLO 4097 1"))) ≡ Some 23 }
    ensures no_node { faulted (request false (Whole (codes "HELLO 1 0"))) ≡ Some 23 }
    ensures many_nodes { faulted (request false (Whole (codes "HELLO 1 65537"))) ≡ Some 23 }
    ensures most { request false (Whole (codes "HELLO 4096 65536")) ≡ Makes (Hello (record { segments = 4096; nodes = 65536 })) }
    ensures no_depth { faulted (request true (Whole (codes "ASK x Z"))) ≡ Some 23 }
    ensures deep { faulted (request true (Whole (codes "ASK 13 Z"))) ≡ Some 27 }
    ensures short { faulted (request true (Whole (codes "ASK 0 "))) ≡ Some 24 }
    ensures spaces { faulted (request true (Whole (codes "ASK 0  ---------------------------OX------XO--------------------------- X"))) ≡ Some 24 }
    ensures cell { faulted (request true (Whole (codes "ASK 0 ---" ++ 255 ∷ codes "-----------------------OX------XO--------------------------- X"))) ≡ Some 25 }
    ensures side { faulted (request true (Whole (codes "ASK 0 ---------------------------OX------XO--------------------------- Q"))) ≡ Some 26 }
{}

/// A job of the opening at depth 0, and what is left after it: nothing follows BYE, and the tenant leaves.
pub fn one_job()
    ensures calls { calls
        (codes "HELLO 4 8" ++ 10 ∷ codes "ASK 0 ---------------------------OX------XO--------------------------- X" ++ 13 ∷ 10 ∷ codes "WAIT 1" ++ 10 ∷ codes "QUOTA" ++ 10 ∷ codes "BYE" ++ 10 ∷ codes "LIVE" ++ 10 ∷ [])
        (Welcome (record { segments = 4; nodes = 8 }) ∷ Job 1 ∷ Told 1 (Done (found (pos 0) None [])) ∷ Rest (record { segments = 4; nodes = 7; steps = 123 }) ∷ [])
        ≡ (Hello (record { segments = 4; nodes = 8 }), Welcome (record { segments = 4; nodes = 8 })) ∷ (Ask 0 opening_board Black, Job 1) ∷ (Wait 1, Told 1 (Done (found (pos 0) None []))) ∷ (AskQuota, Rest (record { segments = 4; nodes = 7; steps = 123 })) ∷ (Leave, Gone) ∷ [] }
    ensures out { out
        (codes "HELLO 4 8" ++ 10 ∷ codes "ASK 0 ---------------------------OX------XO--------------------------- X" ++ 13 ∷ 10 ∷ codes "WAIT 1" ++ 10 ∷ codes "QUOTA" ++ 10 ∷ codes "BYE" ++ 10 ∷ codes "LIVE" ++ 10 ∷ [])
        (Welcome (record { segments = 4; nodes = 8 }) ∷ Job 1 ∷ Told 1 (Done (found (pos 0) None [])) ∷ Rest (record { segments = 4; nodes = 7; steps = 123 }) ∷ [])
        ≡ codes "WELCOME 4 8" ++ 10 ∷ codes "JOB 1" ++ 10 ∷ codes "DONE 1 0 -" ++ 10 ∷ codes "QUOTA 4 7 123" ++ 10 ∷ codes "BYE" ++ 10 ∷ [] }
{}

/// A job that is spent, shown twice, and what is alive. At the end of the input the tenant leaves too.
pub fn a_spent_job()
    ensures calls { calls (codes "HELLO 8 1" ++ 10 ∷ codes "WAIT 1" ++ 10 ∷ codes "LIVE" ++ 10 ∷ [])
        (Welcome (record { segments = 8; nodes = 1 }) ∷ Told 1 Spent ∷ Alive (record { frames = 0; words = 0 }) ∷ [])
        ≡ (Hello (record { segments = 8; nodes = 1 }), Welcome (record { segments = 8; nodes = 1 })) ∷ (Wait 1, Told 1 Spent) ∷ (AskLive, Alive (record { frames = 0; words = 0 })) ∷ (Leave, Gone) ∷ [] }
    ensures out { out (codes "HELLO 8 1" ++ 10 ∷ codes "WAIT 1" ++ 10 ∷ codes "LIVE" ++ 10 ∷ [])
        (Welcome (record { segments = 8; nodes = 1 }) ∷ Told 1 Spent ∷ Alive (record { frames = 0; words = 0 }) ∷ [])
        ≡ codes "WELCOME 8 1" ++ 10 ∷ codes "SPENT 1" ++ 10 ∷ codes "LIVE 0 0" ++ 10 ∷ [] }
{}

/// Faults take no reply. A HELLO that is refused leaves no tenant, and HELLO may come again; who has none doesn't leave.
pub fn a_refused_hello()
    ensures calls { calls (codes "GET 1" ++ 10 ∷ codes "HELLO 4 8" ++ 10 ∷ codes "GET 1" ++ 10 ∷ [])
        (Refused 19 ∷ []) ≡ (Hello (record { segments = 4; nodes = 8 }), Refused 19) ∷ [] }
    ensures out { out (codes "GET 1" ++ 10 ∷ codes "HELLO 4 8" ++ 10 ∷ codes "GET 1" ++ 10 ∷ [])
        (Refused 19 ∷ []) ≡ codes "ERR 28" ++ 10 ∷ codes "ERR 19" ++ 10 ∷ codes "ERR 28" ++ 10 ∷ [] }
    ensures taken { out (codes "HELLO 4 8" ++ 10 ∷ codes "HELLO 4 8" ++ 10 ∷ codes "HELLO 1 1" ++ 10 ∷ codes "GET 1")
        (Refused 14 ∷ Welcome (record { segments = 4; nodes = 8 }) ∷ Refused 17 ∷ [])
        ≡ codes "ERR 14" ++ 10 ∷ codes "WELCOME 4 8" ++ 10 ∷ codes "ERR 29" ++ 10 ∷ codes "ERR 17" ++ 10 ∷ [] }
{}

/// The end of the input ends a line too: the last line, `ASK 0 ` without an LF, is answered by fault 24, as it has no
/// position, and then the tenant leaves.
pub fn a_last_line_without_an_end()
    ensures calls { calls (codes "HELLO 4 8" ++ 10 ∷ codes "ASK 0 ") (Welcome (record { segments = 4; nodes = 8 }) ∷ [])
        ≡ (Hello (record { segments = 4; nodes = 8 }), Welcome (record { segments = 4; nodes = 8 })) ∷ (Leave, Gone) ∷ [] }
    ensures out { out (codes "HELLO 4 8" ++ 10 ∷ codes "ASK 0 ") (Welcome (record { segments = 4; nodes = 8 }) ∷ [])
        ≡ codes "WELCOME 4 8" ++ 10 ∷ codes "ERR 24" ++ 10 ∷ [] }
{}

/// Of three ASK lines the second was refused, so the third asked for job 2. A tenant begins at WELCOME and ends at BYE.
/// The last line stands foremost.
pub fn asks_are_counted()
    ensures asked { asks_of_lines
        ((Whole (codes "ASK 1 ---------------------------OX------XO--------------------------- X"), codes "JOB 2") ∷ (Whole (codes "TABLE 1"), codes "TABLE 1") ∷ (Whole (codes "WAIT 1"), codes "DONE 1 0 -") ∷ (Whole (codes "ASK 2 ---------------------------OX------XO--------------------------- X"), codes "ERR 11")
        ∷ (Whole (codes "ASK 0 ---------------------------OX------XO--------------------------- X"), codes "JOB 1") ∷ (Whole (codes "HELLO 4 8"), codes "WELCOME 4 8") ∷ [])
        ≡ record { board = opening_board; depth = 0 } ∷ record { board = opening_board; depth = 1 } ∷ [] }
    ensures left { asks_of_lines ((Whole (codes "BYE"), codes "BYE") ∷ (Whole (codes "ASK 0 ---------------------------OX------XO--------------------------- X"), codes "JOB 1") ∷ []) ≡ [] }
{}

/// A tenant with 8 segments and 1 node reserves 8 of each, and then would have 4 segments, which is refused by 20
/// (Lower).
pub fn more_is_reserved()
    ensures calls { calls (codes "HELLO 8 1" ++ 10 ∷ codes "RESERVE 8 8" ++ 10 ∷ codes "RESERVE 4 8" ++ 10 ∷ [])
        (Welcome (record { segments = 8; nodes = 1 }) ∷ Reserved (record { segments = 8; nodes = 8 }) ∷ Refused 20 ∷ [])
        ≡ (Hello (record { segments = 8; nodes = 1 }), Welcome (record { segments = 8; nodes = 1 })) ∷ (Reserve (record { segments = 8; nodes = 8 }), Reserved (record { segments = 8; nodes = 8 })) ∷ (Reserve (record { segments = 4; nodes = 8 }), Refused 20) ∷ (Leave, Gone) ∷ [] }
    ensures out { out (codes "HELLO 8 1" ++ 10 ∷ codes "RESERVE 8 8" ++ 10 ∷ codes "RESERVE 4 8" ++ 10 ∷ [])
        (Welcome (record { segments = 8; nodes = 1 }) ∷ Reserved (record { segments = 8; nodes = 8 }) ∷ Refused 20 ∷ [])
        ≡ codes "WELCOME 8 1" ++ 10 ∷ codes "RESERVED 8 8" ++ 10 ∷ codes "ERR 20" ++ 10 ∷ [] }
{}

/// The tables of a finished job: of the opening to depths 0 and 1, of a side that has to pass, and of a position with two
/// choices. A kind is at most, at least or exact.
pub fn tables_are_written()
    ensures no_depth { table_text (Told 1 (Done (found (pos 0) None []))) ≡ codes "TABLE 1" }
    ensures opening { table_text (Told 1 (Done (found (negsuc 2) (Some (Square 19)) equal_moves))) ≡ codes "TABLE 1 d3=-3 c4<-3 f5<-3 e6<-3" }
    ensures passed { table_text (Told 1 (Done (found (negsuc 5999) (Some Pass) to_pass))) ≡ codes "TABLE 1 pass=-6000" }
    ensures two { table_text (Told 1 (Done (found (pos 89) (Some (Square 0)) corner_and_edge))) ≡ codes "TABLE 1 a1=89 e1<40" }
    ensures at_least { table_text (Told 256 (Done (found (pos 0) (Some (Square 63)) (entry (Square 63) High (pos 0) ∷ [])))) ≡ codes "TABLE 256 h8>0" }
    ensures longest { length (table_text (Told 18446744073709551615 (Done (found (pos 0) None (replicate 64 (entry Pass Low (negsuc 2147483647))))))) ≡ 1114 }
{}

/// A job that isn't done, and a refusal, are told to TABLE as to GET.
pub fn tables_of_others_are_none()
    ensures pending { table_text (Told 1 Pending) ≡ codes "PENDING 1" }
    ensures spent { table_text (Told 2 Spent) ≡ codes "SPENT 2" }
    ensures cancelled { table_text (Told 3 Cancelled) ≡ codes "CANCELLED 3" }
    ensures refused { table_text (Refused 17) ≡ codes "ERR 17" }
{}

/// TABLE makes the call of GET, and tells of the same reply the table where GET tells the value and the move.
pub fn a_table_is_asked_for()
    ensures calls { calls (codes "HELLO 4 8" ++ 10 ∷ codes "TABLE 1" ++ 10 ∷ codes "GET 1" ++ 10 ∷ codes "TABLE 2" ++ 10 ∷ [])
        (Welcome (record { segments = 4; nodes = 8 }) ∷ Told 1 (Done (found (negsuc 2) (Some (Square 19)) equal_moves)) ∷ Told 1 (Done (found (negsuc 2) (Some (Square 19)) equal_moves)) ∷ Refused 17 ∷ [])
        ≡ (Hello (record { segments = 4; nodes = 8 }), Welcome (record { segments = 4; nodes = 8 })) ∷ (Get 1, Told 1 (Done (found (negsuc 2) (Some (Square 19)) equal_moves))) ∷ (Get 1, Told 1 (Done (found (negsuc 2) (Some (Square 19)) equal_moves))) ∷ (Get 2, Refused 17) ∷ (Leave, Gone) ∷ [] }
    ensures out { out (codes "HELLO 4 8" ++ 10 ∷ codes "TABLE 1" ++ 10 ∷ codes "GET 1" ++ 10 ∷ codes "TABLE 2" ++ 10 ∷ [])
        (Welcome (record { segments = 4; nodes = 8 }) ∷ Told 1 (Done (found (negsuc 2) (Some (Square 19)) equal_moves)) ∷ Told 1 (Done (found (negsuc 2) (Some (Square 19)) equal_moves)) ∷ Refused 17 ∷ [])
        ≡ codes "WELCOME 4 8" ++ 10 ∷ codes "TABLE 1 d3=-3 c4<-3 f5<-3 e6<-3" ++ 10 ∷ codes "DONE 1 -3 d3" ++ 10 ∷ codes "ERR 17" ++ 10 ∷ [] }
{}

/// What a TABLE line is worth: where the opening was asked for to depth 1 as job 1, and nothing else, the entries of job 1 are a
/// table of the opening to depth 1, and no other job has any.
pub fn a_table_is_of_what_was_asked()
    ensures opening { (analysis : Analysis)
        → TurnHolds ((Whole (codes "ASK 1 ---------------------------OX------XO--------------------------- X"), codes "JOB 1") ∷ (Whole (codes "HELLO 4 8"), codes "WELCOME 4 8") ∷ []) (Tabulated 1 (Told 1 (Done analysis)))
        → IsTable 1 opening_board analysis.bounds }
    ensures unasked { (analysis : Analysis)
        → TurnHolds ((Whole (codes "ASK 1 ---------------------------OX------XO--------------------------- X"), codes "JOB 1") ∷ (Whole (codes "HELLO 4 8"), codes "WELCOME 4 8") ∷ []) (Tabulated 2 (Told 2 (Done analysis)))
        → ⊥ }
{}
