//! The definition of what a command line's words ask for, tried on some: each contract is computed from the definitions
//! alone. `Solve` stands with its grain and whether positions are counted, `Serve` with its sessions, port, workers,
//! segments, nodes and grain.
ghost use Rattle.std.specs.Prelude.{◌≡◌, [], ◌∷◌, true, false, codes, None, Some};
ghost use Rattle.clap.specs.Words.{fault_of};
ghost use Rattle.clap.specs.declared.error.kind.ErrorKind.TheVariants.{ArgumentConflict, DisplayHelp, DisplayVersion, MissingRequiredArgument, MissingSubcommand, TooManyValues, UnknownArgument};
ghost use Rattle.commands.specs.declared.command_line.options.Options.TheVariants.{Serve, Solve, SolveOrdered};
ghost use Rattle.commands.specs.command_line.CommandLine.{options_asked, program};

/// `solve` alone has grain 2 and counts no positions; `--visited`, `--grain=6` and `--grain 0` are read. A grain of 7,
/// or one that is no number, asks for nothing.
pub fn solve_is_asked()
    ensures plain { options_asked (codes "othello" ∷ codes "solve" ∷ []) ≡ Some (Solve 2 false) }
    ensures both { options_asked (codes "othello" ∷ codes "solve" ∷ codes "--visited" ∷ codes "--grain=6" ∷ []) ≡ Some (Solve 6 true) }
    ensures ended { options_asked (codes "othello" ∷ codes "solve" ∷ codes "--grain" ∷ codes "0" ∷ codes "--" ∷ []) ≡ Some (Solve 0 false) }
    ensures faultless { fault_of program (codes "othello" ∷ codes "solve" ∷ codes "--grain" ∷ codes "0" ∷ codes "--visited" ∷ []) ≡ [] }
    ensures too_great { options_asked (codes "othello" ∷ codes "solve" ∷ codes "--grain" ∷ codes "7" ∷ []) ≡ None }
    ensures no_number { options_asked (codes "othello" ∷ codes "solve" ∷ codes "--grain" ∷ codes "two" ∷ []) ≡ None }
{}

/// `--ordered` stands alone: beside another option of `solve`, even one given as its default, the words ask for
/// nothing.
pub fn ordered_is_asked()
    ensures alone { options_asked (codes "othello" ∷ codes "solve" ∷ codes "--ordered" ∷ []) ≡ Some SolveOrdered }
    ensures faultless { fault_of program (codes "othello" ∷ codes "solve" ∷ codes "--ordered" ∷ codes "--grain=2" ∷ []) ≡ [] }
    ensures with_grain { options_asked (codes "othello" ∷ codes "solve" ∷ codes "--ordered" ∷ codes "--grain=2" ∷ []) ≡ None }
    ensures with_no_number { options_asked (codes "othello" ∷ codes "solve" ∷ codes "--grain" ∷ codes "two" ∷ codes "--ordered" ∷ []) ≡ None }
    ensures with_visited { options_asked (codes "othello" ∷ codes "solve" ∷ codes "--visited" ∷ codes "--ordered" ∷ []) ≡ None }
    ensures twice { fault_of program (codes "othello" ∷ codes "solve" ∷ codes "--ordered" ∷ codes "--ordered" ∷ []) ≡ ArgumentConflict ∷ [] }
{}

/// `serve` for 2 sessions has port 0, 4 workers, 4,096 segments, 65,536 nodes and grain 2 where nothing else is given.
/// Options that are given are read: 5 sessions, port 6, 7 workers, 8 segments, 9 nodes, grain 1. A value beyond its
/// limits asks for nothing.
pub fn serve_is_asked()
    ensures plain { options_asked (codes "othello" ∷ codes "serve" ∷ codes "--sessions" ∷ codes "2" ∷ []) ≡ Some (Serve 2 0 4 4096 65536 2) }
    ensures all { options_asked (codes "othello" ∷ codes "serve" ∷ codes "--grain=1" ∷ codes "--nodes=9" ∷ codes "--segments=8" ∷ codes "--workers=7" ∷ codes "--port=6" ∷ codes "--sessions=5" ∷ []) ≡ Some (Serve 5 6 7 8 9 1) }
    ensures faultless { fault_of program (codes "othello" ∷ codes "serve" ∷ codes "--sessions" ∷ codes "2" ∷ codes "--port" ∷ codes "80" ∷ []) ≡ [] }
    ensures greatest { options_asked (codes "othello" ∷ codes "serve" ∷ codes "--sessions=1000" ∷ codes "--port=65535" ∷ []) ≡ Some (Serve 1000 65535 4 4096 65536 2) }
    ensures too_many { options_asked (codes "othello" ∷ codes "serve" ∷ codes "--sessions=1001" ∷ []) ≡ None }
    ensures too_few { options_asked (codes "othello" ∷ codes "serve" ∷ codes "--sessions=2" ∷ codes "--workers=0" ∷ []) ≡ None }
{}

/// No command, help, the version, a flag twice, a value where none belongs, an unknown option, `serve` without the
/// sessions that it needs: each has its fault.
pub fn faults_are_found()
    ensures none { fault_of program (codes "othello" ∷ []) ≡ MissingSubcommand ∷ [] }
    ensures help { fault_of program (codes "othello" ∷ codes "--help" ∷ []) ≡ DisplayHelp ∷ [] }
    ensures version { fault_of program (codes "othello" ∷ codes "--version" ∷ []) ≡ DisplayVersion ∷ [] }
    ensures twice { fault_of program (codes "othello" ∷ codes "solve" ∷ codes "--visited" ∷ codes "--visited" ∷ []) ≡ ArgumentConflict ∷ [] }
    ensures a_value { fault_of program (codes "othello" ∷ codes "solve" ∷ codes "--visited=yes" ∷ []) ≡ TooManyValues ∷ [] }
    ensures unknown { fault_of program (codes "othello" ∷ codes "serve" ∷ codes "--fast" ∷ []) ≡ UnknownArgument ∷ [] }
    ensures no_sessions { fault_of program (codes "othello" ∷ codes "serve" ∷ []) ≡ MissingRequiredArgument ∷ [] }
{}
