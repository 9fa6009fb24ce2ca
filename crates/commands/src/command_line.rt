//! The words of `othello`'s command line: what the program is asked to do.
//!
//! Words stand for [`Options`], or for a fault ([`WordsFault`]). Which values the words give is `clap`'s own
//! definition; what they ask for is `specs/CommandLine.antt`: each option has the value that the words give it, or
//! its default; a value outside its limits is refused, and so is `--ordered` beside another option. [`Options::read`] is
//! proved to read just that. That it reads at all, and what is said of refused words, is tested in `server_tests`.
//!
//! Why it is so:
//!
//! - clap's own definition says which values the words give (`subcommand_of`, `fault_of`); rows compute it on
//!   literal words, as 'the word `--visited` stands there' would need an induction over clap's parser. A flag
//!   is read as text: `get_flag`'s contract says nothing of a value that isn't a `bool`.
//! - The program tests the limits of options, since clap's ranges speak of the top command alone; a value
//!   outside is clap's `ValueValidation`, and so is `+5`. Defaults are the program's own, so that the
//!   definition can name them. So it is with `--ordered` beside another option: clap's `fault_of` knows no command
//!   whose options exclude one another. Options are given to clap three per function (`with_number`), as a longer chain
//!   is expensive to prove.
//!
//! ```text
//! let words = ["othello", "serve", "--sessions", "2", "--grain", "0"];
//! Options::read(alloc, &words)    // Serve { sessions: 2, port: 0, workers: 4, segments: 4096, nodes: 65536, grain: 0 }
//! ```

mod commands;
mod faults;
mod options;
pub mod rows;
mod settings;

pub use faults::WordsFault;
pub use options::Options;
