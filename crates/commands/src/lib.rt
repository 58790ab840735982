//! The commands of the server, as functions over the network, what they read from and what they
//! print on; and the reading of the program's words.
//!
//! `specs/Pipe.antt` says what `pipe` does, `specs/Port.antt` what `serve` does, and
//! `specs/Serve.antt` what its workers do. `specs/ServerHeadline.antt` says what holds of all
//! connections of a server, and `specs/Words.antt` what becomes of the program's words.
#![tactic(auto)]

pub mod arguments;
mod crew;
pub mod laws;
pub mod pipe;
pub mod program_words;
pub mod serve;
pub mod shown_seat;
pub mod turns;
