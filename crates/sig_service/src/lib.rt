//! The program over everything that it is handed from outside: words, input, output, files, and the network.
//!
//! ```text
//!     words -> serve <settings> <store> <watches>   -> sig_serve   -> the status and the last line
//!           -> receive <settings> <store> <watches> -> sig_receive -> the status and the last line
//!           -> fetch <settings> <store> <rounds>    -> sig_receive -> the status and the last line
//!           -> courier <settings> <store>           -> sig_ticking -> the status and the last line
//!           -> manage <settings>                    -> sig_managing -> the status and the last line
//!           -> init <tx or rx> <store> <store id>   -> sig_init    -> the status and the last line
//!           -> any other words                      -> sig_program
//! ```
//!
//! It stands on `sig_program`, which does what needs no files, on `sig_init`, which makes an empty store, on `sig_serve`,
//! which serves a transmitter's store, on `sig_ticking`, which tries its push streams at each line of the input, on
//! `sig_receive`, which serves a receiver's store and fetches for it, on `sig_managing`, which brings streams to what is declared
//! of them, and on `sig_system` for the system as the outside.
//! Promised by `run`: each command ends by its cause, and a last line says so, or nothing is printed; `serve` puts back the
//! store that it opened with the facts of its links' turns, `courier` with those of its ticks, `receive` and `fetch` with the
//! token texts of theirs, and `init` the files of its store; and no other file is touched. `run_plain` does the same for all
//! words but those of `serve`, `receive`, `courier` and `manage`, and always returns.
//!
//! Left out: a crash while a store is made, of which nothing is said; that links are served at the same time, which no contract
//! can say; and that a link comes.
#![tactic(auto)]

mod asking;
mod courier_run;
mod entering;
mod fetch_run;
mod init_run;
mod last_line;
mod manage_run;
mod running;
mod server_run;
mod words;

pub use asking::{
    CourierAsk, InitAsk, Server, ServerAsk, StoreAsk, courier_of, fetch_of, init_of, manage_of,
    server_of,
};
pub use entering::enter;
pub use running::run_plain;
pub use words::run;
