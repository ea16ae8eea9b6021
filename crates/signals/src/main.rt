//! The program `signals`: `sig_service` over the words of the command line, standard input and output, and the
//! system's files and network.
#![tactic(auto)]

use sig_service::enter;
use std::process::ExitCode;

fn main(rt: HostRuntime) -> ExitCode {
    enter(&rt, &rt)
}
