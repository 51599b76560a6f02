// Rehearses the step list on standard input. Where its transcript can't be written it says nothing and ends with status 1: the script `rehearse`,
// which sees both ends, says why.
#![tactic(auto)]

use std::process::ExitCode;

fn main(rt: HostRuntime) -> ExitCode {
    match stream::rehearse(&mut rt.stdin(), &mut rt.stdout()) {
        Ok(()) => ExitCode::SUCCESS,
        Err(_) => ExitCode::FAILURE,
    }
}
