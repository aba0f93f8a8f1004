//! Posts a journal and prints what happened, or the host's monthly report; packs and shows request files.
#![tactic(auto)]

use cabinet_tasks::arguments::run;
use std::process::ExitCode;

fn main(rt: HostRuntime) -> anyhow::Result<ExitCode> {
    run(&rt)
}
