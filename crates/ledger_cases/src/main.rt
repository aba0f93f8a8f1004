// Further postings, refusals and boundaries: each is performed, and printed with `ok` where it is what was expected by
// hand, and with `differs` where it is not.
#![tactic(auto)]

mod enrolments;
mod files;
mod foreign;
mod group;
mod images;
mod patch;
mod periods;
mod postings;
mod satellite;
mod stage;
mod steps;
mod told;

fn main(rt: HostRuntime) -> anyhow::Result<()> {
    files::cases(&rt)?;
    images::cases(&rt)?;
    enrolments::cases(&rt)?;
    periods::cases(&rt)?;
    foreign::cases(&rt)?;
    postings::cases(&rt)
}
