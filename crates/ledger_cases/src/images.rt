// Images of a book at their limits: refusals 6 and 7.
use super::group::Group;
use super::patch::{Patch, put};
use super::satellite::satellite;
use super::told::{ACCEPTED, declined, declined_at, told};
use accounts::record::Record;
use books::checks::{check_open, check_start};
use books::codec::encode;

// Two records of 36 bytes behind a count of 4.
fn two_records(rt: &HostRuntime) -> anyhow::Result<Vec<u8>> {
    let mut image = [2u8, 0, 0, 0].to_vec(rt.alloc())?;
    for account in [1, 2] {
        let record = Record {
            class: 2,
            last: 3,
            ..satellite(account, 10_000, 681)
        };
        image.extend_from_slice(&encode(&record))?;
    }
    Ok(image)
}

fn records() -> [Patch; 10] {
    [
        put("count 1", 0, 1, ACCEPTED),
        put("count 2", 0, 2, ACCEPTED),
        put("count 3", 0, 3, declined(6)),
        put("first account 0", 4, 0, declined_at(7, 0)),
        put("accounts 2 and 2", 4, 2, declined_at(7, 1)),
        put("accounts 3 and 2", 4, 3, ACCEPTED),
        put("second class 0", 54, 0, declined_at(7, 1)),
        put("second class 16", 54, 16, ACCEPTED),
        put("second class 17", 54, 17, declined_at(7, 1)),
        put("filler", 39, 1, declined_at(7, 0)),
    ]
}

fn patched(opened: Group) -> anyhow::Result<()> {
    for patch in &records() {
        let image = patch.of(two_records(opened.rt)?);
        opened.show(patch.name, patch.expected, told(check_open(&image)))?;
    }
    Ok(())
}

pub fn cases(rt: &HostRuntime) -> anyhow::Result<()> {
    let started = Group::new(rt, "image started");
    let blank = Group::new(rt, "blank image opened");
    let start = |name, image, expected| -> anyhow::Result<()> {
        started.show(name, expected, told(check_start(image)))?;
        blank.show(name, expected, told(check_open(image)))
    };
    start("3 bytes", &[0; 3], declined(6))?;
    start("4 bytes", &[0; 4], ACCEPTED)?;
    let mut image = [0u8; 40];
    image[0] = 1;
    start("a count of 1 in 39 bytes", &image[0..39], declined(6))?;
    started.show(
        "a count of 1 in 40 bytes",
        ACCEPTED,
        told(check_start(&image)),
    )?;
    patched(Group::new(rt, "image opened"))
}
