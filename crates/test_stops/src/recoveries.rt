// Recoveries of images that stops leave, themselves stopped at each of their calls, again and again.
use crate::disks::sector;
use crate::fates::{count_of_stops, stopped, unsynced_sectors};
use crate::fillings::{Fillings, left_in, shown};
use crate::image_calls::ImageCalls;
use crate::medium::{Layout, OLDER};
use crate::report::Report;
use crate::scenario::Trial;
use crate::trials::{Base, Calls, Halt, run};
use sector_disk::{MemoryDisk, SectorDevice};
use std::alloc::Global;
use std::test::Fail;

// Only images of layout 2 are recovered.
const OPENING: ImageCalls = ImageCalls {
    layout: Layout::Older,
};

// Whether these two disks differ in one of these sectors.
fn differ_in(
    sectors: &[u32],
    one: &mut MemoryDisk,
    two: &mut MemoryDisk,
) -> Result<bool, &'static str> {
    for k in sectors {
        if sector(one, *k)? != sector(two, *k)? {
            return Ok(true);
        }
    }
    Ok(false)
}

// The first sector in which these two disks differ.
fn first_difference(
    one: &mut MemoryDisk,
    two: &mut MemoryDisk,
) -> Result<Option<u32>, &'static str> {
    for k in 0..one.sectors() {
        if sector(one, k)? != sector(two, k)? {
            return Ok(Some(k));
        }
    }
    Ok(None)
}

/// Adds an image that isn't there yet. One that is there has to hold the same.
pub(crate) fn add(
    alloc: Global,
    images: &mut Vec<Calls<'static>>,
    image: MemoryDisk,
    means: Fillings,
    report: &mut Report,
) -> Result<(), Fail> {
    let mut image = image;
    // Images differ in few sectors, and these are looked at first.
    let mut likely = Vec::new(alloc);
    for known in images.iter_mut() {
        if differ_in(&likely, &mut known.disk, &mut image)? {
            continue;
        }
        match first_difference(&mut known.disk, &mut image)? {
            Some(k) => likely.push(k)?,
            None => return compare_meanings(alloc, known.start, means, report),
        }
    }
    Ok(images.push(Calls {
        rows: "open | ok",
        disk: image,
        medium: OLDER,
        start: means,
        opening: 0,
    })?)
}

// The most images that are recovered.
const MOST: usize = 1_000;

// Tells one image of two meanings.
fn compare_meanings(
    alloc: Global,
    one: Fillings,
    two: Fillings,
    report: &mut Report,
) -> Result<(), Fail> {
    if one == two {
        Ok(())
    } else {
        Ok(report.tell(&format!(in alloc; "an image that means {one}, and {two}")?)?)
    }
}

/// Goes through the images, and those that are added on the way.
pub(crate) fn recover(rt: &HostRuntime, base: &mut Base, report: &mut Report) -> Result<(), Fail> {
    for at in 0..MOST {
        if let Some(image) = base.images.get(at) {
            let image = Calls {
                rows: image.rows,
                disk: image.disk.try_clone(rt.alloc())?,
                medium: image.medium,
                start: image.start,
                opening: 0,
            };
            compare(
                rt.alloc(),
                at,
                &image,
                image.disk.try_clone(rt.alloc())?,
                report,
            )?;
            recover_image(rt, &mut base.images, &image, report)?;
        }
    }
    if base.images.is_empty() || base.images.len() > MOST {
        report.tell("no images, or too many to recover all of them")?;
    }
    Ok(())
}

// Tells where an image holds something else than it has to.
fn compare(
    alloc: Global,
    at: usize,
    image: &Calls,
    disk: MemoryDisk,
    report: &mut Report,
) -> Result<(), Fail> {
    let left = left_in(disk)?;
    report.images = report.images.saturating_add(1);
    if left != Ok(image.start) {
        let (wanted, came) = (image.start, shown(alloc, left)?);
        report.tell(&format!(in alloc; "image {at}: wanted {wanted}, came {came}")?)?;
    }
    Ok(())
}

// Adds what stops of this image's recovery leave, which has to mean the same.
fn recover_image(
    rt: &HostRuntime,
    images: &mut Vec<Calls<'static>>,
    image: &Calls,
    report: &mut Report,
) -> Result<(), Fail> {
    for k in 1..10_000 {
        let halt = run(rt, &OPENING, image, ("from", k), report)?;
        let sectors = unsynced_sectors(rt, &halt.disk, image.medium)?;
        for n in 0..count_of_stops(&sectors) {
            let left = stopped(rt, &halt.disk, &sectors, n)?;
            report.stops = report.stops.saturating_add(1);
            add(rt.alloc(), images, left, image.start, report)?;
        }
        if halt.answers.as_str() == "ok\n" {
            return Ok(());
        }
        if halt.answers.as_str() != "Device\n" {
            report.tell(&halt.answers)?;
        }
    }
    Ok(report.tell("an image that is never opened")?)
}

/// Each call of each recovery fails, up to one that isn't made. The next opening does it.
pub(crate) fn recover_failing(
    rt: &HostRuntime,
    base: &Base,
    trial: &Trial,
    report: &mut Report,
) -> Result<(), Fail> {
    if trial.first > 1 || base.images.is_empty() {
        report.tell("no images, or no first call")?;
    }
    for (at, image) in base.images.iter().enumerate() {
        for k in trial.first..=trial.last {
            for kind in trial.kinds.split(" ") {
                let halt = run(rt, &OPENING, image, (kind, k), report)?;
                let Halt { disk, answers, .. } = halt;
                let is_told = answers.as_str() == "Device\n" && k < trial.last;
                if answers.as_str() != "ok\n" && !is_told {
                    report.tell(&answers)?;
                }
                compare(rt.alloc(), at, image, disk, report)?;
            }
        }
    }
    Ok(())
}
