//! The program over a system of files in memory that keeps the model of a file: what is said of a command with that premise is said of
//! these calls.
use super::support::{Left, call_over, call_over_texts};
use crate::assertions::{Assert, assert_same};
use recovery::format;
use sector_disk::{HostFile, MemoryDisk, SectorDevice};
use std::process::Abort;
use std::rt::Files;
use std::test::Fail;
use terminal::MemoryTexts;
use test_devices::{MemoryFile, MemoryFiles, Script};

/// How many sectors an image of 32 blocks has by layout 2.
const SECTORS: u32 = 131;

/// Each call moves all that it is asked for, up to the end of a sector.
const WHOLE: Script = Script {
    most: usize::MAX,
    interrupted: 0,
    fails_after: u64::MAX,
    calls: 0,
};

/// What is told of changed blocks.
const NOTICE: &[u8] = b"forth83: image: changed blocks were not saved\n";

/// A disk with an image of blank blocks.
fn formatted(rt: &impl AllocGlobal) -> Result<MemoryDisk, Fail> {
    match format(MemoryDisk::new(rt.alloc(), SECTORS)?, 32) {
        Ok(store) => Ok(store.into_device()),
        Err((fault, _)) => Err(fault)?,
    }
}

/// A sector's bytes.
fn sector(disk: &mut MemoryDisk, k: u32) -> Result<[u8; 512], &'static str> {
    let mut bytes = [0; 512];
    if k >= disk.sectors() {
        return Err("no such sector");
    }
    match disk.read(k, &mut bytes) {
        Ok(()) => Ok(bytes),
        Err(_) => Err("no sector read"),
    }
}

/// A file with the bytes of a disk.
fn as_file(rt: &impl AllocGlobal, mut disk: MemoryDisk) -> Result<MemoryFile, Fail> {
    let mut file = MemoryFile::new(rt.alloc(), SECTORS, WHOLE).map_err(|_| "no memory")?;
    for k in 0..SECTORS {
        let bytes = sector(&mut disk, k)?;
        file.write_at(512 * k as u64, &bytes)
            .map_err(|_| "no sector written")?;
    }
    file.sync().map_err(|_| "no sync")?;
    Ok(file)
}

/// The system in which each name is that of a file of zeros, or of one with an image of blank blocks.
fn files(rt: &impl AllocGlobal, has_image: bool) -> Result<MemoryFiles, Fail> {
    let file = if has_image {
        as_file(rt, formatted(rt)?)?
    } else {
        MemoryFile::new(rt.alloc(), SECTORS, WHOLE).map_err(|_| "no memory")?
    };
    Ok(MemoryFiles::new(rt.alloc(), file, WHOLE))
}

fn told(
    rt: &(impl Files<File = std::fs::File> + AllocGlobal + Abort),
    files: &MemoryFiles,
    words: &[&str],
    input: &[u8],
    status: u8,
    output: &[u8],
) {
    let left: Left = call_over(rt, files, words, input);
    assert_same!(rt; left.status, status, "{words:?}");
    assert_same!(rt; left.output.as_slice(), output, "{words:?}");
}

#[test]
fn commands_on_an_image(rt: HostRuntime) -> Result<(), Fail> {
    let files = files(&rt, true)?;
    let saving = b"7 1 BLOCK ! UPDATE FLUSH 1 BLOCK @ .\n";
    told(&rt, &files, &["forth83", "run", "A"], saving, 0, b"7  ok\n");
    // each opening gives the image as it was when the system was made
    let looking = b"1 BLOCK @ .\n";
    told(
        &rt,
        &files,
        &["forth83", "run", "A"],
        looking,
        0,
        b"8224  ok\n",
    );
    Ok(())
}

/// Calls the program where one text has a name.
fn told_of_a_text(
    rt: &(impl AllocGlobal + Abort),
    files: &MemoryFiles,
    words: &[&str],
    status: u8,
    output: &[u8],
) {
    let texts = MemoryTexts::new("F", b"3 .");
    let left = call_over_texts(rt, files, files, &texts, words, b"");
    assert_same!(rt; left.status, status, "{words:?}");
    assert_same!(rt; left.output.as_slice(), output, "{words:?}");
}

/// What is read of a name is the text that the system has under it. Of another one nothing is read.
#[test]
fn texts_by_their_names(rt: HostRuntime) -> Result<(), Fail> {
    let files = files(&rt, true)?;
    told_of_a_text(&rt, &files, &["forth83", "run", "A", "F"], 0, b"3  ok\n");
    told_of_a_text(&rt, &files, &["forth83", "run", "A", "F", "G"], 4, b"");
    told_of_a_text(&rt, &files, &["forth83", "put", "A", "1", "F"], 0, b"");
    told_of_a_text(&rt, &files, &["forth83", "put", "A", "1", "G"], 4, b"");
    told_of_a_text(&rt, &files, &["forth83", "import", "A", "1", "F"], 0, b"");
    told_of_a_text(&rt, &files, &["forth83", "import", "A", "1", "G"], 4, b"");
    Ok(())
}

/// Changed blocks count as not saved where the save of them failed; where none was changed before a call failed nothing
/// is told of them.
#[test]
fn changed_blocks_where_a_call_fails(rt: HostRuntime) -> Result<(), Fail> {
    let words = ["forth83", "run", "A", "--strict"];
    let lines = b"1 BLOCK DROP\n7 1 BLOCK ! UPDATE FLUSH\n";
    let mut failed_saves = 0u32;
    for fails_after in 0..32 {
        let script = Script {
            fails_after,
            ..WHOLE
        };
        let files = MemoryFiles::new(rt.alloc(), as_file(&rt, formatted(&rt)?)?, script);
        let left = call_over(&rt, &files, &words, lines);
        let is_told = left.errors.as_slice().starts_with(NOTICE);
        let is_failed = left.output.as_slice() == b" ok\n ? DEVICE\n".as_slice();
        assert_same!(rt; is_told, is_failed, "{fails_after}");
        failed_saves = failed_saves.saturating_add(u32::from(is_failed));
    }
    assert_same!(rt; failed_saves > 8, true);
    Ok(())
}

#[test]
fn an_image_is_made(rt: HostRuntime) -> Result<(), Fail> {
    let files = files(&rt, false)?;
    told(
        &rt,
        &files,
        &["forth83", "new", "A", "--blocks", "32"],
        b"",
        0,
        b"",
    );
    let none: &[u8] = b"";
    told(&rt, &files, &["forth83", "run", "A"], none, 3, none);
    Ok(())
}
