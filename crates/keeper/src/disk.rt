// What outlives a kill: a file for each drawer, and one for how much of the row is released. One station at a time.
use crate::files::{drawer_name, is_own, released_file, released_in};
use crate::plain::{FileId, find_plain};
use anyhow::{anyhow, ensure};
use hut::{Hut, Text};
use machine::{DRAWERS, LETTER};
use seal::{HEAD, seal, unseal};
use std::fs::{File, OpenOptions, TryLockError};
use std::io::Write;
use std::path::Path;
use std::{fs, io};

// A drawer's bytes with their checksum.
const MOST: u64 = (HEAD + LETTER) as u64;

// What is said of a file that has more, as a drawer and as what is released.
const NO_DRAWER: &str = "is no drawer: it has more than 4096 bytes";

const NO_NUMBER: &str = "does not hold one number";

#[derive(Drop)]
pub struct Disk {
    folder: String,
    // Held as long as the station runs; the system lets go of it where a process ends.
    lock: File,
}

// The folder's lock, which one process has at a time.
fn locked(rt: &HostRuntime, folder: &str) -> anyhow::Result<File> {
    let path = format!(in rt.alloc(); "{folder}/lock")?;
    let lock = OpenOptions::new()
        .write(true)
        .create(true)
        .open(rt, path.as_str())
        .map_err(|error| anyhow!("{path} cannot be opened: {error}"))?;
    match lock.try_lock() {
        Ok(()) => Ok(lock),
        Err(TryLockError::WouldBlock) => Err(anyhow!("another station runs on {folder}")),
        Err(TryLockError::Error(error)) => Err(anyhow!("{path} cannot be locked: {error}")),
    }
}

impl Disk {
    // The folder, which no other station has as long as this one does. Nothing but its lock is touched.
    pub fn open(rt: &HostRuntime, folder: &str) -> anyhow::Result<Disk> {
        let is_folder = fs::metadata(rt, folder).is_ok_and(|metadata| metadata.is_dir());
        ensure!(is_folder, "there is no folder {folder} for the drawers");
        Ok(Disk {
            folder: format!(in rt.alloc(); "{folder}")?,
            lock: locked(rt, folder)?,
        })
    }

    // Whether one of the station's own files in the folder is this one, under whichever name.
    pub fn has(&self, rt: &HostRuntime, id: FileId) -> anyhow::Result<bool> {
        let folder = self.folder.as_str();
        for entry in fs::read_dir(rt, folder)? {
            let entry = entry?;
            let name = entry.file_name();
            if is_own(name.as_bytes()) {
                let path = format!(in rt.alloc(); "{folder}/{name}")?;
                let own = fs::metadata(rt, path.as_str());
                if own.is_ok_and(|metadata| FileId::of(&metadata) == id) {
                    return Ok(true);
                }
            }
        }
        Ok(false)
    }

    // Whether this is the folder itself.
    pub fn is_at(&self, rt: &HostRuntime, folder: Path<'_>) -> bool {
        let here = fs::metadata(rt, self.folder.as_str());
        let there = fs::metadata(rt, folder);
        match (here, there) {
            (Ok(here), Ok(there)) => FileId::of(&here) == FileId::of(&there),
            _ => false,
        }
    }

    fn drawer(&self, rt: &HostRuntime, drawer: u64) -> anyhow::Result<Text> {
        let heap = rt.alloc();
        let folder = self.folder.as_str();
        let name = drawer_name(heap, drawer)?;
        let path = format!(in heap; "{folder}/{name}")?;
        let Some(file) = read(rt, path.as_str(), NO_DRAWER)? else {
            return Ok(Text::empty(heap));
        };
        let bytes = unseal(file.as_slice()).map_err(|error| anyhow!("{path} {error}"))?;
        Text::new(heap, bytes)?.ok_or_else(|| anyhow!("{path} {NO_DRAWER}"))
    }

    fn released(&self, rt: &HostRuntime) -> anyhow::Result<u64> {
        let heap = rt.alloc();
        let folder = self.folder.as_str();
        let path = format!(in heap; "{folder}/released")?;
        let Some(file) = read(rt, path.as_str(), NO_NUMBER)? else {
            return Ok(0);
        };
        released_in(file.as_slice()).map_err(|error| anyhow!("{path} {error}"))
    }

    // The machine as it wakes on these files.
    pub fn boot(&self, rt: &HostRuntime, machine: u64, readings: usize) -> anyhow::Result<Hut> {
        let heap = rt.alloc();
        let released = self.released(rt)?;
        ensure!(
            released <= readings as u64,
            "{released} readings are released, and the gauge's file has only {readings}"
        );
        let drawers = (0..DRAWERS)
            .map(|drawer| self.drawer(rt, drawer))
            .try_collect(heap)?;
        Ok(Hut::boot(heap, machine, drawers, released)?)
    }

    // Writes beside, syncs and renames, so that a kill leaves the old or the new.
    fn replace(&self, rt: &HostRuntime, name: &str, file: &[u8]) -> anyhow::Result<()> {
        let heap = rt.alloc();
        let folder = self.folder.as_str();
        let beside = format!(in heap; "{folder}/{name}.new")?;
        let place = format!(in heap; "{folder}/{name}")?;
        put(rt, folder, beside.as_str(), place.as_str(), file).map_err(|error| anyhow!(
            "{place} cannot be written: {error}"
        ))
    }

    pub fn keep(&self, rt: &HostRuntime, drawer: u64, text: &[u8]) -> anyhow::Result<()> {
        let heap = rt.alloc();
        let name = drawer_name(heap, drawer)?;
        let file = seal(heap, text)?;
        self.replace(rt, name.as_str(), file.as_slice())
    }

    pub fn release(&self, rt: &HostRuntime, place: u64) -> anyhow::Result<()> {
        let file = released_file(rt.alloc(), place)?;
        self.replace(rt, "released", file.as_slice())
    }
}

// The bytes of a file; none where there is no such file. One of too many bytes is refused unread, with these words.
fn read(rt: &HostRuntime, path: &str, too_long: &str) -> anyhow::Result<Option<Vec<u8>>> {
    let Some(file) = find_plain(rt, path)? else {
        return Ok(None);
    };
    ensure!(file.bytes <= MOST, "{path} {too_long}");
    match fs::read(rt, path) {
        Ok(bytes) => Ok(Some(bytes)),
        Err(error) => Err(anyhow!("{path} cannot be read: {error}")),
    }
}

fn put(rt: &HostRuntime, folder: &str, beside: &str, place: &str, bytes: &[u8]) -> io::Result<()> {
    let mut file = File::create(rt, beside)?;
    file.write_all(bytes)?;
    file.sync_all()?;
    fs::rename(rt, beside, place)?;
    File::open(rt, folder)?.sync_all()
}
