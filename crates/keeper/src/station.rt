// A machine at work: each act is done on the files before the next step.
use crate::disk::Disk;
use crate::files::is_own;
use crate::options::Options;
use crate::own_gauge::readings;
use crate::plain::{FileId, find_plain};
use crate::wall::{Wall, folder_of};
use anyhow::{anyhow, ensure};
use hut::{Desk, Effect, Hut, Pending};
use status::Failure;
use std::io::Write;
use std::path::Path;
use sums::Reading;

#[derive(Drop)]
pub struct Station {
    machine: u64,
    row: Vec<Reading>,
    hut: Hut,
    desk: Desk,
    disk: Disk,
    wall: Wall,
    // Whether it has asked for its readings, as it does when it has booted.
    booted: bool,
    // Lines that came over the wires.
    lines: u64,
}

// What a line of the wires says.
fn event(rt: &HostRuntime, line: &[u8]) -> anyhow::Result<Option<Pending>> {
    ensure!(str::from_utf8(line).is_ok(), "it is no UTF-8");
    Ok(wire::hear(rt.alloc(), line)?)
}

// The gauge's file and the wall are plain files, two of them, and none of the station's own.
fn keep_apart(rt: &HostRuntime, disk: &Disk, options: &Options) -> anyhow::Result<()> {
    let gauge = options.gauge.as_str();
    let wall = options.wall.as_str();
    let folder = options.drawers.as_str();
    let gauge_id = find_plain(rt, gauge)?.map(|file| file.id);
    let wall_id = find_plain(rt, wall)?.map(|file| file.id);
    ensure!(
        wall_id.is_none() || wall_id != gauge_id,
        "the wall {wall} and the gauge's file {gauge} are one file"
    );
    for (path, id) in [(gauge, gauge_id), (wall, wall_id)] {
        ensure!(
            !is_taken(rt, disk, path, id)?,
            "{path} is one of the station's own files in {folder}"
        );
    }
    Ok(())
}

// Whether the station keeps, or would keep, something of its own in this file.
fn is_taken(rt: &HostRuntime, disk: &Disk, path: &str, id: Option<FileId>) -> anyhow::Result<bool> {
    let name = Path::new(path).file_name();
    let is_named = name.is_some_and(|name| is_own(name.as_bytes()));
    if is_named && disk.is_at(rt, folder_of(path)) {
        return Ok(true);
    }
    match id {
        Some(id) => disk.has(rt, id),
        None => Ok(false),
    }
}

impl Station {
    // The machine as it wakes. All files are read and checked before anything but the folder's lock is written.
    pub fn open(rt: &HostRuntime, options: &Options) -> Result<Station, Failure> {
        let machine = options.machine;
        let disk = Disk::open(rt, options.drawers.as_str()).map_err(Failure::refused)?;
        keep_apart(rt, &disk, options).map_err(Failure::refused)?;
        let row = readings(rt, options.gauge.as_str(), machine)?;
        let hut = disk.boot(rt, machine, row.len()).map_err(Failure::refused)?;
        let desk = Desk::new(rt.alloc())?;
        let wall = Wall::open(rt, options.wall.as_str())?;
        Ok(Station {
            machine,
            row,
            hut,
            desk,
            disk,
            wall,
            booted: false,
            lines: 0,
        })
    }

    // So many turns at most, till the machine rests; whether it does. Letters that it sends are written out, a line each. Where its drawers do not belong together it rests in the midst of booting.
    pub fn work<W: Write>(
        &mut self,
        rt: &HostRuntime,
        out: &mut W,
        turns: u64,
    ) -> Result<bool, Failure> {
        let heap = rt.alloc();
        for _ in 0..turns {
            let row = self.row.as_slice();
            let turned = self.hut.take_turn(heap, &mut self.desk, row, self.machine)?;
            let Some(effect) = turned else {
                break;
            };
            self.carry_out(rt, out, effect)?;
        }
        let rests = self.hut.rests();
        if rests && !self.booted {
            return Err(Failure::Wrong(anyhow!(
                "the machine cannot boot: its drawers do not belong together"
            )));
        }
        Ok(rests)
    }

    // Makes an act last.
    fn carry_out<W: Write>(
        &mut self,
        rt: &HostRuntime,
        out: &mut W,
        effect: Effect,
    ) -> Result<(), Failure> {
        self.booted |= matches!(effect, Effect::Sought(_));
        let done = match effect {
            Effect::Kept(drawer) => self.disk.keep(rt, drawer, self.hut.drawer(drawer)),
            Effect::Released(place) => self.disk.release(rt, place),
            Effect::Told(row) => self.wall.tell(rt, row),
            Effect::Sent(reader, text) => {
                let line = wire::send(rt.alloc(), reader, text.text.as_slice())?;
                writeln!(out, "{line}")?;
                return Ok(out.flush()?);
            }
            Effect::Fault => Err(anyhow!("the machine did what there is not")),
            _ => Ok(()),
        };
        done.map_err(Failure::wrong)
    }

    // Tells the machine what a line of its wires says, once it rests; what it does then is to be asked of `work`.
    pub fn hear<W: Write>(
        &mut self,
        rt: &HostRuntime,
        out: &mut W,
        line: &[u8],
    ) -> Result<(), Failure> {
        self.lines = self.lines.saturating_add(1);
        let number = self.lines;
        let heard = event(rt, line).map_err(|error| Failure::Refused(anyhow!(
            "wires, line {number}: {error}"
        )))?;
        if let Some(event) = heard {
            self.work(rt, out, u64::MAX)?;
            self.hut.hear(event);
        }
        Ok(())
    }
}
