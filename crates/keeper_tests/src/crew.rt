// Eight stations in one folder, and the letters between them.
use anyhow::anyhow;
use keeper::{Options, Station};
use status::Failure;
use std::{fs, mem};

// Rounds after which letters that still go to and fro go on without end.
const ROUNDS: u64 = 1000;

// A station, and the lines that are on the way to it.
#[derive(Drop)]
struct Place {
    options: Options,
    // None only while it is opened again.
    station: Option<Station>,
    lines: Vec<String>,
}

#[derive(Drop)]
pub struct Crew {
    places: Vec<Place>,
}

// A folder with a gauge's file and eight folders for drawers, without what an earlier run left there.
pub fn make_folder(rt: &HostRuntime, name: &str, river: &str) -> Result<(), Failure> {
    let heap = rt.alloc();
    if fs::exists(rt, name)? {
        fs::remove_dir_all(rt, name)?;
    }
    fs::create_dir(rt, name)?;
    fs::write(rt, format!(in heap; "{name}/gauge")?.as_str(), river)?;
    for i in 0..8 {
        fs::create_dir(rt, format!(in heap; "{name}/{i}")?.as_str())?;
    }
    Ok(())
}

// The files of a station in the folder; all have one gauge's file and one wall.
pub fn options(rt: &HostRuntime, name: &str, machine: u64) -> Result<Options, Failure> {
    let heap = rt.alloc();
    Ok(Options {
        machine,
        drawers: format!(in heap; "{name}/{machine}")?,
        gauge: format!(in heap; "{name}/gauge")?,
        wall: format!(in heap; "{name}/wall")?,
    })
}

impl Place {
    fn station(&mut self) -> Result<&mut Station, Failure> {
        self.station
            .as_mut()
            .ok_or(Failure::Wrong(anyhow!("the station is let go of")))
    }
}

impl Crew {
    pub fn open(rt: &HostRuntime, name: &str) -> Result<Crew, Failure> {
        let heap = rt.alloc();
        let mut places = Vec::new(heap);
        for machine in 0..8 {
            let options = options(rt, name, machine)?;
            let station = Some(Station::open(rt, &options)?);
            places.push(Place {
                options,
                station,
                lines: Vec::new(heap),
            })?;
        }
        Ok(Crew { places })
    }

    fn place(&mut self, i: usize) -> Result<&mut Place, Failure> {
        self.places
            .get_mut(i)
            .ok_or(Failure::Wrong(anyhow!("there is no such station")))
    }

    // The station is gone, as if it were killed, with what it has not heard; it is opened again on its files.
    pub fn let_go(&mut self, rt: &HostRuntime, i: usize) -> Result<(), Failure> {
        let heap = rt.alloc();
        let place = self.place(i)?;
        place.lines = Vec::new(heap);
        place.station = None;
        place.station = Some(Station::open(rt, &place.options)?);
        Ok(())
    }

    // Puts a line that the station wrote, `to J HEX`, on the way to station J.
    fn carry(&mut self, rt: &HostRuntime, i: usize, line: &str) -> Result<(), Failure> {
        let letter = line
            .strip_prefix("to ")
            .and_then(|rest| rest.split_once(' '));
        let Some((to, hex)) = letter else {
            return Err(Failure::Wrong(anyhow!("this is no letter: {line}")));
        };
        let to: usize = to.parse().map_err(Failure::refused)?;
        let line = format!(in rt.alloc(); "from {i} {hex}")?;
        self.place(to)?.lines.push(line)?;
        Ok(())
    }

    fn carry_all(&mut self, rt: &HostRuntime, i: usize, out: &[u8]) -> Result<(), Failure> {
        let text = str::from_utf8(out).map_err(Failure::refused)?;
        for line in text.lines() {
            self.carry(rt, i, line)?;
        }
        Ok(())
    }

    // The station does so many turns at most; whether it rests.
    pub fn work(&mut self, rt: &HostRuntime, i: usize, turns: u64) -> Result<bool, Failure> {
        let mut out = Vec::new(rt.alloc());
        let done = self.place(i)?.station()?.work(rt, &mut out, turns);
        self.carry_all(rt, i, out.as_slice())?;
        done
    }

    pub fn hear(&mut self, rt: &HostRuntime, i: usize, line: &str) -> Result<(), Failure> {
        let mut out = Vec::new(rt.alloc());
        let done = self
            .place(i)?
            .station()?
            .hear(rt, &mut out, line.as_bytes());
        self.carry_all(rt, i, out.as_slice())?;
        done
    }

    // The lines that are on the way to the station, which takes them.
    fn lines(&mut self, rt: &HostRuntime, i: usize) -> Result<Vec<String>, Failure> {
        Ok(mem::replace(&mut self.place(i)?.lines, Vec::new(rt.alloc())))
    }

    // The station works, is poked, and hears all that is on the way to it; whether that was anything.
    fn turn(&mut self, rt: &HostRuntime, i: usize) -> Result<bool, Failure> {
        self.work(rt, i, u64::MAX)?;
        self.hear(rt, i, "poke")?;
        self.work(rt, i, u64::MAX)?;
        let lines = self.lines(rt, i)?;
        let hears = !lines.is_empty();
        for line in lines {
            self.hear(rt, i, line.as_str())?;
            self.work(rt, i, u64::MAX)?;
        }
        Ok(hears)
    }

    // Letters go to and fro till none is on the way; then all rest.
    pub fn calm(&mut self, rt: &HostRuntime) -> Result<(), Failure> {
        for _ in 0..ROUNDS {
            let mut hears = false;
            for i in 0..8 {
                hears |= self.turn(rt, i)?;
            }
            if !hears {
                return Ok(());
            }
        }
        Err(Failure::Wrong(anyhow!("letters go to and fro without end")))
    }

    // The station does turns till it rests, or there are none left; how many are left then.
    fn spend(&mut self, rt: &HostRuntime, i: usize, turns: u64) -> Result<u64, Failure> {
        for left in (0..turns).rev() {
            if self.work(rt, i, 1)? {
                return Ok(left);
            }
        }
        Ok(0)
    }

    // A turn of the station, which has so many turns left.
    fn spend_turn(&mut self, rt: &HostRuntime, i: usize, turns: u64) -> Result<u64, Failure> {
        let mut left = self.spend(rt, i, turns)?;
        for line in self.lines(rt, i)? {
            if left == 0 {
                return Ok(0);
            }
            self.hear(rt, i, line.as_str())?;
            left = self.spend(rt, i, left)?;
        }
        Ok(left)
    }

    // All work till the station has done so many turns, or for some rounds; then it is let go of. How many turns it had left.
    pub fn strike(&mut self, rt: &HostRuntime, i: usize, turns: u64) -> Result<u64, Failure> {
        let mut left = turns;
        for _ in 0..10 {
            left = self.spend_turn(rt, i, left)?;
            if left == 0 {
                break;
            }
            for other in (0..8).filter(|other| *other != i) {
                self.turn(rt, other)?;
            }
        }
        self.let_go(rt, i)?;
        Ok(left)
    }
}
