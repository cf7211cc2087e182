// The wall as a file: rows are put behind those that it has.
use anyhow::anyhow;
use rows::Row;
use status::Failure;
use std::fs::{File, OpenOptions};
use std::io;
use std::io::{Read, Seek, SeekFrom, Write};
use std::path::Path;
use wall_reader::{TailMistake, whole_rows};

// How much of a wall's end is read at a start, in bytes: over 800 rows, however long they are.
const TAIL: u64 = 65_536;

#[derive(Drop)]
pub struct Wall {
    path: String,
    file: File,
}

// The end of a wall, from where a line begins.
#[derive(Drop)]
struct Tail {
    // How many bytes stand before it.
    from: u64,
    text: Vec<u8>,
    // Before it, so much was read that it begins with no line.
    is_lineless: bool,
}

// Reads the last bytes of a wall, at most `TAIL`; what it reads of a line that begins before them is left out.
fn read_tail(rt: &HostRuntime, file: &mut File) -> io::Result<Tail> {
    let heap = rt.alloc();
    let length = file.seek(SeekFrom::End(0))?;
    let from = file.seek(SeekFrom::Start(length.saturating_sub(TAIL)))?;
    let mut text = Vec::new(heap);
    file.take(TAIL).read_to_end(&mut text)?;
    if from == 0 {
        return Ok(Tail {
            from,
            text,
            is_lineless: false,
        });
    }
    let end = text.iter().position(|byte| *byte == b'\n');
    let cut = end.map_or(0, |at| at + 1);
    Ok(Tail {
        from: from.saturating_add(cut as u64),
        text: Vec::from_slice(heap, &text[cut..])?,
        is_lineless: end.is_none(),
    })
}

// How many bytes of a wall are rows, where its end is that of a wall.
fn end_of_rows(rt: &HostRuntime, tail: &Tail) -> Result<u64, TailMistake> {
    if tail.is_lineless {
        return Err(TailMistake::Torn);
    }
    let whole = whole_rows(rt.alloc(), tail.text.as_slice())?;
    Ok(tail.from.saturating_add(whole as u64))
}

// Cuts off a last line that a kill left unfinished: without its end it never was a row.
fn cut(rt: &HostRuntime, file: &File, path: &str, end: u64) -> io::Result<()> {
    if end < file.metadata()?.len() {
        file.set_len(end)?;
    }
    file.sync_all()?;
    sync_folder(rt, path)
}

// The folder that holds a file.
pub fn folder_of(path: &str) -> Path<'_> {
    Path::new(path)
        .parent()
        .filter(|folder| !folder.as_os_str().is_empty())
        .unwrap_or(Path::new("."))
}

// Syncs the folder that holds the file: a file that is new is there after a power cut only then.
fn sync_folder(rt: &HostRuntime, path: &str) -> io::Result<()> {
    File::open(rt, folder_of(path))?.sync_all()
}

// Puts a line behind all that there is, while no other station changes the wall.
fn append(file: &mut File, line: &[u8]) -> io::Result<()> {
    file.lock()?;
    let written = file.write_all(line);
    let synced = written.and_then(|()| file.sync_all());
    file.unlock()?;
    synced
}

// Looks at the wall's end, and cuts off what is no whole line.
fn settle(rt: &HostRuntime, file: &mut File, path: &str) -> Result<(), Failure> {
    let tail = read_tail(rt, file).map_err(|error| Failure::Refused(anyhow!(
        "the wall {path} cannot be read: {error}"
    )))?;
    let end = end_of_rows(rt, &tail).map_err(|mistake| Failure::Refused(anyhow!(
        "{path} is no wall: {mistake}"
    )))?;
    cut(rt, file, path, end).map_err(|error| Failure::Wrong(anyhow!(
        "the wall {path} cannot be written: {error}"
    )))
}

impl Wall {
    // Opens a wall that ends as one does, and changes nothing of another.
    pub fn open(rt: &HostRuntime, path: &str) -> Result<Wall, Failure> {
        let mut file = OpenOptions::new()
            .read(true)
            .append(true)
            .create(true)
            .open(rt, path)
            .map_err(|error| Failure::Refused(anyhow!(
                "the wall {path} cannot be opened: {error}"
            )))?;
        // Other stations put their rows on the same wall: none does between the look at its end and the cut.
        file.lock().map_err(|error| Failure::Wrong(anyhow!(
            "the wall {path} cannot be locked: {error}"
        )))?;
        settle(rt, &mut file, path)?;
        file.unlock().map_err(|error| Failure::Wrong(anyhow!(
            "the wall {path} cannot be unlocked: {error}"
        )))?;
        Ok(Wall {
            path: format!(in rt.alloc(); "{path}")?,
            file,
        })
    }

    // The row is on the wall when this returns.
    pub fn tell(&mut self, rt: &HostRuntime, row: Row) -> anyhow::Result<()> {
        let line = format!(in rt.alloc(); "{row}\n")?;
        let path = self.path.as_str();
        append(&mut self.file, line.as_str().as_bytes()).map_err(|error| anyhow!(
            "the wall {path} cannot be written: {error}"
        ))
    }
}
