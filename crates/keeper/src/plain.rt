// Files by what they are and not by their names.
use anyhow::anyhow;
use std::fs;
use std::fs::Metadata;
use std::io::ErrorKind;
use std::os::unix::fs::MetadataExt;

// A file under whichever name: its device, and its number there.
#[derive(Clone, Copy, PartialEq, Eq, Debug)]
pub struct FileId {
    pub device: u64,
    pub inode: u64,
}

impl FileId {
    pub fn of(metadata: &Metadata) -> FileId {
        FileId {
            device: metadata.dev(),
            inode: metadata.ino(),
        }
    }
}

// A plain file that is there.
#[derive(Clone, Copy)]
pub struct PlainFile {
    pub id: FileId,
    pub bytes: u64,
}

// The plain file to which a path leads; none where nothing is there. A folder, a device, a pipe, and a link that leads
// nowhere, are refused before anything is read of them.
pub fn find_plain(rt: &HostRuntime, path: &str) -> anyhow::Result<Option<PlainFile>> {
    match fs::metadata(rt, path) {
        Ok(metadata) if metadata.is_file() => Ok(Some(PlainFile {
            id: FileId::of(&metadata),
            bytes: metadata.len(),
        })),
        Ok(_) => Err(anyhow!("{path} is no plain file")),
        Err(error) if error.kind() == ErrorKind::NotFound => {
            if fs::symlink_metadata(rt, path).is_ok() {
                return Err(anyhow!("{path} is a link that leads nowhere"));
            }
            Ok(None)
        }
        Err(error) => Err(anyhow!("{path} cannot be read: {error}")),
    }
}
