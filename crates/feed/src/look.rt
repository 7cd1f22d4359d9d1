// What the system knows of a file, and where a link leads.
use std::fs;
use std::fs::{File, Metadata};
use std::io::Error;
use std::os::unix::fs::MetadataExt;
use std::path::PathBuf;

#[derive(Clone, Copy, PartialEq, Eq)]
pub struct Owner {
    pub user: u32,
    pub group: u32,
}

// The two numbers that no other file has.
#[derive(Clone, Copy, PartialEq, Eq)]
pub struct Place {
    pub device: u64,
    pub number: u64,
}

#[derive(Clone, Copy)]
pub struct Known {
    pub is_regular: bool,
    pub mode: u32,
    pub owner: Owner,
    pub place: Place,
}

impl From<Metadata> for Known {
    fn from(found: Metadata) -> Known {
        Known {
            is_regular: found.is_file(),
            mode: found.mode(),
            owner: Owner {
                user: found.uid(),
                group: found.gid(),
            },
            place: Place {
                device: found.dev(),
                number: found.ino(),
            },
        }
    }
}

// Of an open file.
pub(crate) fn look(file: &File) -> Result<Known, Error> {
    file.metadata().map(Known::from)
}

// Of the file behind a path, through links.
pub(crate) fn look_at(rt: &HostRuntime, path: &str) -> Result<Known, Error> {
    fs::metadata(rt, path).map(Known::from)
}

// A link's text, or none where there is no link.
pub(crate) fn read_link(rt: &HostRuntime, path: &str) -> Result<Option<PathBuf>, Error> {
    match fs::read_link(rt, path) {
        Ok(text) => Ok(Some(text)),
        Err(error) if error.raw_os_error().is_some() => Ok(None),
        Err(error) => Err(error),
    }
}
