// The memory's file. A new file beside it, MEMORY.new, is made before anything runs: it is the lock, and it takes the old one's place only when
// it is whole.
use crate::look;
use crate::look::Known;
use crate::refusal::{Unfit, Unsaved, tell_unlocked};
use arrayvec::ArrayString;
use report::Exit;
use std::fs;
use std::fs::{File, OpenOptions, Permissions};
use std::io::{Error, Read};
use std::os::fd::{AsFd, AsRawFd};
use std::os::unix::fs::{PermissionsExt, fchown};
use std_io::io::last_error;

// A path that the system takes.
type Path = ArrayString<4095>;

// Links are followed: the file behind them gets the memory.
pub(crate) fn run_over(rt: &HostRuntime, path: &[u8]) -> Exit {
    match find(rt, path) {
        Ok(real) => run_under_lock(rt, real.as_str()),
        Err(why) => why.tell(path),
    }
}

// The regular file that a path leads to, by a name that is no link.
fn find(rt: &HostRuntime, path: &[u8]) -> Result<Path, Unfit> {
    if 4095 < path.len() {
        return Err(Unfit::TooLong);
    }
    let Ok(path) = str::from_utf8(path) else {
        return Err(Unfit::NotText);
    };
    regular(look::look_at(rt, path)?)?;
    follow(rt, path)?.ok_or(Unfit::Endless)
}

fn regular(known: Known) -> Result<Known, Unfit> {
    if known.is_regular {
        Ok(known)
    } else {
        Err(Unfit::Irregular)
    }
}

// The path with its last part's links followed, of which the system takes forty; none where that does not end or is too long.
fn follow(rt: &HostRuntime, path: &str) -> Result<Option<Path>, Error> {
    let Ok(mut real) = Path::from(path) else {
        return Ok(None);
    };
    for _ in 0..41 {
        let Some(text) = look::read_link(rt, real.as_str())? else {
            return Ok(Some(real));
        };
        let Some(next) = behind(real.as_str(), text.as_path().as_str()) else {
            return Ok(None);
        };
        real = next;
    }
    Ok(None)
}

// The path behind a link: the link's text counts from the folder that the link is in, unless it begins with a stroke. None where no path is so long.
fn behind(link: &str, text: &str) -> Option<Path> {
    let mut path = Path::new();
    if !text.starts_with('/') {
        if let Some((folder, _)) = link.rsplit_once('/') {
            path.try_push_str(folder).ok()?;
            path.try_push('/').ok()?;
        }
    }
    path.try_push_str(text).ok()?;
    Some(path)
}

fn run_under_lock(rt: &HostRuntime, path: &str) -> Exit {
    let mut new = ArrayString::<4099>::new();
    let _ = new.try_push_str(path);
    let _ = new.try_push_str(".new");
    let new = new.as_str();
    let made = OpenOptions::new()
        .write(true)
        .create_new(true)
        .open(rt, new);
    match made {
        Ok(file) => Lock {
            rt,
            path,
            new,
            file,
        }
        .run(),
        Err(error) => tell_unlocked(new.as_bytes(), &error),
    }
}

// The new file, which nobody else has made meanwhile, and the names of both.
#[derive(Drop)]
struct Lock<'a> {
    rt: &'a HostRuntime,
    path: &'a str,
    new: &'a str,
    file: File,
}

impl Lock<'_> {
    // The lock goes where the run ends, unless it has become the file.
    fn run(self) -> Exit {
        match self.run_and_save() {
            Ok(exit) => exit,
            Err(why) => {
                let exit = why.tell(self.path.as_bytes(), self.new.as_bytes());
                if self.is_ours() {
                    let _ = fs::remove_file(self.rt, self.new);
                }
                exit
            }
        }
    }

    // Whether the lock's name still means the file that was made: somebody may have removed it, and another feed have made its own.
    fn is_ours(&self) -> bool {
        match (look::look(&self.file), look::look_at(self.rt, self.new)) {
            (Ok(made), Ok(named)) => made.place == named.place,
            _ => false,
        }
    }

    // Nothing else changes the old file now. What is read here is of the file that was opened, whatever its name has come to mean.
    // (The memory is a MiB of this function's frame: in that of `main` each run would take it, also one that has no memory.)
    #[inline(never)]
    fn run_and_save(&self) -> Result<Exit, Unsaved> {
        // Where standard input, output or error is closed, the first file that is opened takes its place, and answers or messages would go into it.
        if self.file.as_raw_fd() <= report::STDERR {
            return Err(Unsaved::NoStream);
        }
        let old = OpenOptions::new()
            .read(true)
            .write(true)
            .open(self.rt, self.path)
            .map_err(Unsaved::Unopened)?;
        let Ok(known) = look::look(&old) else {
            return Err(Unsaved::Unfit(Unfit::Irregular));
        };
        self.make_alike(known)?;
        let mut memory = [0u8; 1048576];
        self.run_in(&mut memory, old, known)
    }

    // The old file's bytes are put in the memory, which is lent to the run, and then written.
    fn run_in(&self, memory: &mut [u8; 1048576], old: File, known: Known) -> Result<Exit, Unsaved> {
        let memory = load(old, memory)?;
        let exit = crate::run(self.rt, memory).map_err(Unsaved::Ran)?;
        self.save(known, memory)?;
        Ok(exit)
    }

    // The new file gets the old one's owner and mode.
    fn make_alike(&self, known: Known) -> Result<(), Unsaved> {
        regular(known)?;
        if is_output(self.rt, known) {
            return Err(Unsaved::IsOutput);
        }
        let owner = known.owner;
        let is_owned = look::look(&self.file).is_ok_and(|made| made.owner == owner);
        if !is_owned {
            fchown(self.file.as_fd(), Some(owner.user), Some(owner.group)).map_err(
                Unsaved::Unowned,
            )?;
        }
        self.give_mode(known).map_err(Unsaved::Unmoded)
    }

    fn give_mode(&self, known: Known) -> Result<(), Error> {
        self.file
            .set_permissions(Permissions::from_mode(known.mode & 0o7777))
    }

    // The new file is whole, and on its device, before it takes the old one's place.
    fn save(&self, known: Known, memory: &[u8]) -> Result<(), Unsaved> {
        self.write(known, memory).map_err(Unsaved::Unwritten)?;
        if !self.is_ours() {
            return Err(Unsaved::Removed);
        }
        fs::rename(self.rt, self.new, self.path).map_err(Unsaved::Unwritten)
    }

    // The mode is given again after the bytes, since a write may take some of it away: the bits of a program that runs as its owner.
    fn write(&self, known: Known, memory: &[u8]) -> Result<(), Error> {
        if !io::write_all(self.file.as_raw_fd(), memory) {
            return Err(last_error());
        }
        self.give_mode(known)?;
        self.file.sync_all()
    }
}

// What standard output is, as a name of the system's own: std looks at no descriptor that it did not open.
const OUTPUT: &str = "/proc/self/fd/1";

// Whether standard output is the file. Where the system does not tell, it counts as another one.
fn is_output(rt: &HostRuntime, known: Known) -> bool {
    look::look_at(rt, OUTPUT).is_ok_and(|output| output.place == known.place)
}

// The file's bytes are the memory, if there are no more of them than fit.
fn load(mut old: File, memory: &mut [u8]) -> Result<&mut [u8], Unsaved> {
    let n = io::read_full(old.as_raw_fd(), memory);
    let mut past = [0u8; 1];
    match old.read(&mut past).map_err(Unfit::Unknown)? {
        0 => Ok(&mut memory[..n]),
        _ => Err(Unsaved::TooLarge),
    }
}
