//! The keeper of a file.

use acra_devices::{Failed, FileKeeper, Keeper, ReaderSource, Source};
use std::fs::{self, Metadata, OpenFile, OpenOptions};
use std::io::{self, Read, Seek, SeekFrom, Write};
use std::os::unix::fs::MetadataExt;
use std::rt::Files;
use std::test::Fail;

/// The system's files, of which each takes this many bytes once it is opened.
#[derive(Drop)]
struct Narrow {
    rt: HostRuntime,
    room: usize,
}

#[derive(Drop)]
struct NarrowFile {
    file: fs::File,
    room: usize,
}

impl Read for NarrowFile {
    fn read(&mut self, buf: &mut [u8]) -> io::Result<usize> {
        self.file.read(buf)
    }
}

impl Write for NarrowFile {
    fn write(&mut self, buf: &[u8]) -> io::Result<usize> {
        let count = self.file.write(&buf[..buf.len().min(self.room)])?;
        self.room = self.room.saturating_sub(count);
        Ok(count)
    }

    fn flush(&mut self) -> io::Result<()> {
        Ok(())
    }
}

impl Seek for NarrowFile {
    fn seek(&mut self, to: SeekFrom) -> io::Result<u64> {
        self.file.seek(to)
    }
}

impl OpenFile for NarrowFile {
    fn metadata(&self) -> io::Result<Metadata> {
        self.file.metadata()
    }

    fn set_len(&self, size: u64) -> io::Result<()> {
        self.file.set_len(size)
    }

    fn sync_all(&self) -> io::Result<()> {
        self.file.sync_all()
    }

    fn sync_data(&self) -> io::Result<()> {
        self.file.sync_data()
    }
}

impl Files for Narrow {
    type File = NarrowFile;

    type Dir = <HostRuntime as Files>::Dir;

    fn open_file(&self, how: &OpenOptions, path: &str) -> io::Result<NarrowFile> {
        Ok(NarrowFile {
            file: self.rt.open_file(how, path)?,
            room: self.room,
        })
    }

    fn open_dir(&self, path: &str) -> io::Result<<HostRuntime as Files>::Dir> {
        self.rt.open_dir(path)
    }

    fn metadata(&self, path: &str) -> io::Result<Metadata> {
        self.rt.metadata(path)
    }

    fn symlink_metadata(&self, path: &str) -> io::Result<Metadata> {
        self.rt.symlink_metadata(path)
    }

    fn copy(&self, from: &str, to: &str) -> io::Result<u64> {
        self.rt.copy(from, to)
    }

    fn rename(&self, from: &str, to: &str) -> io::Result<()> {
        self.rt.rename(from, to)
    }

    fn remove_file(&self, path: &str) -> io::Result<()> {
        self.rt.remove_file(path)
    }

    fn create_dir(&self, path: &str) -> io::Result<()> {
        self.rt.create_dir(path)
    }

    fn remove_dir(&self, path: &str) -> io::Result<()> {
        self.rt.remove_dir(path)
    }

    fn remove_dir_all<B: std::alloc::Allocator>(&self, alloc: B, path: &str) -> io::Result<()> {
        self.rt.remove_dir_all(alloc, path)
    }
}

const FOLDER: &str = "keeper_test";

const FILE: &str = "keeper_test/file";

#[test]
fn keeps_a_file(rt: HostRuntime) -> Result<(), Fail> {
    let alloc = rt.alloc();
    let _ = fs::remove_dir_all(&rt, FOLDER);
    let mut keeper = FileKeeper::new(alloc, rt, FOLDER, "file")?;
    assert_eq!(rt; keeper.append(b"ab"), Err(Failed));
    assert_eq!(rt; keeper.replace(b"ab"), Err(Failed));

    fs::create_dir(&rt, FOLDER)?;
    assert_eq!(rt; keeper.append(b"ab"), Ok(()));
    assert_eq!(rt; keeper.append(b"cd"), Ok(()));
    assert_eq!(rt; fs::read(&rt, FILE)?.as_slice(), b"abcd".as_slice());
    assert_eq!(rt; fs::metadata(&rt, FILE)?.mode() & 0o777, 0o600);

    // What takes three bytes and no more leaves the file.
    let narrow = Narrow { rt, room: 3 };
    let mut short = FileKeeper::new(alloc, narrow, FOLDER, "file")?;
    assert_eq!(rt; short.append(b"efgh"), Err(Failed));
    assert_eq!(rt; short.replace(b"efgh"), Err(Failed));
    assert_eq!(rt; fs::read(&rt, FILE)?.as_slice(), b"abcd".as_slice());
    assert_eq!(rt; short.append(b"efg"), Ok(()));

    assert_eq!(rt; keeper.replace(b"xyz"), Ok(()));
    assert_eq!(rt; fs::metadata(&rt, FILE)?.mode() & 0o777, 0o600);
    assert!(rt; !fs::exists(&rt, "keeper_test/file.new")?);
    let mut source = ReaderSource::new(fs::open(&rt, FILE)?);
    let mut buf = [0; 8];
    assert_eq!(rt; source.read(&mut buf), Ok(3));
    assert_eq!(rt; &buf[..3], b"xyz".as_slice());
    assert_eq!(rt; source.read(&mut buf), Ok(0));
    fs::remove_dir_all(&rt, FOLDER)?;
    Ok(())
}
