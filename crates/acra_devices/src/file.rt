ghost use Rattle.std.specs.Prelude.{◌≡◌, None, IfOk};

use crate::device::Failed;
use crate::keeper::Keeper;
use acra_base::NoMemory;
use std::alloc::Global;
use std::fs::{self, OpenFile, OpenOptions};
use std::io::{self, ErrorKind, Write};
use std::os::unix::fs::OpenOptionsExt;
use std::rt::Files;

// A new file is its owner's alone to read and to write.
const OWNER_ALONE: u32 = 0o600;

/// A file of a folder, as a keeper of its bytes. It tells nothing.
///
/// `replace` writes and syncs a new file beside it, whose name has `.new` at its end, and renames that
/// over it; the file is the old or the new one whatever happens, also after a crash. `append` writes
/// and syncs; what it wrote of a piece that failed is cut off, at the latest before the next piece.
/// Files are created readable by their owner alone.
#[derive(Drop)]
pub struct FileKeeper<F: Files + Drop> {
    files: F,
    folder: String,
    path: String,
    beside: String,
    // The length to which the file is to be cut, where that failed.
    torn: Option<u64>,
    faults: u64,
}

impl<F: Files + Drop> FileKeeper<F> {
    /// The file of this name in this folder, with no fault counted. The file need not be there yet.
    pub fn new(alloc: Global, files: F, folder: &str, name: &str) -> Result<Self, NoMemory>
        ensures { IfOk result (λ k. ⟦<FileKeeper<F> as Keeper>⟧.keeper_faults k ≡ 0) }
    {
        Ok(FileKeeper {
            files,
            folder: String::from_str(alloc, folder)?,
            path: format!(in alloc; "{folder}/{name}")?,
            beside: format!(in alloc; "{folder}/{name}.new")?,
            torn: None,
            faults: 0,
        })
    }

    // Makes what is renamed or created in the folder last.
    fn sync_folder(&self) -> io::Result<()> {
        fs::open(&self.files, self.folder.as_str())?.sync_all()
    }

    fn write_beside(&self, whole: &[u8]) -> io::Result<()> {
        match fs::remove_file(&self.files, self.beside.as_str()) {
            Err(why) if why.kind() != ErrorKind::NotFound => return Err(why),
            _ => {}
        }
        let mut options = OpenOptions::new();
        options.write(true).create_new(true).mode(OWNER_ALONE);
        let mut file = options.open(&self.files, self.beside.as_str())?;
        file.write_all(whole)?;
        file.sync_all()
    }

    fn put_in_place(&mut self, whole: &[u8]) -> io::Result<()>
        ensures { self.new.faults ≡ self.old.faults }
    {
        self.write_beside(whole)?;
        fs::rename(&self.files, self.beside.as_str(), self.path.as_str())?;
        self.torn = None;
        self.sync_folder()
    }

    fn write_end(&self, file: &mut F::File, piece: &[u8], len: u64) -> io::Result<()> {
        file.write_all(piece)?;
        file.sync_all()?;
        if len == 0 {
            self.sync_folder()?;
        }
        Ok(())
    }

    fn put_at_end(&mut self, piece: &[u8]) -> io::Result<()>
        ensures { self.new.faults ≡ self.old.faults }
    {
        let mut options = OpenOptions::new();
        options.append(true).create(true).mode(OWNER_ALONE);
        let mut file = options.open(&self.files, self.path.as_str())?;
        if let Some(len) = self.torn {
            file.set_len(len)?;
            self.torn = None;
        }
        let len = file.metadata()?.len();
        let written = self.write_end(&mut file, piece, len);
        if written.is_err() && cut(&file, len).is_err() {
            self.torn = Some(len);
        }
        written
    }
}

fn cut<O: OpenFile>(file: &O, len: u64) -> io::Result<()> {
    file.set_len(len)?;
    file.sync_all()
}

impl<F: Files + Drop> Keeper for FileKeeper<F> {
    ghost kept = { λ _. None };

    ghost keeper_faults = { λ k. k.faults };

    fn append(&mut self, piece: &[u8]) -> Result<(), Failed> {
        match self.put_at_end(piece) {
            Ok(()) => Ok(()),
            Err(_) => {
                self.faults = self.faults.saturating_add(1);
                Err(Failed)
            }
        }
    }

    fn replace(&mut self, whole: &[u8]) -> Result<(), Failed> {
        match self.put_in_place(whole) {
            Ok(()) => Ok(()),
            Err(_) => {
                self.faults = self.faults.saturating_add(1);
                Err(Failed)
            }
        }
    }
}
