use acra_devices::{Failed, Source};
use std::alloc::AllocError;
use std::fs;
use std::io::Read;
use std::rt::Files;

/// A file of the folder, as a source. It tells nothing. Each read of one that can't be opened fails.
#[derive(Drop)]
pub struct FileSource<F: Read + Drop> {
    file: Option<F>,
    faults: u64,
}

impl<F: Read + Drop> FileSource<F> {
    fn new(file: Option<F>) -> Self {
        FileSource { file, faults: 0 }
    }
}

impl<F: Read + Drop> FileSource<F> {
    /// The file of this name in the folder that is the first word.
    pub fn open<R: Files<File = F> + AllocGlobal>(
        rt: &R,
        words: &[String],
        name: &str,
    ) -> Result<Self, AllocError> {
        match words.first() {
            None => Ok(FileSource::new(None)),
            Some(folder) => {
                let path = format!(in rt.alloc(); "{folder}/{name}")?;
                Ok(FileSource::new(fs::open(rt, path.as_str()).ok()))
            }
        }
    }
}

impl<F: Read + Drop> Source for FileSource<F> {
    ghost use Rattle.std.specs.Prelude.{None};

    ghost left = { λ _. None };

    ghost read_faults = { λ s. s.faults };

    fn read(&mut self, buf: &mut [u8]) -> Result<usize, Failed> {
        if let Some(file) = &mut self.file {
            if let Ok(count) = file.read(buf) {
                return Ok(count);
            }
        }
        self.faults = self.faults.saturating_add(1);
        Err(Failed)
    }
}
