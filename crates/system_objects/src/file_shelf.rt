//! The files of the system as a shelf.
ghost use Rattle.std.specs.Prelude.{◌≡◌, ◌≢◌, ◌++◌, ◌∷◌, ℕ, ◌+◌, ◌-◌, ◌^◌, ◌<◌, ◌≤◌, [], true, false, None, Ok, Some, length, slice_get, IfErr, IfNone, IfOk, IfSome, IsErr, OnErr, OnSome};
ghost use Rattle.std.specs.Io.KnownBytes.{ReadConsumes};
ghost use Rattle.std.specs.IoError.{error_kind};
ghost use Rattle.av_base.specs.Told.{HasCause};
ghost use Rattle.system_objects.specs.Known.{left_in};
ghost use Rattle.system_objects.specs.Missing.{is_missing as says_missing};

use crate::opened_file::OpenedFile;
use av_base::{Fault, Shelf};
use std::alloc::Global;
use std::fs::File;
use std::io::{self, ErrorKind};
use std::rt::{Clock, Files};

/// The files of the system as a shelf. Each error counts as a fault, but for a name that isn't there. As a shelf it tells no names and no
/// bytes; where it is known what remains of an opened file, the clause `known` of `read` says what becomes of these bytes.
#[derive(Drop)]
pub struct FileShelf<R: Files + Clock> {
    runtime: R,
    opened: Vec<OpenedFile<R::File>>,
    faults: u64,
}

impl<R: Files + Clock> FileShelf<R> {
    /// The files that the runtime reaches.
    pub fn new(alloc: Global, runtime: R) -> FileShelf<R>
        ensures opened { result.opened.items ≡ [] }
        ensures faults { result.faults ≡ 0 }
    {
        FileShelf {
            runtime,
            opened: Vec::new(alloc),
            faults: 0,
        }
    }

    /// What the system answered when a file was to be opened: its number, or `None` where its name isn't there. Each other error is a
    /// fault, and so is a file over the 4,294,967,295th and one for which there is no memory.
    pub fn answer(&mut self, opened: io::Result<R::File>) -> Result<Option<u32>, Fault>
        ensures file { IfOk opened (λ _. IfOk result (λ number. number ≡ Some (length self.old.opened.items))) }
        ensures missing { IfErr opened (λ error. says_missing (error_kind error) ≡ true → result ≡ Ok None) }
        ensures fault { IfErr opened (λ error. says_missing (error_kind error) ≡ false → IsErr result) }
        ensures kept { IfOk opened (λ file. IfOk result (λ _.
            self.new.opened.items ≡ self.old.opened.items ++ record { reader = Some file } ∷ [])) }
        ensures room { IfOk result (λ number. IfSome number (λ _. length self.old.opened.items < 2 ^ 32 - 1)) }
        ensures none { IfOk result (λ number. IfNone number (self.new.opened.items ≡ self.old.opened.items)) }
        ensures err { OnErr result (self.new.opened.items ≡ self.old.opened.items) }
        ensures cause { HasCause self.old.faults self.new.faults result }
    {
        match found(opened) {
            Ok(Some(file)) => match self.keep(file) {
                Some(number) => Ok(Some(number)),
                None => {
                    self.faults = self.faults.saturating_add(1);
                    Err(Fault)
                }
            },
            Ok(None) => Ok(None),
            Err(Fault) => {
                self.faults = self.faults.saturating_add(1);
                Err(Fault)
            }
        }
    }

    // Keeps a file, and answers its number. There is none where as many files were opened as have numbers, or where there is no memory.
    fn keep(&mut self, file: R::File) -> Option<u32>
        ensures number { IfSome result (λ number. number ≡ length self.old.opened.items) }
        ensures room { OnSome result (length self.old.opened.items < 2 ^ 32 - 1) }
        ensures kept { OnSome result (self.new.opened.items
            ≡ self.old.opened.items ++ record { reader = Some file } ∷ []) }
        ensures none { IfNone result (self.new.opened.items ≡ self.old.opened.items) }
        ensures faults { self.new.faults ≡ self.old.faults }
    {
        let Ok(number) = u32::try_from(self.opened.len()) else {
            return None;
        };
        if number == u32::MAX {
            return None;
        }
        match self.opened.push(OpenedFile::new(file)) {
            Ok(()) => Some(number),
            Err(_) => None,
        }
    }
}

impl<R: Files + Clock> Shelf for FileShelf<R> {
    ghost files = { λ _. None };

    ghost opened = { λ shelf. length shelf.opened.items };

    ghost faults = { λ shelf. shelf.faults };

    ghost numbered = { λ _. tt };

    fn open_file(&mut self, name: &str) -> Result<Option<u32>, Fault> {
        let opened = File::open(&self.runtime, name);
        self.answer(opened)
    }

    fn read(&mut self, file: u32, buf: &mut [u8]) -> Result<usize, Fault>
        requires some_room { 0 < length buf.old }
        requires given { file < length self.old.opened.items }
        ensures bound { IfOk result (λ n. n ≤ length buf.new) }
        ensures opened { length self.new.opened.items ≡ length self.old.opened.items }
        ensures cause { HasCause self.old.faults self.new.faults result }

        // The other files stay as they are.
        ensures others { (other : ℕ) → other ≢ file
            → slice_get self.new.opened.items other ≡ slice_get self.old.opened.items other }

        // Where it is known what remains of the file, these bytes are given as they are, 0 comes only at their end, and at a fault none is
        // lost. Of a file that was let go nothing remains.
        ensures known { IfSome (slice_get self.old.opened.items file) (λ old.
            IfSome (slice_get self.new.opened.items file) (λ new.
            ReadConsumes (left_in R.File.remaining old.reader) (left_in R.File.remaining new.reader) result buf.new)) }
    {
        match self.opened[file as usize].read(&self.runtime, buf) {
            Ok(count) => Ok(count),
            Err(Fault) => {
                self.faults = self.faults.saturating_add(1);
                Err(Fault)
            }
        }
    }

    fn close_file(&mut self, file: u32)
        requires given { file < length self.old.opened.items }
        ensures opened { length self.new.opened.items ≡ length self.old.opened.items }
        ensures faults { self.new.faults ≡ self.old.faults }

        // The file is dropped, so the system lets it go; the others stay as they are.
        ensures dropped { slice_get self.new.opened.items file ≡ Some (record { reader = None }) }
        ensures others { (other : ℕ) → other ≢ file
            → slice_get self.new.opened.items other ≡ slice_get self.old.opened.items other }
    {
        self.opened[file as usize].let_go();
    }
}

// The file that was opened, or `None` where its name isn't there; each other error is a fault.
fn found<F: Drop>(opened: io::Result<F>) -> Result<Option<F>, Fault>
    ensures file { IfOk opened (λ file. result ≡ Ok (Some file)) }
    ensures missing { IfErr opened (λ error. says_missing (error_kind error) ≡ true → result ≡ Ok None) }
    ensures fault { IfErr opened (λ error. says_missing (error_kind error) ≡ false → IsErr result) }
{
    match opened {
        Ok(file) => Ok(Some(file)),
        Err(error) if is_missing(error.kind()) => Ok(None),
        Err(_) => Err(Fault),
    }
}

// Whether such an error says that a name isn't there.
fn is_missing(kind: ErrorKind) -> bool
    ensures { result ≡ says_missing kind }
{
    matches!(
        kind,
        ErrorKind::NotFound
            | ErrorKind::NotADirectory
            | ErrorKind::InvalidFilename
            | ErrorKind::FilesystemLoop
    )
}
