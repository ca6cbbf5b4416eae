//! The system's files and output.
ghost use Rattle.std.specs.Prelude.{◌≡◌, ◌≢◌, ◌<◌, ◌-◌, ◌^◌, ◌≤◌, length, vec_len, IfOk, IfSome, OnOk};
ghost use Rattle.std.specs.Io.KnownBytes.{Appends};
ghost use Rattle.io_edge.specs.Faults.{faults_after_read, faults_after_write, faults_after_put};
ghost use Rattle.io_edge.specs.Outside.{FaultsNeverFall, ReadAnswers, WriteAnswers, PutAnswers};
ghost use Rattle.io_edge.specs.Untold.{folder_with_faults, sink_with_faults};

use crate::{Folder, PutAnswer, ReadAnswer, Sink, WriteAnswer};
use std::alloc::{AllocError, Global};
use std::fs;
use std::io::{self, ErrorKind, Print, Read, Write};
use std::marker::Model;
use std::os::unix::fs::MetadataExt;
use std::rt::Files;
use text_names::{Bytes, Text};

/// The files of the system, by their paths. Contracts see the count of its faults.
///
/// It tells nothing of what the files hold, and counts each error of the system once, an
/// interrupted call too. A write begins by making the file empty, so after a failure its old
/// content may be gone.
///
/// No file is lost by a second spelling of its name. A write whose name leads to a file that this
/// folder was asked for under another name fails, is counted and leaves the file alone: `./a` or
/// `b/../a` after `a`, an absolute path after a relative one, and symbolic and hard links. A name
/// is written again under its own spelling. Two names lead to one file if both lead to regular
/// files to which the system gives the same device and the same number. So these are not noticed:
/// names that another program moves between that look and the write, a file system that gives one
/// file two numbers, and pipes and devices.
#[derive(Drop)]
pub struct RealFolder<'a, R> {
    rt: &'a R,
    // The names of the calls so far, each once.
    names: Vec<Text>,
    faults: u64,
}

impl<'a, R> Model for RealFolder<'a, R> {
    ghost use Rattle.std.specs.Prelude.{ℕ};

    ghost Value = { ℕ };

    ghost view = { λ folder. folder.faults };
}

/// The standard output. Contracts see the count of its faults.
///
/// It tells nothing of what was put, and counts each error of the system once, an interrupted call
/// too.
#[derive(Drop)]
pub struct StdSink<'a, R> {
    rt: &'a R,
    faults: u64,
}

impl<'a, R> Model for StdSink<'a, R> {
    ghost use Rattle.std.specs.Prelude.{ℕ};

    ghost Value = { ℕ };

    ghost view = { λ sink. sink.faults };
}

// Why a file was not read whole.
enum ReadFault {
    TooLong,
    Failed,
    OutOfMemory,
}

// Reads to the end, unless that is more than `max` bytes.
fn read_whole<R: Read>(alloc: Global, file: &mut R, max: u64) -> Result<Vec<u8>, ReadFault>
    ensures bound { IfOk result (λ bytes. vec_len bytes ≤ max) }
    ensures whole { IfOk result
        (λ bytes. IfSome (R.remaining file.old) (λ all. bytes.items ≡ all)) }
    ensures longer { result ≡ Err ReadFault.TooLong
        → IfSome (R.remaining file.old) (λ all. max < length all) }
    ensures limit { result ≡ Err ReadFault.TooLong → max < 2 ^ 64 - 1 }
{
    let mut bytes = Vec::new(alloc);
    let mut piece = [0; 4096];
    loop {
        let Ok(count) = file.read(&mut piece) else {
            return Err(ReadFault::Failed);
        };
        if count == 0 {
            return Ok(bytes);
        }
        if count as u64 > max - bytes.len() as u64 {
            return Err(ReadFault::TooLong);
        }
        bytes
            .extend_from_slice(&piece[..count])
            .map_err(|_| ReadFault::OutOfMemory)?;
    }
}

// Writes all bytes and flushes. A write that takes none of them is a fault.
#[tactic(auto, using(crate::proofs::WriteLemmas::appends_more, crate::proofs::WriteLemmas::take_within))]
fn write_whole<W: Write>(file: &mut W, bytes: &[u8]) -> io::Result<()>
    ensures { OnOk result (Appends (W.contents file.old) (W.contents file.new) bytes.now) }
{
    let mut written = 0;
    while written < bytes.len() {
        let count = file.write(&bytes[written..])?;
        if count == 0 {
            return Err(io::Error::from(ErrorKind::WriteZero));
        }
        written += count;
    }
    file.flush()
}

// Reads a file by its name.
fn read_file<R: Files>(rt: &R, alloc: Global, name: &Text, max: u64) -> Result<Vec<u8>, ReadFault>
    ensures bound { IfOk result (λ bytes. vec_len bytes ≤ max) }
    ensures limit { result ≡ Err ReadFault.TooLong → max < 2 ^ 64 - 1 }
{
    match fs::open(rt, name.as_str()) {
        Ok(mut file) => read_whole(alloc, &mut file, max),
        Err(_) => Err(ReadFault::Failed),
    }
}

// Writes a file by its name.
fn write_file<R: Files>(rt: &R, name: &Text, bytes: &[u8]) -> io::Result<()> {
    let mut file = fs::create(rt, name.as_str())?;
    write_whole(&mut file, bytes)
}

// The device and the number of the regular file that a name leads to, if the system tells them.
fn place_of_file<R: Files>(rt: &R, name: &Text) -> Option<(u64, u64)> {
    match fs::metadata(rt, name.as_str()) {
        Ok(told) if told.is_file() && told.ino() != 0 => Some((told.dev(), told.ino())),
        _ => None,
    }
}

// Whether a name leads to the same file as another one of these.
fn is_second_name<R: Files>(rt: &R, names: &[Text], name: &Text) -> bool {
    let Some(place) = place_of_file(rt, name) else {
        return false;
    };
    for known in names {
        if known.as_str() != name.as_str() && place_of_file(rt, known) == Some(place) {
            return true;
        }
    }
    false
}

// Adds a name to these, if it is not among them.
fn remember(alloc: Global, names: &mut Vec<Text>, name: &Text) -> Result<(), AllocError> {
    if names.iter().all(|known| known.as_str() != name.as_str()) {
        names.push(name.copy(alloc)?)?;
    }
    Ok(())
}

impl<'a, R: Files> RealFolder<'a, R> {
    /// The files that this runtime reaches. No fault is counted yet.
    pub fn new(rt: &'a R, alloc: Global) -> Self
        ensures faults { result ≡ 0 }
    {
        RealFolder {
            rt,
            names: Vec::new(alloc),
            faults: 0,
        }
    }
}

impl<'a, R: Files> Folder for RealFolder<'a, R> {
    ghost seen = { λ folder. folder_with_faults folder };

    fn read(&mut self, alloc: Global, name: &Text, max: u64) -> ReadAnswer
        ensures answer { ReadAnswers
            (folder_with_faults self.old) (folder_with_faults self.new) name.now max result }
        ensures later { FaultsNeverFall
            (folder_with_faults self.old) (folder_with_faults self.new) }

        // What this folder says beyond the trait.
        ensures limit { result ≡ ReadAnswer.TooLong → max < 2 ^ 64 - 1 }
        ensures faults { self.new ≡ faults_after_read self.old result }
    {
        if remember(alloc, &mut self.names, name).is_err() {
            return ReadAnswer::OutOfMemory;
        }
        match read_file(self.rt, alloc, name, max) {
            Ok(bytes) => ReadAnswer::Whole(Bytes::from_vec(bytes)),
            Err(ReadFault::TooLong) => ReadAnswer::TooLong,
            Err(ReadFault::OutOfMemory) => ReadAnswer::OutOfMemory,
            Err(ReadFault::Failed) => {
                self.faults = self.faults.saturating_add(1);
                ReadAnswer::Failed
            }
        }
    }

    fn write(&mut self, alloc: Global, name: &Text, bytes: &[u8]) -> WriteAnswer
        ensures answer { WriteAnswers
            (folder_with_faults self.old) (folder_with_faults self.new) name.now bytes.now result }
        ensures later { FaultsNeverFall
            (folder_with_faults self.old) (folder_with_faults self.new) }

        // What this folder says beyond the trait.
        ensures faults { self.new ≡ faults_after_write self.old result }
    {
        if remember(alloc, &mut self.names, name).is_err() {
            return WriteAnswer::OutOfMemory;
        }
        if is_second_name(self.rt, self.names.as_slice(), name)
            || write_file(self.rt, name, bytes).is_err()
        {
            self.faults = self.faults.saturating_add(1);
            return WriteAnswer::Failed;
        }
        WriteAnswer::Done
    }
}

impl<'a, R: Print> StdSink<'a, R> {
    /// The output of this runtime. No fault is counted yet.
    pub fn new(rt: &'a R) -> Self
        ensures faults { result ≡ 0 }
    {
        StdSink { rt, faults: 0 }
    }
}

impl<'a, R: Print> Sink for StdSink<'a, R> {
    ghost seen = { λ sink. sink_with_faults sink };

    fn put(&mut self, _alloc: Global, bytes: &[u8]) -> PutAnswer
        ensures answer { PutAnswers (sink_with_faults self.old) (sink_with_faults self.new)
            bytes.now result }
        ensures later { self.old ≤ self.new }

        // What this sink says beyond the trait.
        ensures faults { self.new ≡ faults_after_put self.old result }
        ensures no_memory { result ≢ PutAnswer.OutOfMemory }
    {
        match write_whole(&mut io::writer(self.rt), bytes) {
            Ok(()) => PutAnswer::Done,
            Err(_) => {
                self.faults = self.faults.saturating_add(1);
                PutAnswer::Failed
            }
        }
    }
}

#[cfg(test)]
mod tests {
    use super::*;
    use std::cell::RefCell;
    use std::fmt::Display;
    use std::os::unix::fs::symlink;
    use std::test::Fail;

    #[test]
    fn writes_and_reads_files(rt: HostRuntime) -> Result<(), Fail> {
        let alloc = rt.alloc();
        let name = Text::of(alloc, b"written")?;
        let bytes: Vec<u8> = (0..10_000u32).map(|n| (n % 251) as u8).collect(alloc)?;
        let mut folder = RealFolder::new(&rt, alloc);
        let answer = folder.write(alloc, &name, bytes.as_slice());
        assert_eq!(rt; answer, WriteAnswer::Done);
        let answer = folder.read(alloc, &name, 10_000);
        assert!(rt;
            matches!(&answer, ReadAnswer::Whole(read) if read.as_slice() == bytes.as_slice())
        );
        let answer = folder.read(alloc, &name, 9_999);
        assert!(rt; matches!(answer, ReadAnswer::TooLong));
        let answer = folder.read(alloc, &Text::of(alloc, b"missing")?, 9);
        assert!(rt; matches!(answer, ReadAnswer::Failed));
        fs::remove_file(&rt, name.as_str())?;
        Ok(())
    }

    #[test]
    fn spares_files_with_second_names(rt: HostRuntime) -> Result<(), Fail> {
        let alloc = rt.alloc();
        fs::create_dir(&rt, "two")?;
        fs::create_dir(&rt, "two/in")?;
        for name in ["two/a", "two/b", "two/in/c"] {
            fs::write(&rt, name, name)?;
        }
        symlink(&rt, "a", "two/link")?;
        symlink(&rt, "nowhere", "two/dangling")?;
        symlink(&rt, "../a", "two/in/link")?;
        fs::hard_link(&rt, "two/b", "two/hard")?;
        let whole = fs::canonicalize(&rt, "two/a")?;
        let whole = whole.as_path().to_str().unwrap_or("two/in/c");
        for (read, write, answer) in [
            ("two/a", "./two/a", WriteAnswer::Failed),
            ("two/a", "two/in/../a", WriteAnswer::Failed),
            ("two/a", "two//a", WriteAnswer::Failed),
            ("two/a", whole, WriteAnswer::Failed),
            ("two/a", "two/link", WriteAnswer::Failed),
            ("two/link", "two/a", WriteAnswer::Failed),
            ("two/link", "two/in/link", WriteAnswer::Failed),
            ("two/b", "two/hard", WriteAnswer::Failed),
            ("two/b", "two/b", WriteAnswer::Done),
            ("two/missing", "two/in/../fresh", WriteAnswer::Done),
            ("two/a", "two/in/new", WriteAnswer::Done),
            ("two/nowhere", "two/dangling", WriteAnswer::Done),
            ("two/in/c", "two/in/c", WriteAnswer::Done),
        ] {
            let mut folder = RealFolder::new(&rt, alloc);
            let _read = folder.read(alloc, &Text::of(alloc, read.as_bytes())?, 9);
            let name = Text::of(alloc, write.as_bytes())?;
            let before = fs::read(&rt, write).ok();
            assert_eq!(rt;
                folder.write(alloc, &name, b"new"),
                answer,
                "{read} then {write}"
            );
            let after = fs::read(&rt, write).ok();
            let kept = before.as_deref() == after.as_deref();
            assert_eq!(rt; kept, answer == WriteAnswer::Failed, "{read} then {write}");
        }
        fs::remove_dir_all(&rt, "two")?;
        Ok(())
    }

    // An output that keeps what is written, at most four bytes at a time.
    #[derive(Drop)]
    struct Kept {
        bytes: RefCell<Vec<u8>>,
    }

    impl Print for Kept {
        fn print<D: Display + Drop>(&self, _value: D) -> io::Result<()> {
            Err(io::Error::from(ErrorKind::Unsupported))
        }

        fn println<D: Display + Drop>(&self, _value: D) -> io::Result<()> {
            Err(io::Error::from(ErrorKind::Unsupported))
        }

        fn write_all(&self, bytes: &[u8]) -> io::Result<()> {
            let Ok(mut kept) = self.bytes.try_borrow_mut() else {
                return Err(io::Error::from(ErrorKind::ResourceBusy));
            };
            kept.extend_from_slice(bytes)
                .map_err(|_| io::Error::from(ErrorKind::OutOfMemory))
        }

        fn write_some(&self, bytes: &[u8]) -> io::Result<usize> {
            let count = bytes.len().min(4);
            self.write_all(&bytes[..count])?;
            Ok(count)
        }
    }

    #[test]
    fn puts_whole_lines(rt: HostRuntime) -> Result<(), Fail> {
        let output = Kept {
            bytes: RefCell::new(Vec::new(rt.alloc())),
        };
        let mut sink = StdSink::new(&output);
        for line in [b"a line\n".as_slice(), b"", b"another\n"] {
            assert_eq!(rt; sink.put(rt.alloc(), line), PutAnswer::Done, "{line:?}");
        }
        assert_eq!(rt;
            output.bytes.try_borrow()?.as_slice(),
            b"a line\nanother\n".as_slice()
        );
        Ok(())
    }
}
