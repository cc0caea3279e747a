//! Why a file is not read, in a line that names the file.

ghost use Rattle.std.specs.Prelude.{◌≡◌, ◌++◌, IfOk, OnErr, OnOk, map};
ghost use Rattle.std.specs.Io.KnownBytes.{Keeps};
ghost use Rattle.command_line.specs.FileNotes.{AddsNote, TellsUnread, file_note, reason_text, shown_byte};
ghost use Rattle.command_line.specs.WriterStates.{heard, WrittenBytes, WritesLine};

use crate::program::tell;
use byte_streams::FailStopWriter;
use script_run::RunFault;
use std::alloc::{AllocError, Global};
use std::io::{self, ErrorKind, Read, Write};

/// Why a file cannot be opened or read.
#[derive(Clone, Copy, Debug, PartialEq, Eq, Drop)]
pub enum FileFault {
    /// There is no such file.
    Missing,
    /// It is a folder.
    Folder,
    /// The system forbids it.
    Forbidden,
    /// Any other reason.
    Other,
}

/// What an error of the system says of a file.
pub(crate) fn file_fault(kind: ErrorKind) -> FileFault {
    if kind == ErrorKind::NotFound {
        return FileFault::Missing;
    }
    if kind == ErrorKind::IsADirectory {
        return FileFault::Folder;
    }
    if kind == ErrorKind::PermissionDenied {
        return FileFault::Forbidden;
    }
    FileFault::Other
}

/// A file that remembers why a read of it failed.
#[derive(Drop)]
pub(crate) struct NotingFile<File> {
    file: File,
    pub(crate) fault: Option<FileFault>,
}

impl<File: Read> NotingFile<File> {
    pub(crate) fn new(file: File) -> NotingFile<File>
        ensures { result.file ≡ file }
    {
        NotingFile { file, fault: None }
    }
}

impl<File: Read> Read for NotingFile<File> {
    ghost remaining = { λ noting. File.remaining noting.file };

    fn read(&mut self, buf: &mut [u8]) -> io::Result<usize> {
        match self.file.read(buf) {
            Ok(len) => Ok(len),
            Err(error) => {
                self.fault = Some(file_fault(error.kind()));
                Err(error)
            }
        }
    }
}

fn reason_text(fault: FileFault) -> &'static [u8]
    ensures { result.now ≡ reason_text fault }
{
    match fault {
        FileFault::Missing => b": no such file\n",
        FileFault::Folder => b": is a folder\n",
        FileFault::Forbidden => b": may not be read\n",
        FileFault::Other => b": cannot be read\n",
    }
}

fn shown_byte(byte: u8) -> u8
    ensures { result ≡ shown_byte byte }
{
    if byte < 32 || byte == 127 { b'?' } else { byte }
}

fn put_name(line: &mut Vec<u8>, name: &[u8]) -> Result<(), AllocError>
    ensures { OnOk result (line.new.items ≡ line.old.items ++ map shown_byte name.now) }
{
    for &byte in name {
        line.push(shown_byte(byte))?;
    }
    Ok(())
}

fn note_line(alloc: Global, name: &str, fault: FileFault) -> Result<Vec<u8>, AllocError>
    ensures { IfOk result (λ line. line.items ≡ file_note name.now fault) }
{
    let mut line = Vec::new(alloc);
    line.extend_from_slice(b"! ")?;
    put_name(&mut line, name.as_bytes())?;
    line.extend_from_slice(reason_text(fault))?;
    Ok(line)
}

fn write_note<Faults: Write>(line: Result<Vec<u8>, AllocError>, faults: &mut FailStopWriter<Faults>)
    ensures told { IfOk line (λ text. WritesLine (Faults.contents faults.old.writer) (heard Faults.contents faults.new) text.items) }
    ensures memory { OnErr line (Keeps (Faults.contents faults.old.writer) (Faults.contents faults.new.writer)) }
{
    if let Ok(text) = line {
        let _ = faults.finish(&text);
    }
}

/// Writes a line that names the file and the reason; nothing if there is no reason, or no memory for it.
pub(crate) fn add_note<Faults: Write>(
    alloc: Global,
    name: &str,
    fault: Option<FileFault>,
    faults: &mut FailStopWriter<Faults>,
)
    ensures { AddsNote name.now (Faults.contents faults.old.writer) (heard Faults.contents faults.new) }
{
    if let Some(fault) = fault {
        write_note(note_line(alloc, name, fault), faults);
    }
}

/// Reports that the file was not read, and returns the exit status.
///
/// Nothing is written to another writer, whatever that has received.
pub(crate) fn tell_unread<Faults: Write>(
    alloc: Global,
    name: &str,
    fault: Option<FileFault>,
    faults: &mut FailStopWriter<Faults>,
) -> u8
    ensures told { (known : WrittenBytes) → TellsUnread name.now known known
        (Faults.contents faults.old.writer) (heard Faults.contents faults.new) result }
    ensures status { result ≡ 3 }
{
    let status = tell(RunFault::Read, faults);
    add_note(alloc, name, fault, faults);
    status
}
