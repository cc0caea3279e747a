//! The lines that report why the program ended early, which take no memory.

ghost use Rattle.std.specs.Prelude.{◌≡◌, ◌++◌, codes, true, OnOk, OnErr};
ghost use Rattle.std.specs.Io.KnownBytes.{Appends};
ghost use Rattle.byte_streams.specs.PartialOutput.{AppendsBeginning};
ghost use Rattle.line_text.specs.Words.{number_text};
ghost use Rattle.command_line.specs.FaultText.{run_bad_line, run_fault_line, IsLinelessRunFault};

use byte_streams::{FailStopWriter, OutputFault};
use itoa::Buffer;
use script_run::RunFault;
use std::io::Write;
use steal_pool::PoolFault;

fn write_bad_line<Faults: Write>(
    line: u64,
    faults: &mut FailStopWriter<Faults>,
) -> Result<(), OutputFault>
    ensures ok { OnOk result (Appends (Faults.contents faults.old.writer) (Faults.contents faults.new.writer) (run_bad_line line)) }
    ensures fault { OnErr result (AppendsBeginning (Faults.contents faults.old.writer) (Faults.contents faults.new.writer) (run_bad_line line)) }
    ensures unwritten { OnErr result (faults.new.failed ≡ true) }
{
    let mut digits = Buffer::new();
    faults.write_whole(b"! line ")?;
    faults.write_whole(digits.format(line).as_bytes())?;
    faults.finish(b": not a command\n")
}

/// Writes the line of a fault, and flushes the writer.
pub fn write_fault<Faults: Write>(
    fault: RunFault,
    faults: &mut FailStopWriter<Faults>,
) -> Result<(), OutputFault>
    ensures ok { OnOk result (Appends (Faults.contents faults.old.writer) (Faults.contents faults.new.writer) (run_fault_line fault)) }
    ensures fault { OnErr result (AppendsBeginning (Faults.contents faults.old.writer) (Faults.contents faults.new.writer) (run_fault_line fault)) }
    ensures unwritten { OnErr result (faults.new.failed ≡ true) }
{
    match fault {
        RunFault::BadLine { line } => write_bad_line(line, faults),
        fault => faults.finish(plain_line(fault)),
    }
}

fn plain_line(fault: RunFault) -> &'static [u8]
    requires { IsLinelessRunFault fault }
    ensures { result.now ≡ run_fault_line fault }
{
    match fault {
        RunFault::BadLine { .. } => b"",
        RunFault::LogFull => b"! log full\n",
        RunFault::Read => b"! read failed\n",
        RunFault::Write => b"! write failed\n",
        RunFault::Pool(PoolFault::ZeroWorkers) => b"! no workers\n",
        RunFault::Pool(PoolFault::Thread) => b"! no thread\n",
        RunFault::Pool(PoolFault::Memory) | RunFault::Memory => b"! out of memory\n",
    }
}
