//! The lines that report a storm's fault, which take no memory.

ghost use Rattle.std.specs.Prelude.{◌≡◌, ◌++◌, true, OnOk, OnErr};
ghost use Rattle.std.specs.Io.KnownBytes.{Appends};
ghost use Rattle.byte_streams.specs.PartialOutput.{AppendsBeginning, AppendsLess};
ghost use Rattle.line_text.specs.Words.{number_text};
ghost use Rattle.storm_runner.specs.FaultText.{storm_bad_line, storm_fault_line, IsLinelessStormFault};

use crate::StormFault;
use byte_streams::{FailStopWriter, OutputFault};
use itoa::Buffer;
use locked_net::SettleFault;
use std::io::Write;

fn write_numbered<Faults: Write>(
    text: &[u8],
    number: u64,
    faults: &mut FailStopWriter<Faults>,
) -> Result<(), OutputFault>
    ensures ok { OnOk result (Appends (Faults.contents faults.old.writer) (Faults.contents faults.new.writer) (text.now ++ number_text number)) }
    ensures fault { OnErr result (AppendsLess (Faults.contents faults.old.writer) (Faults.contents faults.new.writer) (text.now ++ number_text number)) }
    ensures unwritten { OnErr result (faults.new.failed ≡ true) }
{
    let mut digits = Buffer::new();
    faults.write_whole(text)?;
    faults.write_whole(digits.format(number).as_bytes())
}

fn write_bad_line<Faults: Write>(
    script: u32,
    line: u64,
    faults: &mut FailStopWriter<Faults>,
) -> Result<(), OutputFault>
    ensures ok { OnOk result (Appends (Faults.contents faults.old.writer) (Faults.contents faults.new.writer) (storm_bad_line script line)) }
    ensures fault { OnErr result (AppendsBeginning (Faults.contents faults.old.writer) (Faults.contents faults.new.writer) (storm_bad_line script line)) }
    ensures unwritten { OnErr result (faults.new.failed ≡ true) }
{
    write_numbered(b"! script ", script as u64, faults)?;
    write_numbered(b" line ", line, faults)?;
    faults.finish(b": not a command\n")
}

/// Writes the line of a fault, and flushes the writer.
pub fn write_fault<Faults: Write>(
    fault: StormFault,
    faults: &mut FailStopWriter<Faults>,
) -> Result<(), OutputFault>
    ensures ok { OnOk result (Appends (Faults.contents faults.old.writer) (Faults.contents faults.new.writer) (storm_fault_line fault)) }
    ensures fault { OnErr result (AppendsBeginning (Faults.contents faults.old.writer) (Faults.contents faults.new.writer) (storm_fault_line fault)) }
    ensures unwritten { OnErr result (faults.new.failed ≡ true) }
{
    match fault {
        StormFault::BadLine { script, line } => write_bad_line(script, line, faults),
        fault => faults.finish(plain_line(fault)),
    }
}

fn plain_line(fault: StormFault) -> &'static [u8]
    requires { IsLinelessStormFault fault }
    ensures { result.now ≡ storm_fault_line fault }
{
    match fault {
        StormFault::TooManyScripts => b"! too many scripts\n",
        StormFault::BadLine { .. } => b"",
        StormFault::LogFull => b"! log full\n",
        StormFault::Read => b"! read failed\n",
        StormFault::Write => b"! write failed\n",
        StormFault::Behind => b"! behind\n",
        StormFault::Thread => b"! no thread\n",
        StormFault::Unsettled(SettleFault::CountDiffers) => b"! settle refused: count-differs\n",
        StormFault::Unsettled(SettleFault::BaseDiffers) => b"! settle refused: base-differs\n",
        StormFault::Unsettled(SettleFault::Stranger { .. }) => b"! settle refused: stranger\n",
        StormFault::Unsettled(SettleFault::Memory) | StormFault::Memory => b"! out of memory\n",
    }
}
