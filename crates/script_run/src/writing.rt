//! When the text of a run is written.

ghost use Rattle.std.specs.Prelude.{◌≡◌, ◌<◌, [], true, length, OnOk, OnErr};
ghost use Rattle.byte_streams.specs.PartialOutput.{AppendsBeginning, AppendsLess};
ghost use Rattle.script_run.specs.RunEnds.{SplitsOutput};

use byte_streams::{FailStopWriter, OutputFault};
use std::io::Write;

const CHUNK: usize = 65_536;

/// Writes and empties the text, if it has reached 65,536 bytes.
pub fn hand_over<Out: Write>(
    writer: &mut FailStopWriter<Out>,
    text: &mut Vec<u8>,
) -> Result<(), OutputFault>
    ensures ok { OnOk result (SplitsOutput (Out.contents writer.old.writer) (Out.contents writer.new.writer) text.old.items text.new.items) }
    ensures short { OnOk result (length text.new.items < 65536) }
    ensures fault { OnErr result (AppendsLess (Out.contents writer.old.writer) (Out.contents writer.new.writer) text.old.items) }
    ensures unwritten { OnErr result (writer.new.failed ≡ true) }
{
    if text.len() < CHUNK {
        return Ok(());
    }
    writer.write_whole(text)?;
    text.clear();
    Ok(())
}

/// Writes and empties the text, and flushes the writer.
pub fn hand_over_all<Out: Write>(
    writer: &mut FailStopWriter<Out>,
    text: &mut Vec<u8>,
) -> Result<(), OutputFault>
    ensures ok { OnOk result (SplitsOutput (Out.contents writer.old.writer) (Out.contents writer.new.writer) text.old.items text.new.items) }
    ensures empty { OnOk result (text.new.items ≡ []) }
    ensures fault { OnErr result (AppendsBeginning (Out.contents writer.old.writer) (Out.contents writer.new.writer) text.old.items) }
    ensures unwritten { OnErr result (writer.new.failed ≡ true) }
{
    writer.finish(text)?;
    text.clear();
    Ok(())
}
