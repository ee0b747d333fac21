//! How a batch ends.
ghost use Rattle.std.specs.Prelude.{◌≡◌, OnOk, IsErrOf, IsOk};
ghost use Rattle.file_relay.specs.declared.reader.StreamStop.TheVariants as reads;
ghost use Rattle.file_batch.specs.declared.progress.Halt.TheVariants as halts;
ghost use Rattle.file_batch.specs.declared.stop.BatchStop.TheVariants.{Memory, ReadFault};
ghost use Rattle.file_batch.specs.declared.stop.BatchStop.TheVariants.{TooLong, WriteFault};

use crate::progress::Halt;
use file_relay::StreamStop;
use std::alloc::AllocError;

/// Why a batch stopped before its end.
#[derive(Clone, Copy, Debug, Drop, PartialEq, Eq)]
pub enum BatchStop {
    Memory,
    ReadFault,
    WriteFault,
    TooLong,
}

impl From<AllocError> for BatchStop {
    ghost from_gives = { λ _ e. e ≡ Memory };

    fn from(_: AllocError) -> Self {
        BatchStop::Memory
    }
}

// How the batch ends: what stopped the reading comes first.
pub(crate) fn stop_of(
    read: Result<(), StreamStop>,
    written: Result<(), Halt>,
) -> Result<(), BatchStop>
    ensures done { OnOk result (IsOk read × IsOk written) }
    ensures read { IsErrOf result ReadFault → IsErrOf read reads.Fault }
    ensures long { IsErrOf result TooLong → IsErrOf read reads.TooLong }
    ensures write { IsErrOf result WriteFault → IsOk read × IsErrOf written halts.Fault }
{
    match (read, written) {
        (Err(StreamStop::Fault), _) => Err(BatchStop::ReadFault),
        (Err(StreamStop::TooLong), _) => Err(BatchStop::TooLong),
        (Err(StreamStop::Memory), _) => Err(BatchStop::Memory),
        (Ok(()), Err(Halt::Fault)) => Err(BatchStop::WriteFault),
        (Ok(()), Err(Halt::Memory)) => Err(BatchStop::Memory),
        (Ok(()), Ok(())) => Ok(()),
    }
}
