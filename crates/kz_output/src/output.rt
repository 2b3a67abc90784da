//! Bytes that are held before a sink takes them.
ghost use Rattle.std.specs.Prelude.{◌≡◌, ◌<◌, [], ◌++◌, List, ℕ, OnOk, OnErr, length};
ghost use Rattle.std.specs.Io.KnownBytes.{Appends};
ghost use Rattle.kz_output.specs.declared.output.TheConstants.{HELD_BYTES};
ghost use Rattle.kz_output.specs.Outputs.{Puts, WritesFront, EndsAtSink};

use kz_io::{Sink, send};
use kz_types::Failed;
use std::alloc::Global;
use std::marker::Model;

/// How many bytes are held before they are written.
pub const HELD_BYTES: usize = 65_536;

/// Why a text isn't written whole.
#[derive(Clone, Copy, Debug, PartialEq, Eq)]
pub enum OutputFault {
    /// A write of the sink failed, or took nothing.
    SinkFailed,
    /// Memory ran out.
    NoMemory,
}

/// Bytes that are still to be written, which contracts see as their list.
/// After a fault it is of no further use: a front of what it held may be out, and it isn't known how much.
#[derive(Drop)]
pub struct Output {
    bytes: Vec<u8>,
}

impl Model for Output {
    ghost Value = { List ℕ };

    ghost view = { λ o. o.bytes.items };
}

impl Output {
    /// An output that holds nothing.
    pub fn new(alloc: Global) -> Output
        ensures { result ≡ [] }
    {
        Output {
            bytes: Vec::new(alloc),
        }
    }

    /// Adds a text. Once `HELD_BYTES` bytes are held, all that is held is written.
    ///
    /// `SinkFailed`: exactly where a write of the sink failed or took nothing, and that was its last call.
    /// `NoMemory`: memory ran out. In both cases a front of what was held and the text is out.
    pub fn put<K: Sink>(&mut self, text: &[u8], out: &mut K) -> Result<(), OutputFault>
        ensures ok { OnOk result (Puts (K.taken out.old) self.old (K.taken out.new) self.new text.now) }
        ensures bound { OnOk result (length self.new < HELD_BYTES) }
        ensures err { OnErr result (WritesFront (K.taken out.old) (K.taken out.new) (self.old ++ text.now)) }
        ensures sink { EndsAtSink result (K.faults out.old) (K.faults out.new) (K.last_failed out.old) (K.last_failed out.new) }
    {
        let Ok(()) = self.bytes.extend_from_slice(text) else {
            return Err(OutputFault::NoMemory);
        };
        if self.bytes.len() < HELD_BYTES {
            return Ok(());
        }
        self.flush(out)
    }

    /// Writes all that is held.
    ///
    /// `SinkFailed`: exactly where a write of the sink failed or took nothing, and that was its last call. A front of what
    /// was held is out then.
    pub fn flush<K: Sink>(&mut self, out: &mut K) -> Result<(), OutputFault>
        ensures ok { OnOk result (Appends (K.taken out.old) (K.taken out.new) self.old) }
        ensures empty { OnOk result (self.new ≡ []) }
        ensures err { OnErr result (WritesFront (K.taken out.old) (K.taken out.new) self.old) }
        ensures sink { EndsAtSink result (K.faults out.old) (K.faults out.new) (K.last_failed out.old) (K.last_failed out.new) }
    {
        match send(out, &self.bytes) {
            Ok(()) => {}
            Err(Failed) => return Err(OutputFault::SinkFailed),
        }
        self.bytes.clear();
        Ok(())
    }
}
