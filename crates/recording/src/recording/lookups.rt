//! What can be looked up in a recording.
ghost use Rattle.std.specs.Prelude.{◌≡◌};
ghost use Rattle.recording.specs.Lookups.{OperationAnswer, EntryAnswer, Giver, SourceAnswer};
ghost use Rattle.recording.specs.Operations.{written};
ghost use Rattle.recording.specs.Telling.{recorded};

use crate::operation::{Kind, Operation};
use crate::recording::Recording;
use crate::refusal::Refusal;
use crate::stations::Entry;

impl Recording {
    /// The operations, each at the place of its number.
    pub fn operations(&self) -> &[Operation]
        ensures { result.now ≡ (recorded self.now).operations }
    {
        self.operations.as_slice()
    }

    /// The operation of that number.
    pub fn operation(&self, number: usize) -> Option<Operation>
        ensures { OperationAnswer (recorded self.now).operations number result }
    {
        self.operations.get(number).copied()
    }

    /// What is kept of a station: its count of operations, and its last one.
    pub fn entry(&self, station: usize) -> Option<Entry>
        ensures { EntryAnswer (recorded self.now) station result }
    {
        (station < self.stations()).then(|| self.table.entries[station])
    }

    // Whether the register has been written with the value.
    pub(crate) fn is_written(&self, register: u8, value: u32) -> bool
        ensures { result ≡ written (recorded self.now).operations register value }
    {
        self.operations
            .iter()
            .any(|operation| operation.gives(register, value))
    }

    // The write that gives the register the value.
    fn giver(&self, register: u8, value: u32) -> Option<usize>
        ensures { Giver (recorded self.now).operations register value result }
    {
        self.operations
            .iter()
            .position(|operation| operation.gives(register, value))
    }

    /// The source of a read: the write that gives its register its value, wherever it stands. Refuses by 7.
    pub fn source(&self, number: usize) -> Result<Option<usize>, Refusal>
        ensures { SourceAnswer (recorded self.now).operations number result }
    {
        match self.operation(number) {
            Some(read) if read.kind == Kind::Read => Ok(self.giver(read.register, read.value)),
            _ => Err(Refusal::NotARead),
        }
    }
}
