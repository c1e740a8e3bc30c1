//! How a recording is told: start, write and read.
ghost use Rattle.std.specs.Prelude.{◌≡◌, ℕ, ◌<◌, ◌≤◌, [], length};
ghost use Rattle.recording.specs.Operations.{write_of, read_of, operation_of};
ghost use Rattle.recording.specs.Telling.{recorded, empty, with, Allowed, write_ground, read_ground, ground_of, Started, Told};

use crate::operation::{Kind, Operation};
use crate::recording::Recording;
use crate::refusal::Refusal;
use crate::stations::Stations;
use arrayvec::ArrayVec;

impl Recording {
    /// A recording that no start was told: one station, and no operations.
    pub fn unstarted() -> Recording
        ensures { recorded result ≡ empty 1 }
    {
        Recording::with_stations(1)
    }

    // A recording with no operations.
    fn with_stations(stations: u8) -> Recording
        requires some { 1 ≤ stations }
        requires most { stations ≤ 16 }
        ensures { recorded result ≡ empty stations }
    {
        Recording {
            stations,
            operations: ArrayVec::new(),
            table: Stations::default(),
        }
    }

    /// Begins anew with so many stations. Refuses by 1.
    pub fn start(&mut self, stations: u32) -> Result<(), Refusal>
        ensures { Started (recorded self.old) stations result (recorded self.new) }
    {
        if stations == 0 || stations > 16 {
            return Err(Refusal::StationCount);
        }
        *self = Recording::with_stations(stations as u8);
        Ok(())
    }

    /// Takes a write in. Refuses by 2, 3, 4, 5 or 6; else answers its number.
    pub fn write(&mut self, station: u32, register: u32, value: u32) -> Result<usize, Refusal>
        ensures { Told (write_ground (recorded self.old) station register value) (write_of station register value) (recorded self.old) result (recorded self.new) }
    {
        self.take(Kind::Write, station, register, value)
    }

    /// Takes a read in. Refuses by 2, 3, 4 or 5; else answers its number.
    pub fn read(&mut self, station: u32, register: u32, value: u32) -> Result<usize, Refusal>
        ensures { Told (read_ground (recorded self.old) station register value) (read_of station register value) (recorded self.old) result (recorded self.new) }
    {
        self.take(Kind::Read, station, register, value)
    }

    // Takes an operation of that kind in.
    fn take(
        &mut self,
        kind: Kind,
        station: u32,
        register: u32,
        value: u32,
    ) -> Result<usize, Refusal>
        ensures { Told (ground_of kind (recorded self.old) station register value) (operation_of kind station register value) (recorded self.old) result (recorded self.new) }
    {
        if station >= u32::from(self.stations) {
            return Err(Refusal::NoSuchStation);
        }
        if register > 63 {
            return Err(Refusal::NoSuchRegister);
        }
        let in_range = match kind {
            Kind::Write => (1..=524_287).contains(&value),
            Kind::Read => value <= 524_287,
        };
        if !in_range {
            return Err(Refusal::ValueOutOfRange);
        }
        if self.operations.is_full() {
            return Err(Refusal::Full);
        }
        if kind == Kind::Write && self.is_written(register as u8, value) {
            return Err(Refusal::ValueRepeated);
        }
        Ok(self.append(Operation {
            kind,
            station: station as u8,
            register: register as u8,
            value,
        }))
    }

    // Puts an operation that no ground forbids at the end, and answers its number.
    fn append(&mut self, operation: Operation) -> usize
        requires room { length (recorded self.old).operations < 256 }
        requires allowed { Allowed (recorded self.old) operation }
        ensures number { result ≡ length (recorded self.old).operations }
        ensures after { recorded self.new ≡ with (recorded self.old) operation }
    {
        let number = self.operations.len();
        self.operations.push(operation);
        self.table.note(operation.station as usize, number);
        number
    }
}
