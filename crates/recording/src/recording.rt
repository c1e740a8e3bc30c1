//! A recording: what always holds of one.
ghost use Rattle.std.specs.Prelude.{◌≤◌, length};
ghost use Rattle.std.proofs.Props.{props};
ghost use Rattle.recording.specs.Lawful.{InRange, NonZero, Apart};
ghost use Rattle.recording.specs.Stations.{Kept};

use crate::operation::Operation;
use crate::stations::Stations;
use arrayvec::ArrayVec;

mod lookups;
mod size;
mod telling;

/// The stations and the operations that were told, with an entry for each station.
// No `Model`: its value would have to hold six of these facts again, as proofs of other crates read them, and a clause on a whole
// recording would still say `recorded`.
#[derive(Drop)]
pub struct Recording {
    stations: u8,
    operations: ArrayVec<Operation, 256>,
    table: Stations,
    ghost some: { 1 ≤ stations },
    ghost most: { stations ≤ 16 },
    ghost few: { length operations.items ≤ 256 },
    ghost range: { InRange stations operations.items },
    ghost nonzero: { NonZero operations.items },
    ghost apart: { Apart operations.items },
    ghost kept: { Kept operations.items table.entries } by { Prim.hlevel props },
}
