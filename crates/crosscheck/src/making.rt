//! Makes small recordings: thrown ones, and ones that are much like a recording with a rare violation.
use crate::dice::Dice;
use recording::Kind::{self, Read, Write};
use recording::Recording;

// An operation to tell.
#[derive(Clone, Copy)]
struct Told {
    station: u32,
    kind: Kind,
    register: u32,
    value: u32,
}

// An operation of these parts.
fn operation(station: u32, kind: Kind, register: u32, value: u32) -> Told {
    Told {
        station,
        kind,
        register,
        value,
    }
}

// What shows `badarb`. The patterns are functions, since a constant cannot call `operation`.
fn badarb() -> [Told; 4] {
    [
        operation(0, Write, 1, 1),
        operation(0, Read, 1, 2),
        operation(1, Write, 1, 2),
        operation(1, Read, 1, 1),
    ]
}

// What shows `hbinitread`.
fn hbinitread() -> [Told; 7] {
    [
        operation(0, Write, 3, 1),
        operation(0, Write, 1, 1),
        operation(2, Write, 1, 2),
        operation(1, Read, 1, 2),
        operation(1, Read, 3, 0),
        operation(1, Read, 1, 1),
        operation(1, Read, 1, 2),
    ]
}

// What shows `cyclichb`.
fn cyclichb() -> [Told; 9] {
    [
        operation(2, Write, 3, 9),
        operation(0, Read, 3, 9),
        operation(0, Write, 3, 1),
        operation(0, Write, 1, 1),
        operation(0, Write, 2, 1),
        operation(1, Write, 1, 2),
        operation(1, Read, 3, 9),
        operation(1, Read, 2, 1),
        operation(1, Read, 1, 2),
    ]
}

/// The next recording: four stations, at most six writes, and at most twelve operations.
pub fn make(dice: &mut Dice) -> Recording {
    let mut recording = Recording::unstarted();
    // No start with four stations is refused.
    let _ = recording.start(4);
    match dice.below(8) {
        0 => follow(&mut recording, dice, &badarb()),
        1 => follow(&mut recording, dice, &hbinitread()),
        2 => follow(&mut recording, dice, &cyclichb()),
        _ => {
            let operations = dice.below(11);
            throw(&mut recording, dice, operations);
        }
    }
    recording
}

// Tells the operations of a pattern, of which now and then one is left out, on other stations and registers; then some more.
fn follow(recording: &mut Recording, dice: &mut Dice, pattern: &[Told]) {
    let turn = dice.below(4);
    for operation in pattern {
        if dice.below(16) > 0 {
            tell(
                recording,
                Told {
                    station: operation.station.saturating_add(turn) % 4,
                    register: operation.register.saturating_add(turn),
                    ..*operation
                },
            );
        }
    }
    let more = dice.below(2);
    throw(recording, dice, more);
}

// Tells a write or a read. One that is refused, as a value that was written before, is left out on purpose.
fn tell(recording: &mut Recording, operation: Told) {
    let Told {
        station,
        kind,
        register,
        value,
    } = operation;
    let _ = match kind {
        Write => recording.write(station, register, value),
        Read => recording.read(station, register, value),
    };
}

// Tells some operations: reads of right, stale, future and zero values, and at most six writes.
fn throw(recording: &mut Recording, dice: &mut Dice, operations: u32) {
    let registers = dice.below(3).saturating_add(1);
    let mut written = [0u32; 4];
    let mut writes = 0u32;
    for _ in 0..operations {
        let station = dice.below(4);
        let register = dice.below(registers);
        let place = register as usize % 4;
        if writes < 6 && dice.below(2) == 0 {
            writes = writes.saturating_add(1);
            written[place] = written[place].saturating_add(1);
            tell(
                recording,
                operation(station, Write, register, written[place]),
            );
        } else {
            let value = thrown_value(dice, written[place]);
            tell(recording, operation(station, Read, register, value));
        }
    }
}

// Mostly the newest value; else an older one, 0, or one that may come later.
fn thrown_value(dice: &mut Dice, newest: u32) -> u32 {
    match dice.below(4) {
        0 => dice.below(newest.saturating_add(2)),
        1 => dice.below(newest.saturating_add(1)),
        _ => newest,
    }
}
