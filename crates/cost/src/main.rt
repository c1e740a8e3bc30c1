//! Prints how many rows an order of 64, 128 and 256 members asks for: the cost of an order grows as the square.
#![tactic(auto)]

ghost use Rattle.std.specs.Prelude.{◌+◌, ◌&&◌, ◌==◌, nat_lt};

use relation::{Obstacle, Relation, order_or_cycle};
use rows::Row;
use std::cell::Cell;
use std::io;

// Relates each number to the next one, and counts how often a row is asked for.
#[derive(Drop)]
struct Chain {
    asked: Cell<u64>,
}

impl Relation for Chain {
    ghost holds = { λ _ a b. nat_lt (a + 1) 256 && b == a + 1 };

    fn row(&self, a: usize) -> Row {
        self.asked.set(self.asked.get().wrapping_add(1));
        Row::of(a.saturating_add(1))
    }
}

// Puts the numbers below `n` in order, and prints what it cost.
fn print_cost(rt: &HostRuntime, n: usize) -> io::Result<()> {
    let chain = Chain {
        asked: Cell::new(0),
    };
    let mut out = [0u16; 256];
    let found = order_or_cycle(&chain, Row::below(n), &mut out);
    let asked = chain.asked.get();
    match found {
        Ok(count) => println!(rt; "{count} members in order: {asked} rows asked"),
        Err(Obstacle::Cycle(count)) => println!(rt; "a cycle of {count}: {asked} rows asked"),
        Err(Obstacle::NoRoom) => println!(rt; "no room"),
    }
}

fn main(rt: HostRuntime) -> io::Result<()> {
    print_cost(&rt, 64)?;
    print_cost(&rt, 128)?;
    print_cost(&rt, 256)
}
