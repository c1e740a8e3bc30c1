//! A term list while its spelling is read: the finished terms, and the letters of the one that is not.
ghost use Rattle.std.specs.Prelude.{◌≤◌, length};
ghost use Rattle.visibility.specs.Few.{items_of};

use crate::few::Few;
use crate::terms::{TERMS, Term};

mod taking;

#[derive(Clone, Copy)]
pub(crate) struct Draft {
    done: Few<Term, TERMS>,
    current: Term,
    ghost room: { length (items_of done) ≤ 7 },
}

/// A byte that no lawful spelling has here.
#[derive(Clone, Copy)]
pub(crate) struct Fatal;
