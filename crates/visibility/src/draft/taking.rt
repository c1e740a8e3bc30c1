//! How a draft takes the bytes of a spelling, and what is finished where they end.
ghost use Rattle.std.specs.Prelude.{◌≡◌, []};
ghost use Rattle.visibility.specs.Few.{items_of};
ghost use Rattle.visibility.specs.Drafts.{done_of, current_of, Lettered, Parted, Taken, Finished};

use crate::draft::{Draft, Fatal};
use crate::few::Few;
use crate::terms::{LETTERS, Letter, Term, TermList};

// As many commas as a spelling may have.
const COMMAS: usize = 7;

// A term without letters.
fn no_letters() -> Term
    ensures { items_of result ≡ [] }
{
    Few::none(Letter::Station)
}

impl Draft {
    // Nothing is read yet.
    pub(crate) fn blank() -> Draft
        ensures { (done_of result ≡ []) × (current_of result ≡ []) }
    {
        Draft {
            done: Few::none(no_letters()),
            current: no_letters(),
        }
    }

    // Takes one byte, if some lawful spelling has it here.
    pub(crate) fn take(&mut self, byte: u8) -> Result<(), Fatal>
        ensures { Taken (done_of self.old) (current_of self.old) byte result (done_of self.new) (current_of self.new) }
    {
        match byte as char {
            's' => self.letter(Letter::Station),
            'v' => self.letter(Letter::Seen),
            ',' => self.comma(),
            _ => Err(Fatal),
        }
    }

    // One letter more, if there are not four.
    fn letter(&mut self, letter: Letter) -> Result<(), Fatal>
        ensures { Lettered (done_of self.old) (current_of self.old) letter result (done_of self.new) (current_of self.new) }
    {
        if self.current.len() == LETTERS {
            return Err(Fatal);
        }
        self.current.push(letter);
        Ok(())
    }

    // The term is finished, if it has a letter and is not the eighth.
    fn comma(&mut self) -> Result<(), Fatal>
        ensures { Parted (done_of self.old) (current_of self.old) result (done_of self.new) (current_of self.new) }
    {
        if self.current.is_empty() || self.done.len() == COMMAS {
            return Err(Fatal);
        }
        self.done.push(self.current);
        self.current = no_letters();
        Ok(())
    }

    // The terms, unless a letter has to come after a comma.
    pub(crate) fn finished(self) -> Option<TermList>
        ensures { Finished (done_of self) (current_of self) result }
    {
        let mut terms = self.done;
        if !self.current.is_empty() {
            terms.push(self.current);
        } else if !terms.is_empty() {
            return None;
        }
        Some(TermList { terms })
    }
}
