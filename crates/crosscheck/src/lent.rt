//! What the judgements are lent.
use judgement::{Refusal, Verdict};

/// Two tables and a buffer of the right lengths.
// The program `judge` lends the same; the two share nothing, since this one checks what that one asks.
#[derive(Default, Drop)]
pub struct Lent {
    seen: [u64; 1024],
    working: [u64; 1024],
    evidence: [u16; 256],
}

impl Lent {
    /// The verdict of a judgement that is lent them.
    pub fn judged<J: FnOnce(&mut [u64], &mut [u64], &mut [u16]) -> Result<Verdict, Refusal>>(
        &mut self,
        judge: J,
    ) -> Result<Verdict, Refusal>
        requires { J.IsAlwaysCallable judge }
    {
        judge(&mut self.seen, &mut self.working, &mut self.evidence)
    }
}
