//! A rule that is written outside the library, with nothing but what is owed.
ghost use Rattle.std.specs.Prelude.{◌≡◌, true};
ghost use Rattle.std.proofs.Common.{rules};

use recording::Recording;
use rows::Table;
use visibility::{Rule, Sight, least_visibility};

// What sees is seen.
#[derive(Clone, Copy)]
struct Mirror;

impl Rule for Mirror {
    ghost demands = { λ _ f v a b. v b a ≡ true };

    ghost known = { λ _. 9 };

    ghost grows = { Prim.search rules };

    fn asks(&self, sight: Sight<'_, '_>, a: usize, b: usize) -> bool {
        a < sight.outline.count() && b < sight.outline.count() && sight.seen.pair(b, a)
    }

    fn label(&self) -> u8 {
        9
    }
}

#[test]
fn what_sees_is_seen(rt: HostRuntime) {
    let mut r = Recording::unstarted();
    assert_eq!(rt; r.write(0, 5, 7), Ok(0));
    assert_eq!(rt; r.read(0, 5, 7), Ok(1));
    let mut words = [0; 1024];
    least_visibility(&r, &Mirror, &mut words);
    let seen = Table { words: &words };
    assert!(rt; seen.pair(0, 1));
    assert!(rt; seen.pair(1, 0));
    assert!(rt; !seen.pair(0, 0));
    assert_eq!(rt; Mirror.label(), 9);
}
