//! The answers of a shared tree beside those of the plain archive, call by call.
ghost use Rattle.std.specs.Prelude.{◌≡◌};
ghost use Rattle.nd_shared.specs.Views.{IsReady};

use crate::generated::{at_level, differs, snapshot_differs, try_call};
use crate::starts::start;
use nd_shared::{Tree, TreePass};
use pls_archive::Plain;
use pls_samples::next_word;
use std::alloc::AllocError;
use std::process::Abort;

// Makes the call that the word chooses at both archives: whether the answers differ.
fn call_differs(
    rt: &impl Abort,
    tree: &Tree,
    pass: &mut TreePass,
    plain: &mut Plain,
    word: u64,
) -> bool
    requires ready { IsReady tree.now.rows pass.old }
    requires parts { (tree.now.rows.shape ≡ 3) × (plain.old.objectives ≡ 3) }
    ensures ready { IsReady tree.now.rows pass.new }
    ensures parts { plain.new.objectives ≡ 3 }
{
    match try_call(rt, tree, pass, word) {
        Ok(call) => differs(rt, plain, &call).expect(rt, "memory for a point"),
        Err(_) => true,
    }
}

#[test]
fn replies_as_the_plain_archive(rt: HostRuntime) -> Result<(), AllocError> {
    let (tree, mut pass) = start(rt.alloc(), 3, 4_096)?;
    let mut plain = Plain::new(rt.alloc(), 3);
    let mut word = 20_260_401u64;
    let mut differences = 0u32;
    for k in 0..10_000u16 {
        word = next_word(word);
        let differs = call_differs(&rt, &tree, &mut pass, &mut plain, at_level(word, 0))
            || k % 1_000 == 999 && snapshot_differs(rt.alloc(), &tree, &mut pass, &plain)?;
        differences = differences.saturating_add(u32::from(differs));
    }
    assert_eq!(&rt; differences, 0);
    Ok(())
}
