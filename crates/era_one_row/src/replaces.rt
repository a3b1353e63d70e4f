//! Replacing the one row.
ghost use Rattle.std.specs.Prelude.{◌≡◌, ◌≢◌, ℕ, ◌+◌, ◌-◌, ◌^◌, ◌<◌, IfOk, IfErr, IfSome, Some, None, Err, [], ◌∷◌, length};
ghost use Rattle.era_core.specs.Lists.{without};
ghost use Rattle.era_core.specs.Versions.{look_up};
ghost use Rattle.era_rows.specs.Known.{known_words, copy_known};
ghost use Rattle.era_rows.specs.Lists.{add_entry};
ghost use Rattle.era_rows.specs.Passes.{known_of, seen_of, lists_of, IsPassOf, IsSamePass, HasSame};
ghost use Rattle.era_rows.specs.Evidence.{ShowsFull};
ghost use Rattle.era_one_row.specs.Ready.{IsAtRest, Reads, IsReady, IsNumbered, GoesOn, HasPinned, IsBeaten, stamped, lists_after};
ghost use Rattle.era_one_row.specs.Finding.{FindsRow, MayTidy, TidiesLast, TakesAtMost};
ghost use Rattle.era_one_row.specs.declared.replaces.Replaced.TheVariants.{Done, Beaten as WasBeaten, Full, Spent as WasSpent};
ghost use Rattle.era_rows.specs.declared.refusal.PublishRefusal.TheVariants.{Beaten, Spent};
ghost use mathlib.Core.Option.{some};
ghost use lib.ListN.{get_elem?};

use crate::finds::find_row;
use crate::law::{OneRow, Stamped};
use era_core::LAST_VERSION;
use era_rows::{Nothing, Pass, PublishRefusal, Rows};

/// Pins the current version: its number and its row. It pins once, before it reads anything.
pub fn open(rows: &Rows<OneRow>, pass: &mut Pass<OneRow>) -> (u64, u32)
    requires { IsAtRest rows.now pass.old }
    ensures reads { Reads rows.now result.0 result.1 pass.new }
    ensures same { IsSamePass pass.old pass.new }
    ensures lists { lists_of pass.new ≡ lists_of pass.old }
    ensures on { GoesOn (known_of pass.old) (known_of pass.new) }
    ensures pinned { HasPinned result.0 (known_of pass.old) (known_of pass.new) }
    ensures fresh { (known_of pass.new).core.fresh ≡ (known_of pass.old).core.fresh }
    ensures takes { TakesAtMost rows.now.passes rows.now.rows 0 (known_of pass.old) (known_of pass.new) }
{
    rows.pin(pass)
}

/// A fresh row with the word at place 1, ready to be put in the place of the pinned one. None only where this call found an
/// owner in each row, tidied, and found an owner in each row again.
pub fn prepare(
    rows: &Rows<OneRow>,
    pass: &mut Pass<OneRow>,
    pin: (u64, u32),
    word: u64,
) -> Option<u32>
    requires { Reads rows.now pin.0 pin.1 pass.old }
    ensures ready { IfSome result (λ row. IsReady rows.now pin.0 pin.1 row pass.new) }
    ensures word { IfSome result (λ row. look_up (known_words (known_of pass.new)) row 1 ≡ Some word) }
    ensures full { result ≡ None → Reads rows.now pin.0 pin.1 pass.new }
    ensures searched { result ≡ None → FindsRow rows.now.rows (known_of pass.old) (known_of pass.new) None }
    ensures same { IsSamePass pass.old pass.new }
    ensures lists { lists_of pass.new ≡ lists_of pass.old }
    ensures on { MayTidy (known_of pass.old) (known_of pass.new) }
    ensures takes { TakesAtMost rows.now.passes rows.now.rows 1 (known_of pass.old) (known_of pass.new) }
    ensures same_pin { (known_of pass.new).since ≡ (known_of pass.old).since }
{
    let row = find_row(rows, pass)?;
    rows.write(pass, row, 0, 0);
    rows.write(pass, row, 1, word);
    rows.mark(pass, pin.1);
    Some(row)
}

/// Publishes the row that was prepared, with an entry of the pass, and leaves the version. After a refusal the row is given
/// back.
pub fn finish(
    rows: &Rows<OneRow>,
    pass: &mut Pass<OneRow>,
    pin: (u64, u32),
    row: u32,
) -> Result<u64, PublishRefusal>
    requires { IsReady rows.now pin.0 pin.1 row pass.old }
    ensures rest { IsAtRest rows.now pass.new }
    ensures same { IsSamePass pass.old pass.new }
    ensures version { IfOk result (λ v. v ≡ pin.0 + 1) }
    ensures entry { IfOk result (λ v. lists_of pass.new ≡ add_entry pass.old.number (stamped pass.old.number v) (lists_of pass.old)) }
    ensures copy { IfOk result (λ v. get_elem? (known_of pass.new).copies v ≡ some (copy_known (known_of pass.old) row)) }
    ensures refused { IfErr result (λ _. lists_of pass.new ≡ lists_of pass.old) }
    ensures given_back { IfErr result (λ _. (known_of pass.new).core.fresh ≡ without (row ∷ []) (known_of pass.old).core.fresh) }
    ensures beaten { (v : ℕ) → result ≡ Err (Beaten v) → (pin.0 < v) × (v ≡ length (seen_of pass.new)) }
    ensures spent { result ≡ Err Spent → (pin.0 ≡ LAST_VERSION) × (length (seen_of pass.new) ≡ pin.0) }
    ensures on { GoesOn (known_of pass.old) (known_of pass.new) }
    ensures takes { TakesAtMost rows.now.passes rows.now.rows 0 (known_of pass.old) (known_of pass.new) }
    ensures same_pin { (known_of pass.new).since ≡ (known_of pass.old).since }
{
    let entry = Stamped {
        caller: rows.number(pass),
        stamp: pin.0 + 1,
    };
    let published = rows.publish(pass, row, &entry);
    if published.is_err() {
        rows.give_back(pass, row);
    }
    rows.unpin(pass, &Nothing);
    published
}

/// What came of a replacement: the number of the new version, or of the one that was published before, or no row was free, or
/// the version is the last of all.
#[derive(Clone, Copy, Debug, PartialEq, Eq, Drop)]
pub enum Replaced {
    Done(u64),
    Beaten(u64),
    Full,
    Spent,
}

/// Puts a row with the number of its version at place 1 in the place of the current one, and then frees what no pass can
/// read. It takes one row at most. `Full` comes only with an evidence that the pass keeps, and a pass that is alone never
/// answers it where one row is left beside its fresh ones and the pinned one.
pub fn replace(rows: &Rows<OneRow>, pass: &mut Pass<OneRow>) -> Replaced
    requires { IsAtRest rows.now pass.old }
    ensures rest { IsAtRest rows.now pass.new }
    ensures same { IsSamePass pass.old pass.new }
    ensures lists { lists_of pass.new ≡ lists_after result pass.old.number (lists_of pass.old) }
    ensures version { (v : ℕ) → result ≡ Done v → IsNumbered v pass.new }
    ensures beaten { (v : ℕ) → result ≡ WasBeaten v → IsBeaten v pass.old pass.new }
    ensures full { result ≡ Full → ShowsFull rows.now.passes rows.now.rows (length (known_of pass.old).core.fresh) (known_of pass.old) (known_of pass.new) }
    ensures alone { rows.now.passes ≡ 1 → length (known_of pass.old).core.fresh + 1 < rows.now.rows → result ≢ Full }
    ensures spent { result ≡ WasSpent → length (seen_of pass.new) ≡ LAST_VERSION }
    ensures takes { TakesAtMost rows.now.passes rows.now.rows 1 (known_of pass.old) (known_of pass.new) }
    ensures tidied { TidiesLast (known_of pass.old) (known_of pass.new) }
{
    let pin = open(rows, pass);
    let Some(row) = prepare(rows, pass, pin, pin.0 + 1) else {
        rows.unpin(pass, &Nothing);
        rows.tidy(pass);
        return Replaced::Full;
    };
    let published = finish(rows, pass, pin, row);
    rows.tidy(pass);
    match published {
        Ok(version) => Replaced::Done(version),
        Err(PublishRefusal::Beaten(version)) => Replaced::Beaten(version),
        Err(PublishRefusal::Spent) => Replaced::Spent,
    }
}
