//! Reading the words of the rows of a tree that a pass builds, and writing them.
ghost use Rattle.std.specs.Prelude.{◌≡◌, ℕ, ℤ, ◌+◌, ◌*◌, ◌<◌, ◌≤◌, IsTrue, Some, List, [], ◌∷◌, length};
ghost use Rattle.era_core.specs.Lists.{In};
ghost use Rattle.era_core.specs.Versions.{look_up};
ghost use Rattle.era_core.specs.declared.sizes.TheConstants.{WIDTH, KINDS};
ghost use Rattle.era_rows.specs.Known.{known_words};
ghost use Rattle.era_rows.specs.Passes.{known_of, work_of, IsReadable};
ghost use Rattle.pls_vectors.specs.Box.{Box};
ghost use Rattle.pls_vectors.specs.Dominance.{weakly_dominates};
ghost use Rattle.nd_rows.specs.declared.layout.TheConstants.{FIRST_LINK, IDEAL, NADIR, VALUE, SOL_WORDS, PARTS};
ghost use Rattle.nd_rows.specs.Layout.{HasWords, HasValue, IsBoxRow, IsPointRow};
ghost use Rattle.nd_update.specs.Building.{Does, IsBuilding, Outside};
ghost use Rattle.nd_update.specs.Counted.{WasRead};
ghost use Rattle.nd_update.specs.Needed.{ReadsOnly};

use era_core::KINDS;
use era_rows::{Pass, Rows};
use nd_rows::{
    FIRST_LINK, IDEAL, NADIR, NdLaw, PARTS, POINT, SOL_LEN, SOL_WORDS, VALUE, part_word,
};
use pls_archive::Point;
use pls_vectors::{Range, Sol, Vector, from_word};

// The word at a place of a row that is fresh or in the pinned tree.
pub(crate) fn read_word(rows: &Rows<NdLaw>, pass: &mut Pass<NdLaw>, row: u32, place: u32) -> u64
    requires building { IsBuilding rows.now pass.old }
    requires row { IsReadable row (known_of pass.old) }
    requires place { place < WIDTH }
    ensures does { Does rows.now [] [] [] pass.old pass.new }
    ensures work { work_of pass.new ≡ work_of pass.old }
    ensures word { (w : ℕ) → look_up (known_words (known_of pass.old)) row place ≡ Some w → result ≡ w }
    ensures read { WasRead row (known_of pass.new) }
    ensures only { ReadsOnly (row ∷ []) (known_of pass.old) (known_of pass.new) }
{
    rows.read(pass, row, place)
}

// The value that stands in a row from a place on.
pub(crate) fn read_value(rows: &Rows<NdLaw>, pass: &mut Pass<NdLaw>, row: u32, place: u32) -> Vector
    requires building { IsBuilding rows.now pass.old }
    requires row { IsReadable row (known_of pass.old) }
    requires place { place + 4 ≤ WIDTH }
    requires value { (v : List ℤ) × HasValue rows.now.shape (known_words (known_of pass.old)) row place v }
    ensures does { Does rows.now [] [] [] pass.old pass.new }
    ensures work { work_of pass.new ≡ work_of pass.old }
    ensures value { (v : List ℤ) → HasValue rows.now.shape (known_words (known_of pass.old)) row place v → result ≡ v }
    ensures read { 0 < rows.now.shape → WasRead row (known_of pass.new) }
    ensures only { ReadsOnly (row ∷ []) (known_of pass.old) (known_of pass.new) }
{
    let mut parts = [0; 4];
    let len = rows.shape() as usize;
    for k in 0..len {
        let found = read_word(rows, pass, row, place + k as u32);
        parts[k] = from_word(found);
    }
    Vector::from_places(len, parts)
}

// The box of a node.
pub(crate) fn read_box(rows: &Rows<NdLaw>, pass: &mut Pass<NdLaw>, row: u32) -> Range
    requires building { IsBuilding rows.now pass.old }
    requires row { IsReadable row (known_of pass.old) }
    requires boxed { (b : Box) × IsBoxRow rows.now.shape (known_words (known_of pass.old)) row b × IsTrue (weakly_dominates b.ideal b.nadir) }
    ensures does { Does rows.now [] [] [] pass.old pass.new }
    ensures work { work_of pass.new ≡ work_of pass.old }
    ensures boxed { (b : Box) → IsBoxRow rows.now.shape (known_words (known_of pass.old)) row b → IsTrue (weakly_dominates b.ideal b.nadir) → result ≡ b }
    ensures read { 0 < rows.now.shape → WasRead row (known_of pass.new) }
    ensures only { ReadsOnly (row ∷ []) (known_of pass.old) (known_of pass.new) }
{
    let ideal = read_value(rows, pass, row, IDEAL);
    let nadir = read_value(rows, pass, row, NADIR);
    let mut range = Range::of(ideal);
    range.grow(nadir);
    range
}

// Writes a word into a fresh row.
pub(crate) fn write_word(
    rows: &Rows<NdLaw>,
    pass: &mut Pass<NdLaw>,
    row: u32,
    place: u32,
    word: u64,
)
    requires building { IsBuilding rows.now pass.old }
    requires fresh { In row (known_of pass.old).core.fresh }
    requires place { place < WIDTH }
    ensures does { Does rows.now [] [] (row ∷ []) pass.old pass.new }
    ensures work { work_of pass.new ≡ work_of pass.old }
    ensures outside { Outside row place (place + 1) (known_words (known_of pass.old)) (known_words (known_of pass.new)) }
    ensures word { look_up (known_words (known_of pass.new)) row place ≡ Some word }
    ensures only { ReadsOnly [] (known_of pass.old) (known_of pass.new) }
{
    rows.write(pass, row, place, word);
}

// Writes word 0 of a row of this kind, with so many links.
pub(crate) fn write_first(
    rows: &Rows<NdLaw>,
    pass: &mut Pass<NdLaw>,
    row: u32,
    kind: u64,
    count: u32,
)
    requires building { IsBuilding rows.now pass.old }
    requires fresh { In row (known_of pass.old).core.fresh }
    requires kind { kind < KINDS }
    ensures does { Does rows.now [] [] (row ∷ []) pass.old pass.new }
    ensures work { work_of pass.new ≡ work_of pass.old }
    ensures outside { Outside row 0 1 (known_words (known_of pass.old)) (known_words (known_of pass.new)) }
    ensures word { look_up (known_words (known_of pass.new)) row 0 ≡ Some (KINDS * count + kind) }
    ensures only { ReadsOnly [] (known_of pass.old) (known_of pass.new) }
{
    write_word(rows, pass, row, 0, KINDS * u64::from(count) + kind);
}

// Writes the parts of a value into a fresh row, from a place on.
pub(crate) fn write_value(
    rows: &Rows<NdLaw>,
    pass: &mut Pass<NdLaw>,
    row: u32,
    place: u32,
    value: &Vector,
)
    requires building { IsBuilding rows.now pass.old }
    requires fresh { In row (known_of pass.old).core.fresh }
    requires place { place + 4 ≤ WIDTH }
    ensures does { Does rows.now [] [] (row ∷ []) pass.old pass.new }
    ensures work { work_of pass.new ≡ work_of pass.old }
    ensures outside { Outside row place (place + 4) (known_words (known_of pass.old)) (known_words (known_of pass.new)) }
    ensures value { HasValue (length value.now) (known_words (known_of pass.new)) row place value.now }
    ensures only { ReadsOnly [] (known_of pass.old) (known_of pass.new) }
{
    for k in 0..value.len() {
        write_word(rows, pass, row, place + k as u32, part_word(value, k));
    }
}

// Writes the corners of a box into the row of a node.
pub(crate) fn write_box(rows: &Rows<NdLaw>, pass: &mut Pass<NdLaw>, row: u32, range: &Range)
    requires building { IsBuilding rows.now pass.old }
    requires fresh { In row (known_of pass.old).core.fresh }
    requires parts { (length range.now.ideal ≡ rows.now.shape) × (length range.now.nadir ≡ rows.now.shape) }
    ensures does { Does rows.now [] [] (row ∷ []) pass.old pass.new }
    ensures work { work_of pass.new ≡ work_of pass.old }
    ensures outside { Outside row IDEAL (NADIR + 4) (known_words (known_of pass.old)) (known_words (known_of pass.new)) }
    ensures boxed { IsBoxRow rows.now.shape (known_words (known_of pass.new)) row range.now }
    ensures only { ReadsOnly [] (known_of pass.old) (known_of pass.new) }
{
    write_value(rows, pass, row, IDEAL, &range.ideal());
    write_value(rows, pass, row, NADIR, &range.nadir());
}

// Writes the words of a solution into the row of a point.
fn write_sol(rows: &Rows<NdLaw>, pass: &mut Pass<NdLaw>, row: u32, sol: &Sol)
    requires building { IsBuilding rows.now pass.old }
    requires fresh { In row (known_of pass.old).core.fresh }
    requires words { length sol.now.words ≡ 32 }
    ensures does { Does rows.now [] [] (row ∷ []) pass.old pass.new }
    ensures work { work_of pass.new ≡ work_of pass.old }
    ensures outside { Outside row SOL_WORDS PARTS (known_words (known_of pass.old)) (known_words (known_of pass.new)) }
    ensures words { HasWords (known_words (known_of pass.new)) row SOL_WORDS sol.now.words }
    ensures only { ReadsOnly [] (known_of pass.old) (known_of pass.new) }
{
    for k in 0..32 {
        write_word(rows, pass, row, SOL_WORDS + k as u32, sol.word(k));
    }
}

// Writes a point into a fresh row.
pub(crate) fn write_point(rows: &Rows<NdLaw>, pass: &mut Pass<NdLaw>, row: u32, point: &Point)
    requires building { IsBuilding rows.now pass.old }
    requires fresh { In row (known_of pass.old).core.fresh }
    requires parts { length point.now.value ≡ rows.now.shape }
    ensures does { Does rows.now [] [] (row ∷ []) pass.old pass.new }
    ensures work { work_of pass.new ≡ work_of pass.old }
    ensures point { IsPointRow rows.now.shape (known_words (known_of pass.new)) (record { row = row; point = point.now }) }
    ensures only { ReadsOnly [] (known_of pass.old) (known_of pass.new) }
{
    write_first(rows, pass, row, POINT, 0);
    write_value(rows, pass, row, VALUE, &point.value);
    write_word(rows, pass, row, SOL_LEN, u64::from(point.sol.len()));
    write_sol(rows, pass, row, &point.sol);
    write_word(rows, pass, row, PARTS, point.value.len() as u64);
}

// Copies the first links of a node into a fresh row.
pub(crate) fn copy_links(rows: &Rows<NdLaw>, pass: &mut Pass<NdLaw>, from: u32, to: u32, count: u32)
    requires building { IsBuilding rows.now pass.old }
    requires from { IsReadable from (known_of pass.old) }
    requires to { In to (known_of pass.old).core.fresh }
    requires links { (links : List ℕ) × HasWords (known_words (known_of pass.old)) from FIRST_LINK links × (length links ≡ count) }
    requires apart { from ≡ to → ⊥ }
    requires few { count ≤ 20 }
    ensures does { Does rows.now [] [] (to ∷ []) pass.old pass.new }
    ensures work { work_of pass.new ≡ work_of pass.old }
    ensures outside { Outside to FIRST_LINK (FIRST_LINK + count) (known_words (known_of pass.old)) (known_words (known_of pass.new)) }
    ensures links { (links : List ℕ) → HasWords (known_words (known_of pass.old)) from FIRST_LINK links → length links ≡ count → HasWords (known_words (known_of pass.new)) to FIRST_LINK links }
    ensures only { ReadsOnly (from ∷ []) (known_of pass.old) (known_of pass.new) }
{
    for k in 0..count {
        let link = read_word(rows, pass, from, FIRST_LINK + k);
        write_word(rows, pass, to, FIRST_LINK + k, link);
    }
}
