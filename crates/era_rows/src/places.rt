//! Where the words of the table stand.
ghost use Rattle.std.specs.Prelude.{◌≡◌, ◌<◌};
ghost use Rattle.era_core.specs.Words.{reservation_at, owner_at, cell_at};

use crate::law::Law;
use crate::rows::Rows;
use era_core::WIDTH;

impl<L: Law> Rows<L> {
    // The place of the reservation of a pass.
    pub(crate) fn reservation_place(&self, number: u32) -> usize
        ensures { result ≡ reservation_at self.now.passes self.now.rows number }
    {
        1 + number as usize
    }

    // The place of the owner of a row.
    pub(crate) fn owner_place(&self, row: u32) -> usize
        requires { row < self.now.rows }
        ensures { result ≡ owner_at self.now.passes self.now.rows row }
    {
        1 + self.passes as usize + row as usize
    }

    // The place of a word of a row.
    pub(crate) fn cell_place(&self, row: u32, place: u32) -> usize
        requires { (row < self.now.rows) × (place < WIDTH) }
        ensures { result ≡ cell_at self.now.passes self.now.rows row place }
    {
        self.cells + WIDTH as usize * row as usize + place as usize
    }
}
