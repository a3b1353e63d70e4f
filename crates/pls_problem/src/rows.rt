ghost use Rattle.std.specs.Prelude.{◌≡◌, ◌+◌, ◌*◌, ◌≤◌, length};
ghost use Rattle.pls_problem.specs.Rows.{row_of};

/// A row of a table whose rows of `items` numbers stand one after another.
pub fn row_of(table: &[u32], items: u16, row: u8) -> &[u32]
    requires { (row + 1) * items ≤ length table.now }
    ensures { result.now ≡ row_of items row table.now }
{
    let items = items as usize;
    &table[row as usize * items..][..items]
}
