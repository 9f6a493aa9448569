//! The row of a word.

ghost use Rattle.std.specs.Prelude.{◌≡◌, ◌≤◌, length, IfSome};
ghost use Rattle.rv_disasm.specs.Disassembly.{row_seen};
ghost use Rattle.rv_disasm.specs.CodeRows.{seen_row};

use rv_isa::{Row, table};

/// The row whose bits a word has.
pub fn row_of(word: u32) -> Option<Row>
    ensures row { seen_row result ≡ row_seen word }
    ensures name { IfSome result (λ row. length row.name.now ≤ 6) }
{
    let rows = table();
    for row in &rows {
        if word & row.mask == row.bits {
            return Some(*row);
        }
    }
    None
}
