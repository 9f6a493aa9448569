//! The lines of the heap: its free blocks, by address.

ghost use Rattle.std.specs.Prelude.{◌≡◌, ◌≤◌, ◌+◌, ◌*◌, ◌++◌, ◌∷◌, [], IfOk, map};
ghost use Rattle.reference_boot.specs.FirstBlocks.{FirstWithin};
ghost use Rattle.xinu_model.specs.Heap.Cells as cells;
ghost use Rattle.xinu_model.specs.Text as model;

use reference_state::Heap;
use reference_tables::push;
use xinu_base::{NoMemory, TranscriptLine};

/// The lines of the free blocks of the heap.
pub(crate) fn push_free(lines: &mut Vec<TranscriptLine>, heap: &Heap) -> Result<(), NoMemory>
    ensures pushed { IfOk result (λ _. lines.new.items ≡ lines.old.items ++ map model.free_line (cells.free_blocks heap.now)) }
{
    let blocks = free_blocks(heap)?;
    push_blocks(lines, &blocks)?;
    Ok(())
}

// The lines of blocks.
fn push_blocks(lines: &mut Vec<TranscriptLine>, blocks: &[(u32, u32)]) -> Result<(), NoMemory>
    ensures pushed { IfOk result (λ _. lines.new.items ≡ lines.old.items ++ map model.free_line blocks.now) }
{
    for block in blocks {
        push_block(lines, *block)?;
    }
    Ok(())
}

// The line of a block.
fn push_block(lines: &mut Vec<TranscriptLine>, block: (u32, u32)) -> Result<(), NoMemory>
    ensures pushed { IfOk result (λ _. lines.new.items ≡ lines.old.items ++ model.free_line block ∷ []) }
{
    push(lines, TranscriptLine::Free(block.0, block.1))
}

// The free blocks of the heap, by address: each free cell joins the blocks after it.
fn free_blocks(heap: &Heap) -> Result<Vec<(u32, u32)>, NoMemory>
    ensures blocks { IfOk result (λ l. l.items ≡ cells.free_blocks heap.now) }
{
    let mut blocks = Vec::new(*heap.cells.allocator());
    for i in (0..heap.cells.len()).rev() {
        if heap.cells[i] {
            join(&mut blocks, heap.low + 8 * i as u32)?;
        }
    }
    Ok(blocks)
}

// A free cell at an address joins the blocks after it.
fn join(blocks: &mut Vec<(u32, u32)>, a: u32) -> Result<(), NoMemory>
    requires in_ram { a + 8 ≤ 1048576 }
    requires within { FirstWithin 1048576 blocks.old.items }
    ensures joined { IfOk result (λ _. blocks.new.items ≡ cells.with_cell a blocks.old.items) }
    ensures within { IfOk result (λ _. FirstWithin 1048576 blocks.new.items) }
{
    if let Some(b) = blocks.first_mut() {
        if b.0 == a + 8 {
            *b = (a, b.1 + 8);
            return Ok(());
        }
    }
    blocks.insert(0, (a, 8)).map_err(|_| NoMemory)
}
