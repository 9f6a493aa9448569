//! The calls on a heap.

ghost use Rattle.std.specs.Prelude.{◌≡◌, length, if◌then◌else◌};
ghost use Rattle.heap_c.specs.Answers.{answered, answers_of};

use freelist_memory::Heap;

/// What is answered to a call that is refused.
const REFUSED: u32 = 0xffff_ffff;

/// A call on a heap.
#[repr(C)]
#[derive(Clone, Copy)]
pub struct HeapCall {
    /// 0 for `getmem`, 1 for `freemem`, 2 for `getstk`, 3 for `freestk`. Any other is refused.
    pub kind: u32,
    /// The address of what is given back, of its first byte, or of a stack's highest word. It isn't read if memory is taken.
    pub address: u32,
    /// How many bytes are taken or given back.
    pub bytes: u32,
}

/// Makes the calls one after another, and writes what each answers.
pub(crate) fn answer_all(heap: &mut Heap, calls: &[HeapCall], answers: &mut [u32])
    requires same { length answers.old ≡ length calls.now }
    ensures answers { answers.new ≡ answers_of heap.old calls.now }
{
    for k in 0..calls.len() {
        answers[k] = answer(heap, calls[k]);
    }
}

// Makes a call.
fn answer(heap: &mut Heap, call: HeapCall) -> u32
    ensures answer { result ≡ (answered heap.old call).answer }
    ensures heap { heap.new ≡ (answered heap.old call).heap }
{
    match call.kind {
        0 => heap.getmem(call.bytes).unwrap_or(REFUSED),
        1 => given(heap.freemem(call.address, call.bytes)),
        2 => heap.getstk(call.bytes).unwrap_or(REFUSED),
        3 => given(heap.freestk(call.address, call.bytes)),
        _ => REFUSED,
    }
}

// What is answered if memory is given back.
fn given(is_taken: bool) -> u32
    ensures given { result ≡ (if is_taken then 0 else 4294967295) }
{
    if is_taken { 0 } else { REFUSED }
}
