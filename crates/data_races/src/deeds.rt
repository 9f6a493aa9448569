//! What an instruction does with memory, against what it changes and what it depends on.

ghost use Rattle.std.specs.Prelude.{◌≡◌, ◌≢◌, ◌+◌, ◌<◌, ◌≤◌, ℕ, List, length, slice_index, false, true};
ghost use Rattle.std.specs.List.{Contains};
ghost use Rattle.happens_before.specs.Histories.{Accessed};
ghost use Rattle.xinu_base.specs.declared.registers.Hart.{Hart};
ghost use Rattle.xinu_model.specs.Isa.Exec.{exec};
ghost use Rattle.xinu_model.specs.Memory.{ram_size};
ghost use Rattle.data_races.specs.Instructions.{instruction_deeds};

/// An instruction changes no byte but those that it stores to.
pub fn instructions_store_what_they_change()
    ensures { (p : ℕ) (h : Hart) (memory : List ℕ) (b : ℕ) → length memory ≡ ram_size →
        slice_index (exec h memory).memory b ≢ slice_index memory b →
        Contains (instruction_deeds p h memory) (Accessed (record { process = p; byte = b; stores = true; place = h.pc })) }
{}

/// What an instruction does to its process depends on no byte but those that it fetches and those that it loads.
pub fn instructions_load_what_they_depend_on()
    ensures { (p : ℕ) (h : Hart) (one two : List ℕ) → ((b : ℕ) → h.pc ≤ b → b < h.pc + 4 → slice_index one b ≡ slice_index two b) →
        ((b : ℕ) → Contains (instruction_deeds p h one) (Accessed (record { process = p; byte = b; stores = false; place = h.pc })) →
        slice_index one b ≡ slice_index two b) →
        ((exec h one).hart ≡ (exec h two).hart) × ((exec h one).outcome ≡ (exec h two).outcome) }
{}
