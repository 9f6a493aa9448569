//! What is true of every text that is assembled.

ghost use Rattle.std.specs.Prelude.{◌≡◌, ℕ, List, true, is_some};
ghost use Rattle.std.specs.List.{flat_map};
ghost use Rattle.image_loader.specs.ImageFiles.{image_in};
ghost use Rattle.rv_asm.specs.Assembly.{Header, assembly, image_file, Makes};
ghost use Rattle.rv_asm.specs.Listings.{Row, listed};

/// What is assembled loads.
pub fn assembled_loads()
    ensures loads { (text : List ℕ) → (file : List ℕ) → assembly text ≡ Makes file → is_some (image_in file) ≡ true }
{}

/// The bytes of a listing, one after another, are the content of the file.
pub fn listed_is_content()
    ensures content { (text : List ℕ) → (file : List ℕ) → assembly text ≡ Makes file → (h : Header) × (file ≡ image_file h (flat_map (λ (r : Row). r.bytes) (listed text))) }
{}
