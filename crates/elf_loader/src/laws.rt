//! A law on the files that are written.

ghost use Rattle.std.specs.Prelude.{◌≡◌, ◌<◌, ◌^◌, Some};
ghost use Rattle.elf_loader.specs.ElfFiles.{elf_image};
ghost use Rattle.elf_loader.specs.WrittenElf.{IsWholeImage, elf_file};
ghost use Rattle.image_loader.specs.Parts.{IsImage};
ghost use Rattle.xinu_model.specs.Boot.{Loaded};

/// The file that is written for an image of one part, whose content has the part's size, loads this image.
pub fn written_files_load()
    ensures { (image : Loaded) → IsImage image → IsWholeImage image → image.stack < 2 ^ 32 → elf_image (elf_file image) ≡ Some image }
{}
