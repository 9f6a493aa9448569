//! The reader of image files.

ghost use Rattle.std.specs.Prelude.{◌≡◌, ◌+◌, length, Some, None, MatchResult};
ghost use Rattle.image_loader.specs.ImageFiles.{first_failed, first_fault, header_tests, image_of, image_in};
ghost use Rattle.image_loader.specs.Images.{loaded_of};

use crate::faults::ImageFault;
use crate::header::{HEADER_SIZE, Header};
use crate::images::Image;
use crate::parts::Part;
use arrayvec::ArrayVec;

/// The image of a file's bytes, whose one part is the content after the header. It borrows the content: nothing is allocated.
///
/// # Errors
///
/// The first field that doesn't hold, in the order of `ImageFault`, if the bytes aren't an image file.
pub fn read_image(bytes: &[u8]) -> Result<Image<'_>, ImageFault>
    ensures loads { MatchResult result (λ image. image_in bytes.now ≡ Some (loaded_of image)) (λ _. image_in bytes.now ≡ None) }
    ensures fault { MatchResult result (λ _. first_fault bytes.now ≡ None) (λ fault. first_fault bytes.now ≡ Some fault) }
{
    if bytes.len() < HEADER_SIZE {
        return Err(ImageFault::Short);
    }
    let header = Header::of(bytes);
    match header.first_fault(bytes.len()) {
        Some(fault) => Err(fault),
        None => Ok(image_of(&header, &bytes[HEADER_SIZE..])),
    }
}

// The image of a header and the content after it, as its one part.
fn image_of<'a>(header: &Header, content: &'a [u8]) -> Image<'a>
    requires holds { first_failed (header_tests header.now (28 + length content.now)) ≡ None }
    ensures image { loaded_of result ≡ image_of header.now content.now }
{
    let mut parts = ArrayVec::new();
    parts.push(Part {
        place: header.place,
        bytes: content,
        size: header.length,
    });
    Image {
        parts,
        entry: header.entry,
        priority: header.priority as i16,
        stack: header.stack,
    }
}
