// An input image as a script writes it.
ghost use Rattle.std.specs.Prelude.{◌≡◌, ◌≤◌, length};
ghost use Rattle.script.specs.Limits.{image_limit};

pub mod bytes;
pub mod parse;

// The most bytes of an image.
const IMAGE_LIMIT: usize = 16;

// The first `size` of the bytes; what stands after them means nothing. No vector of the kit is Copy, as a command has to be.
#[derive(Clone, Copy)]
pub struct Image {
    bytes: [u8; IMAGE_LIMIT],
    size: usize,
    ghost sized: { length bytes ≡ image_limit },
    ghost within: { size ≤ image_limit },
}
