// Reading an image: two hexadecimal digits a byte, or `-` for no byte at all.
ghost use Rattle.std.specs.Prelude.{◌≡◌, ◌+◌, ◌<◌, [], ◌∷◌, ◌++◌, Decides};
ghost use Rattle.script.specs.Found.{Found, FoundValue};
ghost use Rattle.script.specs.Hex.{HexByte, PairsLong, PairsWritten, ImageWritten};
ghost use Rattle.script.specs.Images.{image_bytes};
ghost use Rattle.script.specs.Limits.{image_limit};

use super::{IMAGE_LIMIT, Image};

impl Image {
    // An image of no byte.
    fn empty() -> Image
        ensures { image_bytes result ≡ [] }
    {
        Image {
            bytes: [0; IMAGE_LIMIT],
            size: 0,
        }
    }

    // Adds a byte at the end.
    fn push(&mut self, byte: u8)
        requires { self.old.size < image_limit }
        ensures size { self.new.size ≡ self.old.size + 1 }
        ensures bytes { image_bytes self.new ≡ image_bytes self.old ++ byte ∷ [] }
    {
        self.bytes[self.size] = byte;
        self.size += 1;
    }
}

fn parse_hex_byte(high: u8, low: u8) -> Option<u8>
    ensures { FoundValue (HexByte high low) result }
{
    let tens = char::from(high).to_digit(16)?;
    let ones = char::from(low).to_digit(16)?;
    Some((16 * tens + ones) as u8)
}

// Whether so many digits write one to sixteen bytes.
fn is_pairs_long(len: usize) -> bool
    ensures { Decides result (PairsLong len) }
{
    (1..=2 * IMAGE_LIMIT).contains(&len) && len % 2 == 0
}

// One to sixteen bytes, two digits each.
fn parse_pairs(s: &[u8]) -> Option<Image>
    ensures { Found image_bytes (PairsWritten s.now) result }
{
    if !is_pairs_long(s.len()) {
        return None;
    }
    let (pairs, _) = s.as_chunks::<2>();
    let mut image = Image::empty();
    for [high, low] in pairs {
        image.push(parse_hex_byte(*high, *low)?);
    }
    Some(image)
}

pub(crate) fn parse_image(s: &[u8]) -> Option<Image>
    ensures { Found image_bytes (ImageWritten s.now) result }
{
    match s {
        [b'-'] => Some(Image::empty()),
        _ => parse_pairs(s),
    }
}
