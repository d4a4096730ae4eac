// The bytes of an image.
ghost use Rattle.std.specs.Prelude.{◌≡◌};
ghost use Rattle.script.specs.Images.{image_bytes};

use super::Image;

impl Image {
    pub fn bytes(&self) -> &[u8]
        ensures { result.now ≡ image_bytes self.now }
    {
        &self.bytes[..self.size]
    }
}
