// The station: its wiring, once it is loaded, and the last accepted image.
// No file of specs/ that names the record is imported here.
ghost use Rattle.std.specs.Prelude.{◌≡◌, length};
ghost use Rattle.station.specs.Image.{image_size};

use sheet::Wiring;

pub mod calls;
pub mod parts;
pub mod reads;
pub mod run;

#[derive(Drop)]
pub struct Station {
    wiring: Option<Wiring>,
    last: [u8; 8],
    ghost sized: { length last ≡ image_size },
}
