// What protects a frame: the fields of a body that its security header, its MAC and its window need.
ghost use Rattle.std.specs.Prelude.{◌≡◌};
ghost use Rattle.association.specs.Association.{held, naming_of};
ghost use Rattle.image.specs.Image.{body_of, key_of};

use bodies::{layout_of, mask_of, service_of, window_of};
use image::{body_at, key_of, spi_of, version_of};

#[derive(Clone, Copy)]
pub struct Held {
    pub service: u8,
    pub window: u16,
    pub mask: [u8; 6],
    pub key: [u8; 32],
    // What names the association in an IV.
    pub naming: u16,
}

// Its SPI, where several bodies may name one key; below version 3 nothing.
fn naming_of(image: &[u8], entry: u8) -> u16
    ensures { result ≡ naming_of image.now entry }
{
    if layout_of(version_of(image)).keys {
        return spi_of(image, entry);
    }
    0
}

pub fn held_at(image: &[u8], entry: u8) -> Held
    ensures { result ≡ held (body_of image.now entry) (key_of image.now entry) (naming_of image.now entry) }
{
    let version = version_of(image);
    let at = body_at(image, entry);
    Held {
        service: service_of(image, version, at),
        window: window_of(image, version, at),
        mask: mask_of(image, version, at),
        key: key_of(image, entry),
        naming: naming_of(image, entry),
    }
}
