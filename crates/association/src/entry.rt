// An entry of an image in the words of a report.
ghost use Rattle.std.specs.Prelude.{◌≡◌};
ghost use Rattle.association.specs.Association.{entry_of};

use bodies::{direction_of, kind_in, service_of, state_of, window_of};
use image::{body_at, mark_in, spi_of, version_of};

// An entry as a report shows it. It holds no key.
#[derive(Clone, Copy)]
pub struct Entry {
    pub spi: u16,
    pub service: u8,
    pub kind: u8,
    pub direction: u8,
    pub state: u8,
    pub window: u16,
    pub mark: u32,
}

pub fn entry_at(image: &[u8], index: u8) -> Entry
    ensures { result ≡ entry_of image.now index }
{
    let version = version_of(image);
    let at = body_at(image, index);
    Entry {
        spi: spi_of(image, index),
        service: service_of(image, version, at),
        kind: kind_in(image, version, at),
        direction: direction_of(image, version, at),
        state: state_of(image, version, at),
        window: window_of(image, version, at),
        mark: mark_in(image, index),
    }
}
