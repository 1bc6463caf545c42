// Where everything of an image stands: one record for each version, and nothing else names its numbers.
ghost use Rattle.std.specs.Prelude.{◌≡◌};
ghost use Rattle.bodies.specs.Layout.{layout_of, version_ok, Lawful};

// The fields that every version has, at the same places of a body.
pub(crate) const SERVICE: usize = 0;

pub(crate) const KIND: usize = 1;

pub(crate) const DIRECTION: usize = 2;

pub const STATE: usize = 3;

pub(crate) const SPACECRAFT: usize = 4;

pub(crate) const CHANNEL: usize = 6;

pub(crate) const MAP: usize = 7;

pub const WINDOW: usize = 8;

pub(crate) const MASK: usize = 10;

pub(crate) const MASK_LENGTH: usize = 6;

// The octets of a mark, coded.
pub(crate) const CODE_LENGTH: usize = 4;

#[derive(Clone, Copy)]
pub struct Layout {
    pub version: u8,
    // The octets of a body, and where in it key and mark stand.
    pub body: u8,
    pub key: u8,
    pub mark: u8,
    // The entries that the contents have beyond the count.
    pub extra: u8,
    // Whether a TM body holds a set of channels in place of one.
    pub sets: bool,
    // Whether the keys stand in a part of their own, so that a body holds a key's ID in place of the key.
    pub keys: bool,
    // Whether an octet behind the mark holds the body's owner.
    pub owners: bool,
}

const VERSION_ONE: Layout = Layout {
    version: 1,
    body: 52,
    key: 16,
    mark: 48,
    extra: 0,
    sets: false,
    keys: false,
    owners: false,
};

const VERSION_TWO: Layout = Layout {
    version: 2,
    sets: true,
    ..VERSION_ONE
};

const VERSION_THREE: Layout = Layout {
    version: 3,
    body: 22,
    mark: 18,
    extra: 1,
    keys: true,
    ..VERSION_TWO
};

const VERSION_FOUR: Layout = Layout {
    version: 4,
    body: 23,
    owners: true,
    ..VERSION_THREE
};

// The layout of a version; another number is read as version 1 is, and is not the number of that layout.
pub fn layout_of(version: u8) -> Layout
    ensures { (result ≡ layout_of version) × Lawful result }
{
    if version == 4 {
        return VERSION_FOUR;
    }
    if version == 3 {
        return VERSION_THREE;
    }
    if version == 2 {
        return VERSION_TWO;
    }
    VERSION_ONE
}

// There is a version if it has a layout of its own.
pub fn version_ok(version: u8) -> bool
    ensures { result ≡ version_ok version }
{
    version == layout_of(version).version
}
