// Chains of the modes, with the key set up in each call. Each call works on a message that holds what the one before gave, so none can be
// left out.

// The most octets of a message.
pub(crate) const MOST: usize = 2048;

const ADDITIONAL: [u8; 20] = *b"\
    \x00\x01\x02\x03\x04\x05\x06\x07\x08\x09\x0a\x0b\x0c\x0d\x0e\x0f\
    \x10\x11\x12\x13";

// Stores octets over the front of a message, as many as it has room for.
fn put(octets: &[u8], message: &mut [u8]) {
    for (place, octet) in message.iter_mut().zip(octets) {
        *place = *octet;
    }
}

// Adds a tag to the front of a message, as much of it as there is room for.
fn add(tag: [u8; 16], message: &mut [u8]) {
    for (place, octet) in message.iter_mut().zip(&tag) {
        *place ^= *octet;
    }
}

// The head is 12 octets, so that a block of the message lies in both parts.
fn mac(key: [u8; 32], message: &[u8]) -> [u8; 16] {
    let (head, rest) = message.split_at(message.len().min(12));
    cmac::mac(key, head, rest)
}

// MACs the message, then the message with that MAC over its front, and so on.
pub(crate) fn macs(key: [u8; 32], message: &mut [u8], count: u64) -> [u8; 16] {
    let mut last = [0u8; 16];
    for _ in 0..count {
        last = mac(key, message);
        put(&last, message);
    }
    last
}

// Seals the message, then the ciphertext with the tag added to its front, and so on.
pub(crate) fn seals(key: [u8; 32], message: &mut [u8], count: u64) -> [u8; 16] {
    let additional = ADDITIONAL;
    let mut out = [0u8; MOST];
    let mut last = [0u8; 16];
    for _ in 0..count {
        let sealed = gcm::seal(key, [0; 12], &additional, message, &mut out);
        let tag = sealed.unwrap_or([0; 16]);
        put(&out, message);
        add(tag, message);
        last = tag;
    }
    last
}
