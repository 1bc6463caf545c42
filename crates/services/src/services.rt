// Document 01, 'Frames': the two services. `security` is the whole security header, and `before` what the MAC covers before the data. What comes
// in is read under the expanded key, since one call compares its MAC and releases its data. The tables say which engine makes the blocks. GCM
// refuses no text of a frame's length that has room, so what it seals and decrypts is unwrapped.
ghost use Rattle.std.specs.Prelude.{◌≡◌, ◌≤◌, length};
ghost use Rattle.octets.specs.Lists.{part};
ghost use Rattle.octets.specs.Same.{same};
ghost use Rattle.octets.specs.Output.{written};
ghost use Rattle.engines.specs.Lent.{Lent};
ghost use Rattle.key_schedule.specs.KeyExpansion.{key_expansion};
ghost use Rattle.services.specs.SecurityHeader.{security_length};
ghost use Rattle.services.specs.Steps.{text_under, clear_under, mac_under};

use association::Held;
use key_schedule::expand_key;
use octets::{copy_at, put};

// The field of a security header of service 2, as GCM takes it.
fn iv_in(security: &[u8]) -> [u8; 12]
    ensures { result ≡ part 2 12 security.now }
{
    let mut iv: [u8; 12] = [0; 12];
    copy_at(security, 2, &mut iv);
    iv
}

// The data as it goes out, to the front of `text`, and its MAC.
pub fn protect(
    tables: &[u32],
    held: Held,
    security: &[u8],
    before: &[u8],
    clear: &[u8],
    text: &mut [u8],
) -> [u8; 16]
    requires lent { Lent tables.now }
    requires security_len { (length security.now ≡ security_length held) × (length before.now ≤ 2048) × (length clear.now ≤ 2048) × (length clear.now ≤ length text.old) }
    ensures value { result ≡ mac_under held security.now before.now (text_under held security.now clear.now) }
    ensures text_after { text.new ≡ written (text_under held security.now clear.now) text.old }
{
    let key = held.key;
    let expanded = expand_key(key);
    if held.service == 2 {
        return gcm::seal_under(tables, &expanded, iv_in(security), before, clear, text).unwrap();
    }
    put(clear, text);
    cmac::mac_under(tables, &expanded, before, clear)
}

// Whether `mac` is the MAC of the data as it came in.
pub fn mac_is_right(
    tables: &[u32],
    held: Held,
    expanded: &[u8; 240],
    security: &[u8],
    before: &[u8],
    text: &[u8],
    mac: [u8; 16],
) -> bool
    requires lent { Lent tables.now }
    requires expanded_value { (expanded.now ≡ key_expansion held.key) × (length security.now ≡ security_length held) × (length before.now ≤ 2048) × (length text.now ≤ 2048) }
    ensures { result ≡ same (mac_under held security.now before.now text.now) mac }
{
    if held.service == 2 {
        return gcm::check_under(tables, expanded, iv_in(security), before, text, mac).is_ok();
    }
    cmac::check_under(tables, expanded, before, text, mac)
}

// The clear data to the front of `out`.
pub fn release(
    tables: &[u32],
    held: Held,
    expanded: &[u8; 240],
    security: &[u8],
    text: &[u8],
    out: &mut [u8],
)
    requires lent { Lent tables.now }
    requires expanded_value { (expanded.now ≡ key_expansion held.key) × (length security.now ≡ security_length held) × (length text.now ≤ 2048) × (length text.now ≤ length out.old) }
    ensures { out.new ≡ written (clear_under held security.now text.now) out.old }
{
    if held.service == 2 {
        gcm::decrypt_under(tables, expanded, iv_in(security), text, out).unwrap();
        return;
    }
    put(text, out);
}
