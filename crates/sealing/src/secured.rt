// Document 01, 'Frames': the secured frame, written to the front of the output piece behind piece.
ghost use Rattle.std.specs.Prelude.{◌≡◌, ◌++◌, ◌+◌, ◌≤◌, length, take, drop};
ghost use Rattle.kinds.specs.Kinds.{check_field_length, framed};
ghost use Rattle.frame.specs.Closing.{closed};
ghost use Rattle.frame.specs.Parts.{header_of};
ghost use Rattle.octets.specs.Output.{written};
ghost use Rattle.engines.specs.Lent.{Lent};
ghost use Rattle.services.specs.SecurityHeader.{security_length};
ghost use Rattle.protection.specs.Protection.{covered_in, secured_frame};
ghost use Rattle.services.specs.Steps.{text_under, mac_under};
ghost use Rattle.sealing.specs.Steps.{Securable};

use association::Held;
use check_field::field_octets;
use frame::{clear_parts, secured_length};
use kinds::Framing;
use octets::{put, put_behind};
use protection::{MOST_BEFORE, cover};
use security_header::{security_header, security_length};
use services::protect;

// A frame's header, its length rewritten for a frame of so many octets, and a security header.
fn write_headers(framing: Framing, size: usize, security: &[u8], frame: &[u8], output: &mut [u8])
    requires { ((framed framing).header frame.now ≤ length frame.now) × ((framed framing).header frame.now + length security.now ≤ length output.old) }
    ensures { output.new ≡ written ((framed framing).with_length size (header_of (framed framing) frame.now) ++ security.now) output.old }
{
    let kind = framing.kind;
    let header = kind.header_length(frame);
    put(&frame[..header], output);
    kind.rewrite_length(&mut output[..header], size);
    put_behind(security, header, output);
}

// The data as it goes out, behind the headers that stand in the output, and its MAC. What the MAC covers before the data is read from the
// output, where the length is rewritten already.
fn write_text(
    tables: &[u32],
    framing: Framing,
    held: Held,
    security: &[u8],
    clear: &[u8],
    output: &mut [u8],
) -> [u8; 16]
    requires lent { Lent tables.now }
    requires security_len { (length security.now ≡ security_length held) × (length clear.now ≤ 2048) × ((framed framing).header output.old + security_length held + length clear.now ≤ length output.old) }
    ensures value { result ≡ mac_under held security.now (covered_in held (framed framing) output.old) (text_under held security.now clear.now) }
    ensures output_after { output.new ≡ take ((framed framing).header output.old + security_length held) output.old ++ written (text_under held security.now clear.now) (drop ((framed framing).header output.old + security_length held) output.old) }
{
    let mask = held.mask;
    let mut before: [u8; MOST_BEFORE] = [0; MOST_BEFORE];
    let covered = cover(framing, mask, security.len(), output, &mut before);
    protect(
        tables,
        held,
        security,
        &before[..covered],
        clear,
        &mut output[covered..],
    )
}

// The check field, if the frame ends in one, behind the first n octets of the output, which are all the others: it is made last.
fn close(framing: Framing, n: usize, output: &mut [u8])
    requires { n + check_field_length framing.field ≤ length output.old }
    ensures { output.new ≡ written (closed (framed framing) (take n output.old)) output.old }
{
    if framing.field {
        let field = field_octets(&output[..n]);
        put_behind(&field, n, output);
    }
}

// The secured frame of a clear one. The tables say which engine makes the blocks of the cipher.
pub fn write_secured(
    tables: &[u32],
    framing: Framing,
    held: Held,
    spi: u16,
    n: u32,
    frame: &[u8],
    output: &mut [u8],
)
    requires lent { Lent tables.now }
    requires securable { Securable held (framed framing) frame.now (length output.old) }
    ensures { output.new ≡ written (secured_frame held (framed framing) spi n frame.now) output.old }
{
    let number = held.service;
    let security = security_length(number);
    let octets = security_header(number, held.naming, spi, n);
    let parts = clear_parts(framing, frame);
    let header = parts.header;
    let content = parts.content;
    let control = parts.control;
    let long = security as usize;
    write_headers(
        framing,
        secured_length(security, frame),
        &octets[..long],
        frame,
        output,
    );
    let mac = write_text(
        tables,
        framing,
        held,
        &octets[..long],
        &frame[header..content],
        output,
    );
    put_behind(&mac, content + long, output);
    put_behind(&frame[content..control], content + long + 16, output);
    close(framing, control + long + 16, output);
}
