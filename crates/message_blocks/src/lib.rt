// NIST SP 800-38B, 6.2, steps 2 to 4: the blocks of a message. The message is `head` and `body` laid end to end. Blocks are counted from 0
// here, so that block i is M_(i+1) of the standard.
#![tactic(auto)]

ghost use Rattle.std.specs.Prelude.{◌≡◌, ◌++◌, ◌+◌, ◌*◌, ◌^◌, ◌<◌, length};
ghost use Rattle.octets.specs.Lists.{octet, tab};
ghost use Rattle.columns.specs.Columns.{state_from};
ghost use Rattle.message_blocks.specs.Blocks.{block_count, block};

use columns::{words_at, words_of};
use octets::{octet_at, xors};

// Octet i of the message, and 0 past its end.
fn message_octet(head: &[u8], body: &[u8], i: usize) -> u8
    ensures { result ≡ octet (head.now ++ body.now) i }
{
    if i < head.len() {
        return head[i];
    }
    octet_at(body, i - head.len())
}

// Block i as it lies in the message, with zeros past the end. The bound keeps the place of its last octet within a usize.
fn gathered(head: &[u8], body: &[u8], i: usize) -> [u8; 16]
    requires { i < 2 ^ 60 }
    ensures { result ≡ tab 16 (λ j. octet (head.now ++ body.now) (16 * i + j)) }
{
    let mut out = [0u8; 16];
    for j in 0..16 {
        out[j] = message_octet(head, body, 16 * i + j);
    }
    out
}

// Step 2: the number of blocks of a message of `length` octets. The empty message has one.
pub fn block_count(length: usize) -> usize
    ensures { result ≡ block_count length }
{
    length.div_ceil(16).max(1)
}

// Step 4: block i of the message; the last one is masked by the first subkey if it is complete, and else filled and masked by the second.
fn message_block(first: [u8; 16], second: [u8; 16], head: &[u8], body: &[u8], i: usize) -> [u8; 16]
    requires { i < block_count (length (head.now ++ body.now)) }
    ensures { result ≡ block first second (head.now ++ body.now) (i + 1) }
{
    let mut out = gathered(head, body, i);
    let rest = head.len() + body.len() - 16 * i;
    if 16 < rest {
        return out;
    }
    if rest == 16 {
        return xors(first, out);
    }
    out[rest] = 0x80;
    xors(second, out)
}

// The words of block i. One that lies whole in the body with more after it, as nearly all do, is read by fours, with no test for each octet.
pub fn message_words(
    first: [u8; 16],
    second: [u8; 16],
    head: &[u8],
    body: &[u8],
    i: usize,
) -> [u32; 4]
    requires { i < block_count (length (head.now ++ body.now)) }
    ensures { state_from result ≡ block first second (head.now ++ body.now) (i + 1) }
{
    if head.len() <= 16 * i {
        let at = 16 * i - head.len();
        if at < body.len() {
            if 16 < body.len() - at {
                return words_at(body, at);
            }
        }
    }
    words_of(message_block(first, second, head, body, i))
}
