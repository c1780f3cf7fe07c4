// Reply lines: "A reply is the call byte, the number, three figures of 8 bytes."
#![tactic(auto)]

ghost use Rattle.std.specs.Prelude.{◌≡◌, ◌+◌, ◌*◌, ◌≤◌, length};
ghost use Rattle.basics.specs.Bytes.{over};
ghost use Rattle.frames.specs.Hex.{hex_of};
ghost use Rattle.replies.specs.ReplyLine.{reply_bytes, reply_line, reply_line_size};

use frames::hex;
use rules::Reply;
use table::number::put_u64;

// The bytes of a reply.
const REPLY_SIZE: usize = 26;

// The characters of a reply line, its end with them.
pub const REPLY_LINE_SIZE: usize = 53;

// "A line ends with byte 0A, read or printed."
pub const LINE_END: u8 = b'\n';

fn reply_bytes(call: u8, r: Reply) -> [u8; REPLY_SIZE]
    ensures { result ≡ reply_bytes call r }
{
    let mut bytes = [0u8; REPLY_SIZE];
    bytes[0] = call;
    bytes[1] = (r.number % 256) as u8;
    put_u64(&mut bytes, 2, r.first);
    put_u64(&mut bytes, 10, r.second);
    put_u64(&mut bytes, 18, r.third);
    bytes
}

// The characters of bytes, from a place of the output on.
fn write_hex(bytes: &[u8], out: &mut [u8], at: usize)
    requires { at + 2 * length bytes.now ≤ length out.old }
    ensures { out.new ≡ over out.old at (hex_of bytes.now) }
{
    for (k, byte) in bytes.iter().enumerate() {
        out[at + 2 * k] = hex::high_digit(*byte);
        out[at + 2 * k + 1] = hex::low_digit(*byte);
    }
}

// The reply line, its end with it, from a place of the output on. The figures are taken apart from the two bytes before them, so that the machine
// reads them eight bytes at a time as they were written.
pub fn write_reply(call: u8, r: Reply, out: &mut [u8], at: usize)
    requires { at + reply_line_size ≤ length out.old }
    ensures { out.new ≡ over out.old at (reply_line call r) }
{
    let bytes = reply_bytes(call, r);
    write_hex(&bytes[..2], out, at);
    write_hex(&bytes[2..], out, at + 4);
    out[at + 2 * REPLY_SIZE] = LINE_END;
}
