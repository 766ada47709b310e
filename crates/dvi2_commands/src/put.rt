// Bytes that are written if they have room, and counted in any case.
ghost use Rattle.std.specs.Prelude.{◌<◌};
ghost use Rattle.octets.specs.PutIfRoom.{PutIfRoom};

// Writes bytes; gives the place after them.
pub fn put_bytes(out: &mut [u8], at: usize, bytes: &[u8]) -> usize
    requires { at < 4294967296 }
    ensures { PutIfRoom out.old at bytes.now out.new result }
{
    let next = at + bytes.len();
    if next <= out.len() {
        out[at..next].copy_from_slice(bytes);
    }
    next
}
