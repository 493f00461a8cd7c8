// The public decoder of B64 and the plain one, for the benchmark to call: each from the buffer's start.
ghost use Rattle.std.specs.Prelude.{◌≡◌};
ghost use Rattle.b64.specs.B64.{decoding};

use refusals::number_of;

// 0 and the bytes, or the refusal's number.
#[unsafe(no_mangle)]
pub extern "C" fn peer_decode(text: &[u8], buf: &mut [u8]) -> u64
    ensures { (result ≡ (decoding text.now buf.old 0).number) × (buf.new ≡ (decoding text.now buf.old 0).buffer) }
{
    let answer = b64::decoder::decode(text, buf, 0);
    u64::from(number_of(&answer))
}

// The same by the plain decoder.
#[unsafe(no_mangle)]
pub extern "C" fn peer_decode_plain(text: &[u8], buf: &mut [u8]) -> u64
    ensures { (result ≡ (decoding text.now buf.old 0).number) × (buf.new ≡ (decoding text.now buf.old 0).buffer) }
{
    let answer = crate::plain::decode(text, buf, 0);
    u64::from(number_of(&answer))
}
