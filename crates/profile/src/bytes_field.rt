// One byte string: its rule over the span of its text, and over its bytes. Sizes are in bytes, lengths of texts in characters.
ghost use Rattle.std.specs.Prelude.{ℕ, ◌≡◌, List};
ghost use Rattle.text.specs.Text.{violates};
ghost use Rattle.profile.specs.Fields.{is_decoded_size, is_bytes, unknown_bytes};
ghost use Rattle.profile.specs.Writer.{bytes_allowed};
ghost use Rattle.profile.specs.ReaderSteps.{span_text};

use b64::canonical::is_canonical;
use b64::lengths::decoded_len;
use grammar::places::{Span, part};
use table::bounds::is_size;
use table::limits::BytesRule;
use text::units::{Bytes, Chars};

// There where it is no parameter. The text doesn't matter.
pub fn unknown_bytes(rule: BytesRule, span: Span) -> bool
    ensures { (t : List ℕ) → result ≡ unknown_bytes rule (span_text t span) }
{
    match rule {
        BytesRule::Sized { .. } => false,
        BytesRule::Forbidden => span.at != 0,
    }
}

// There, and not of a permitted size.
pub fn bad_size(rule: BytesRule, t: &[u8], span: Span) -> bool
    ensures { result ≡ violates (is_decoded_size rule) (span_text t.now span) }
{
    span.at != 0 && !is_size(rule, decoded_len(Chars(part(t, span).len())))
}

// There, and not canonical or not of a permitted size.
pub fn bad_bytes(rule: BytesRule, t: &[u8], span: Span) -> bool
    ensures { result ≡ violates (is_bytes rule) (span_text t.now span) }
{
    span.at != 0 && (!is_canonical(part(t, span)) || bad_size(rule, t, span))
}

// Empty, or of a permitted size.
pub fn bytes_allowed(rule: BytesRule, bytes: &[u8]) -> bool
    ensures { result ≡ bytes_allowed rule bytes.now }
{
    bytes.is_empty() || is_size(rule, Bytes(bytes.len()))
}
