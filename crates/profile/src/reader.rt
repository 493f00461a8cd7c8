// The profile reader: kind and number fields of a string, or the number of the row that refuses it; and the byte-string entry.
ghost use Rattle.std.specs.Prelude.{ℕ, ◌≡◌, List, [], true, cond};
ghost use Rattle.text.specs.Text.{all};
ghost use Rattle.text.specs.Place.{bytes_answered};
ghost use Rattle.grammar.specs.Parts.{text_of};
ghost use Rattle.grammar.specs.Pieces.{pieces};
ghost use Rattle.grammar.specs.Items.{items};
ghost use Rattle.grammar.specs.Rules.{is_item, grammar_number};
ghost use Rattle.grammar.specs.Layout.{places_of};
ghost use Rattle.table.specs.Limits.{edition_two};
ghost use Rattle.profile.specs.Fields.{read_version};
ghost use Rattle.profile.specs.Entries.{kind_number, kind_of, version_or, version_answer, algorithm_version_of, read_answer, reading, algorithm_version, decoded};
ghost use Rattle.profile.specs.ReaderSteps.{span_text, ValuesAre, chosen_text, ParsedIs};

use crate::fields::{ByteString, Kind, NumberFields, Record};
use crate::judge::judge;
use crate::parsed::ParsedString;
use crate::values::{Values, no_values, values_in};
use b64::decoder::decode;
use grammar::places::{Places, Span, part};
use grammar::version::version_number;
use refusals::Refusal;
use table::columns::column_of;
use table::ids::id_number;
use table::version::Version;
use text::units::Bytes;

// The version of a version piece that keeps its rule, or absent.
fn version_in(s: &[u8], span: Span) -> Version
    ensures { result ≡ read_version (span_text s.now span) }
{
    if span.at == 0 {
        return Version::Absent;
    }
    match version_number(part(s, span)) {
        Ok(n) => Version::Number(n as u32),
        Err(_) => Version::Number(0),
    }
}

fn kind_of(salt: Span, output: Span) -> Kind
    ensures { (s : List ℕ) → kind_number result ≡ kind_of (span_text s salt) (span_text s output) }
{
    if output.at != 0 {
        Kind::Hash
    } else if salt.at != 0 {
        Kind::Salt
    } else {
        Kind::Parameters
    }
}

// The version that a version field means, where an absent one means `implied`.
fn version_or(implied: u32, version: Version) -> u32
    ensures { result ≡ version_or implied version }
{
    match version {
        Version::Absent => implied,
        Version::Number(n) => n,
    }
}

// The values of the parameter piece, where there is one.
fn values_at(params: &[u8], there: bool) -> Values
    requires { there ≡ true → all is_item (items params.now) ≡ true }
    ensures { ValuesAre params.now (cond there (items params.now) []) result }
{
    if there {
        values_in(params)
    } else {
        no_values()
    }
}

// A string that the grammar accepts, with the places of its pieces.
fn read_pieces(s: &[u8], places: Places) -> Result<ParsedString, Refusal>
    requires { (grammar_number s.now ≡ 0) × (places ≡ places_of (pieces s.now)) }
    ensures { ParsedIs s.now result }
{
    let id = id_number(part(s, places.id));
    let version = version_in(s, places.version);
    let params = part(s, places.params);
    let values = values_at(params, places.params.at != 0);
    let costs = judge(
        column_of(id),
        version,
        params,
        values,
        s,
        places.salt,
        places.output,
    )?;
    Ok(ParsedString {
        reading: Record {
            kind: kind_of(places.salt, places.output),
            fields: NumberFields {
                id,
                version,
                m: costs.m,
                t: costs.t,
                p: costs.p,
            },
        },
        places,
        values,
    })
}

// One reading of any string.
fn parse(s: &[u8]) -> Result<ParsedString, Refusal>
    ensures { ParsedIs s.now result }
{
    let layout = grammar::pieces::read(s)?;
    read_pieces(s, layout.places)
}

// The profile reader: kind, id, version, m, t and p of a string; or 1 to 15.
pub fn read(s: &[u8]) -> Result<Record, Refusal>
    ensures { read_answer result ≡ reading edition_two s.now }
{
    let parsed = parse(s)?;
    Ok(parsed.reading)
}

// The algorithm version that the number fields of a reader's answer mean: the one written, or the one that the profile implies. Free answer: fields
// made by hand go by their id.
pub fn algorithm_version_of(fields: NumberFields) -> u32
    ensures { (number kind : ℕ) → record { number = number; version = result } ≡ algorithm_version_of edition_two (record { number = number; kind = kind; fields = fields }) }
{
    let column = column_of(fields.id);
    version_or(column.implied, fields.version)
}

// The algorithm version that a string means, or the reader's refusal.
pub fn algorithm_version(s: &[u8]) -> Result<u32, Refusal>
    ensures { version_answer result ≡ algorithm_version edition_two s.now }
{
    let found = read(s)?;
    Ok(algorithm_version_of(found.fields))
}

// The text at a span; empty where it is not there.
fn text_at(t: &[u8], span: Span) -> &[u8]
    ensures { result.now ≡ text_of (span_text t.now span) }
{
    if span.at == 0 { b"" } else { part(t, span) }
}

// The text of a byte string in what was read.
fn text_of(s: &[u8], parsed: ParsedString, choice: ByteString) -> &[u8]
    ensures { result.now ≡ chosen_text s.now parsed choice }
{
    let places = parsed.places;
    match choice {
        ByteString::Keyid => text_at(part(s, places.params), parsed.values.keyid),
        ByteString::Data => text_at(part(s, places.params), parsed.values.data),
        ByteString::Salt => text_at(s, places.salt),
        ByteString::Output => text_at(s, places.output),
    }
}

// Decodes one of the four byte strings into `buf` from `at` on; the count is the decoded length, 0 when absent. 1 to 15, then 17.
pub fn byte_string(
    s: &[u8],
    choice: ByteString,
    buf: &mut [u8],
    at: usize,
) -> Result<Bytes, Refusal>
    ensures { bytes_answered result buf.new ≡ decoded edition_two choice s.now buf.old at }
{
    let accepted = parse(s)?;
    decode(text_of(s, accepted, choice), buf, at)
}
