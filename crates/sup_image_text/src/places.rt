//! Where a row stands among others, read from its text.
ghost use Rattle.std.specs.Prelude.{◌≡◌, ◌<◌, ◌^◌, ◌∷◌, List, ℕ, IfOk, decimal};
ghost use Rattle.json.specs.Token.{Token as Lexed, string, number};
ghost use Rattle.sup_specs.specs.Values.{Bytes};
ghost use Rattle.sup_tables.specs.Rows.{Table, table_place, table_of, key_of};
ghost use Rattle.sup_tables.specs.Lent.{row_lent, entry_lent};
ghost use Rattle.sup_image_text.specs.Places.{table_name, IsOrderOf};

use json::{Reader, Scratch, Token};
use std::alloc::AllocError;
use std::str;
use sup_tables::{LentEntry, LentRow};

// The next token's text.
fn next_text<'a>(reader: &mut Reader<'a>) -> &'a str
    ensures { (s : Bytes) (ts : List Lexed) → reader.old ≡ string s ∷ ts → (result.now ≡ s) × (reader.new ≡ ts) }
{
    match reader.next() {
        Some(Token::String(text)) => text,
        _ => "",
    }
}

// The next token's number.
fn next_number(reader: &mut Reader<'_>) -> u64
    ensures { (n : ℕ) (ts : List Lexed) → n < 2 ^ 64 → reader.old ≡ number (decimal n) ∷ ts → (result ≡ n) × (reader.new ≡ ts) }
{
    match reader.next() {
        Some(Token::Number(text)) => match text.parse::<u64>() {
            Ok(n) => n,
            Err(_) => 0,
        },
        _ => 0,
    }
}

// Where the table of this name stands among the three.
fn place_named(name: &str) -> u8
    ensures { (table : Table) → name.now ≡ table_name table → result ≡ table_place table }
{
    match name {
        "member" => 0,
        "child" => 1,
        _ => 2,
    }
}

fn place_of(entry: &LentEntry<'_>) -> u8
    ensures { result ≡ table_place (table_of (entry_lent entry.now)) }
{
    match entry {
        LentEntry::Member(..) => 0,
        LentEntry::Child(..) => 1,
        LentEntry::Name(..) => 2,
    }
}

fn key<'a>(entry: &LentEntry<'a>) -> &'a str
    ensures { result.now ≡ key_of (entry_lent entry.now) }
{
    match *entry {
        LentEntry::Member(name, _) => name.as_str(),
        LentEntry::Child(id, _) => id.as_str(),
        LentEntry::Name(name, _) => name.as_str(),
    }
}

// Whether the row of this text stands before another.
pub(crate) fn is_before(
    text: &[u8],
    other: &LentRow<'_>,
    scratch: &mut Scratch,
) -> Result<bool, AllocError>
    ensures { IfOk result (λ b. IsOrderOf text.now (row_lent other.now) b) }
{
    let text = match str::from_utf8(text) {
        Ok(text) => text,
        // No row's text.
        Err(_) => return Ok(false),
    };
    let mut reader = Reader::new(text, scratch)?;
    reader.next();
    let table = next_text(&mut reader);
    let row_key = next_text(&mut reader);
    reader.next();
    let node = next_text(&mut reader);
    let counter = next_number(&mut reader);
    let by_table = place_named(table).cmp(&place_of(&other.entry));
    let by_key = row_key.cmp(key(&other.entry));
    let by_counter = counter.cmp(&other.dot.counter);
    let by_node = node.cmp(other.dot.node.as_str());
    let by_dot = by_counter.then(by_node);
    Ok(by_table.then(by_key).then(by_dot).is_lt())
}
