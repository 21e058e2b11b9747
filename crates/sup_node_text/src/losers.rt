//! The lines of losers.

ghost use Rattle.std.specs.Prelude.{◌≡◌, IfOk, string_bytes};
ghost use Rattle.std.specs.List.{flat_map};
ghost use Rattle.sup_node_text.specs.Lines.{loser_line};

use std::alloc::{AllocError, Global};
use sup_tables::Loser;
use sup_text::DotText;

// The lines of a key's losers, in their order. The table is told by what an entry of it is called.
pub(crate) fn losers_text<V>(
    alloc: Global,
    table: &str,
    key: &str,
    losers: &[Loser<V>],
) -> Result<String, AllocError>
    ensures { IfOk result (λ s. string_bytes s ≡ flat_map (λ l. loser_line table.now key.now l.dot.now) losers.now) }
{
    let mut text = String::new(alloc);
    for loser in losers {
        let dot = DotText(*loser.dot);
        let line = format!(in alloc; "loser {table} {key} {dot}\n")?;
        text.push_str(line.as_str())?;
    }
    Ok(text)
}
