//! The lines of a context.

ghost use Rattle.std.specs.Prelude.{◌≡◌, IfOk, string_bytes};
ghost use Rattle.std.specs.List.{flat_map};
ghost use Rattle.sup_node_text.specs.Cuts.{IsCutText, cloud_line, vector_line};

use std::alloc::{AllocError, Global};
use sup_causal::{CausalContext, Dot};
use sup_specs::NodeName;
use sup_text::DotText;

// The lines of a context's vector, by name, and of its cloud, in dot order.
pub(crate) fn cut_text(alloc: Global, context: &CausalContext) -> Result<String, AllocError>
    ensures { IfOk result (λ s. IsCutText context.now (string_bytes s)) }
{
    let vector = context.vector()?;
    let cloud = context.cloud()?;
    let vector = vector_text(alloc, &vector)?;
    let vector = vector.as_str();
    let cloud = cloud_text(alloc, &cloud)?;
    let cloud = cloud.as_str();
    format!(in alloc; "{vector}{cloud}")
}

fn vector_text(alloc: Global, vector: &[(NodeName, u64)]) -> Result<String, AllocError>
    ensures { IfOk result (λ s. string_bytes s ≡ flat_map vector_line vector.now) }
{
    let mut text = String::new(alloc);
    for (node, greatest) in vector {
        let node = node.as_str();
        let line = format!(in alloc; "vector {node} {greatest}\n")?;
        text.push_str(line.as_str())?;
    }
    Ok(text)
}

fn cloud_text(alloc: Global, cloud: &[Dot]) -> Result<String, AllocError>
    ensures { IfOk result (λ s. string_bytes s ≡ flat_map cloud_line cloud.now) }
{
    let mut text = String::new(alloc);
    for dot in cloud {
        let dot = DotText(*dot);
        let line = format!(in alloc; "cloud {dot}\n")?;
        text.push_str(line.as_str())?;
    }
    Ok(text)
}
