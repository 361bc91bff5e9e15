ghost use Rattle.std.specs.Prelude.{◌≡◌, IfOk, map};
ghost use Rattle.cwl_image.specs.Image as image;
ghost use Rattle.cwl_flow.specs.Blocks as block;

use crate::links::Kind;
use cwl_image::Linkage;
use std::alloc::Global;
use wdl_value::{Items, Key, NoMemory, Text};

/// The id of a reference within a block: `x`, and `call-output` for an output of a call.
pub fn id_of(alloc: Global, key: &Key) -> Result<Text, NoMemory>
    ensures { IfOk result (λ id. id ≡ image.id_of key.now) }
{
    let mut id = key.first.to_text(alloc)?;
    if let Some(second) = &key.second {
        id.push_ascii(b'-')?;
        id.push_str(second.as_str())?;
    }
    Ok(id)
}

/// The ids of references, in their order.
pub fn ids_of(alloc: Global, links: &[Linkage]) -> Result<Items<Text>, NoMemory>
    ensures { IfOk result (λ ids. ids ≡ map block.link_id links.now) }
{
    let mut ids = Items::new(alloc);
    for link in links {
        ids.push(id_of(alloc, &link.key)?)?;
    }
    Ok(ids)
}

/// The id of the step of a block: `scatter-k` or `if-k`.
#[tactic(auto, using(crate::proofs::Plain::plain))]
pub fn block_id(alloc: Global, kind: Kind, number: u32) -> Result<Text, NoMemory>
    ensures { IfOk result (λ id. id ≡ block.block_id kind number) }
{
    match kind {
        Kind::Scatter => Ok(Text::from_string(format!(in alloc; "scatter-{number}")?)),
        Kind::If => Ok(Text::from_string(format!(in alloc; "if-{number}")?)),
    }
}
