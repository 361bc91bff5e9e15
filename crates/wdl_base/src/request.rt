ghost use Rattle.std.specs.Prelude.{◌≡◌, IfOk};

use crate::body::Laid;
use crate::error::NoMemory;
use crate::name::Name;
use crate::place::{Place, copy_place};
use crate::text::Text;
use sqlite_items::Items;
use std::alloc::Global;

/// A runtime attribute of a task, with its value as text (OpenWDL 1.1, "Runtime Section").
#[derive(Debug, Drop)]
pub struct Attribute {
    pub name: Name,
    pub value: Text,
}

/// What a task call asks to be run: a command in a directory of its own, before which files are
/// laid down there. Attempts are counted from 0.
///
/// `attributes` are the runtime attributes that say where and with what the command runs. `inputs`
/// are the paths of the files among the values of the task's inputs and private declarations, each
/// once. `reads` tells whether an output reads what the command left; where none does, no body of
/// a file or of standard output need be kept.
#[derive(Debug, Drop)]
pub struct Request {
    pub place: Place,
    pub attempt: u32,
    pub dir: Text,
    pub command: Text,
    pub files: Items<Laid>,
    pub attributes: Items<Attribute>,
    pub inputs: Items<Text>,
    pub reads: bool,
}

fn copy_laid(alloc: Global, files: &[Laid]) -> Result<Items<Laid>, NoMemory>
    ensures { IfOk result (λ all. all ≡ files.now) }
{
    let mut all = Items::new(alloc);
    for file in files {
        all.push(file.copy(alloc)?)?;
    }
    Ok(all)
}

impl Attribute {
    /// A copy of the attribute.
    pub fn copy(&self, alloc: Global) -> Result<Attribute, NoMemory>
        ensures { IfOk result (λ a. a ≡ self.now) }
    {
        Ok(Attribute {
            name: self.name.copy(alloc)?,
            value: self.value.copy(alloc)?,
        })
    }
}

/// A copy of the attributes.
pub fn copy_attributes(
    alloc: Global,
    attributes: &[Attribute],
) -> Result<Items<Attribute>, NoMemory>
    ensures { IfOk result (λ all. all ≡ attributes.now) }
{
    let mut all = Items::new(alloc);
    for attribute in attributes {
        all.push(attribute.copy(alloc)?)?;
    }
    Ok(all)
}

/// A copy of the texts.
pub fn copy_texts(alloc: Global, texts: &[Text]) -> Result<Items<Text>, NoMemory>
    ensures { IfOk result (λ all. all ≡ texts.now) }
{
    let mut all = Items::new(alloc);
    for text in texts {
        all.push(text.copy(alloc)?)?;
    }
    Ok(all)
}

impl Request {
    /// A copy of the request.
    pub fn copy(&self, alloc: Global) -> Result<Request, NoMemory>
        ensures { IfOk result (λ r. r ≡ self.now) }
    {
        Ok(Request {
            place: copy_place(alloc, &self.place)?,
            attempt: self.attempt,
            dir: self.dir.copy(alloc)?,
            command: self.command.copy(alloc)?,
            files: copy_laid(alloc, self.files.as_slice())?,
            attributes: copy_attributes(alloc, self.attributes.as_slice())?,
            inputs: copy_texts(alloc, self.inputs.as_slice())?,
            reads: self.reads,
        })
    }
}
