ghost use Rattle.std.specs.Prelude.{
  ◌≡◌,
  ◌++◌,
  ◌∷◌,
  ◌≤◌,
  [],
  false,
  length,
  string_bytes,
  IfOk,
  OnOk,
};
ghost use Rattle.wdl_base.specs.Plain.{has_nul};
ghost use Rattle.wdl_base.specs.Templates as spec;
ghost use Rattle.wdl_base.specs.declared.template.Part.TheVariants.{Hole};
ghost use Rattle.command_text.specs.Marks.{text_parts, zeros};

use std::alloc::Global;
use wdl_value::{Items, NoMemory, Part, Template, Text};

/// A template as one text, in which NUL, which no text holds, stands for each hole, beside the
/// numbers of the holes.
#[derive(Drop)]
pub struct Marked {
    pub text: String,
    pub holes: Vec<u32>,
}

impl Marked {
    fn push(&mut self, part: &Part) -> Result<(), NoMemory>
        ensures text { OnOk result (string_bytes self.new.text
            ≡ string_bytes self.old.text ++ spec.marked (part.now ∷ [])) }
        ensures holes { OnOk result (self.new.holes.items
            ≡ self.old.holes.items ++ spec.holes (part.now ∷ [])) }
        ensures counted { OnOk result (zeros (spec.marked (part.now ∷ []))
            ≡ length (spec.holes (part.now ∷ []))) }
    {
        match part {
            Part::Chars(text) => self.text.push_str(text.as_str())?,
            Part::Hole(hole) => {
                self.text.push('\0')?;
                self.holes.push(*hole)?;
            }
        }
        Ok(())
    }

    /// The text that the parts join to: literals as written, each placeholder's text marked as
    /// such.
    pub fn new(alloc: Global, parts: &[Part]) -> Result<Marked, NoMemory>
        ensures text { IfOk result (λ m. string_bytes m.text ≡ spec.marked parts.now) }
        ensures holes { IfOk result (λ m. m.holes.items ≡ spec.holes parts.now) }
        ensures counted { OnOk result (zeros (spec.marked parts.now) ≡ length (spec.holes parts.now)) }
    {
        let mut all = Marked {
            text: String::new(alloc),
            holes: Vec::new(alloc),
        };
        for part in parts {
            all.push(part)?;
        }
        Ok(all)
    }
}

/// What stands before and after the first hole of a marked text.
fn around_hole<'a>(text: &'a str) -> (&'a str, &'a str)
    requires { 1 ≤ zeros text.now }
    ensures plain { has_nul result.0.now ≡ false }
    ensures value { text.now ≡ result.0.now ++ 0 ∷ result.1.now }
{
    match text.split_once('\0') {
        Some(parts) => parts,
        None => (text, ""),
    }
}

/// Appends a text as a part, unless it is empty.
fn push_text(alloc: Global, parts: &mut Template, text: &str) -> Result<(), NoMemory>
    requires { has_nul text.now ≡ false }
    ensures { OnOk result (parts.new ≡ parts.old ++ text_parts text.now) }
{
    if text.is_empty() {
        return Ok(());
    }
    parts.push(Part::Chars(Text::from_plain(alloc, text)?))?;
    Ok(())
}

/// The template of a marked text and the numbers of its holes: neighbouring characters are joined,
/// and none are empty.
pub fn template_of(alloc: Global, text: &str, holes: &[u32]) -> Result<Template, NoMemory>
    requires { zeros text.now ≡ length holes.now }
    ensures { IfOk result (λ t. t ≡ spec.template_of text.now holes.now) }
{
    let mut parts = Items::new(alloc);
    let mut rest = text;
    for hole in holes {
        let (front, back) = around_hole(rest);
        push_text(alloc, &mut parts, front)?;
        parts.push(Part::Hole(*hole))?;
        rest = back;
    }
    push_text(alloc, &mut parts, rest)?;
    Ok(parts)
}
