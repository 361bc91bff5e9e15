ghost use Rattle.std.specs.Prelude.{◌≡◌, ◌∷◌, [], OnOk};
ghost use Rattle.wdl_print.specs.TokenText as spec;

use std::alloc::{AllocError, Global};
use std::marker::Model;
use wdl_ast::{Fence, Kind, Quote};

/// What is open behind a token: the characters of a string or of a command, or a placeholder in
/// them.
#[derive(Clone, Copy, Debug, PartialEq, Eq)]
pub enum Open {
    Quoted(Quote),
    Command(Fence),
    Placeholder,
}

/// All that is open behind a token, seen as a list whose first is the innermost.
#[derive(Drop)]
pub struct Opened {
    stack: Vec<Open>,
}

impl Model for Opened {
    ghost use Rattle.std.specs.Prelude.{List, reverse};
    ghost use Rattle.wdl_print.specs.declared.inside.Open.{Open};

    ghost Value = { List Open };

    ghost view = { λ s. reverse s.stack.items };
}

impl Opened {
    /// Nothing open.
    pub fn new(alloc: Global) -> Opened
        ensures { result ≡ [] }
    {
        Opened {
            stack: Vec::new(alloc),
        }
    }

    fn push(&mut self, inner: Open) -> Result<(), AllocError>
        ensures { OnOk result (self.new ≡ inner ∷ self.old) }
    {
        self.stack.push(inner)?;
        Ok(())
    }

    /// The innermost.
    pub fn innermost(&self) -> Option<Open>
        ensures { result ≡ spec.innermost self.now }
    {
        self.stack.last().copied()
    }

    /// Goes past a token.
    pub fn pass(&mut self, kind: &Kind) -> Result<(), AllocError>
        ensures { OnOk result (self.new ≡ spec.after self.old kind.now) }
    {
        match kind {
            Kind::StrOpen(quote) => self.push(Open::Quoted(*quote)),
            Kind::CommandOpen(fence) => self.push(Open::Command(*fence)),
            Kind::HoleOpen(_) => self.push(Open::Placeholder),
            Kind::StrClose | Kind::CommandClose | Kind::HoleClose => {
                self.stack.pop();
                Ok(())
            }
            _ => Ok(()),
        }
    }
}
