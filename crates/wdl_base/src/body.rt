ghost use Rattle.std.specs.Prelude.{◌≡◌, IfOk};
ghost use Rattle.wdl_base.specs.Bodies.{body_of, is_short};

use crate::error::NoMemory;
use crate::text::Text;
use sqlite_items::Items;
use std::alloc::Global;

/// The most bytes of a body that are kept.
pub const BODY_LIMIT: usize = 65_536;

/// What a stream or a file held: its bytes, at most 65,536 of them, or that it was longer.
#[derive(Debug, Drop)]
pub enum Body {
    Bytes(Items<u8>),
    Long,
}

/// A file that a command left, by its path relative to the directory of its job.
#[derive(Debug, Drop)]
pub struct Seen {
    pub name: Text,
    pub body: Body,
}

/// A file that is laid down in the directory of a job before its command runs.
#[derive(Debug, Drop)]
pub struct Laid {
    pub name: Text,
    pub body: Text,
}

impl Body {
    /// The body of these bytes: `Long` exactly past 65,536 of them.
    pub fn new(bytes: Items<u8>) -> Body
        ensures { result ≡ body_of bytes }
    {
        if bytes.len() <= BODY_LIMIT {
            Body::Bytes(bytes)
        } else {
            Body::Long
        }
    }

    /// Whether the body is `Long`, or has at most so many bytes.
    pub fn is_within(&self, limit: usize) -> bool
        ensures { result ≡ is_short limit self.now }
    {
        match self {
            Body::Bytes(bytes) => bytes.len() <= limit,
            Body::Long => true,
        }
    }

    /// A copy of the value.
    pub fn copy(&self, alloc: Global) -> Result<Body, NoMemory>
        ensures { IfOk result (λ b. b ≡ self.now) }
    {
        match self {
            Body::Bytes(bytes) => Ok(Body::Bytes(Items::from_slice(alloc, bytes.as_slice())?)),
            Body::Long => Ok(Body::Long),
        }
    }
}

impl Seen {
    /// A copy of the value.
    pub fn copy(&self, alloc: Global) -> Result<Seen, NoMemory>
        ensures { IfOk result (λ s. s ≡ self.now) }
    {
        Ok(Seen {
            name: self.name.copy(alloc)?,
            body: self.body.copy(alloc)?,
        })
    }
}

impl Laid {
    /// A copy of the value.
    pub fn copy(&self, alloc: Global) -> Result<Laid, NoMemory>
        ensures { IfOk result (λ l. l ≡ self.now) }
    {
        Ok(Laid {
            name: self.name.copy(alloc)?,
            body: self.body.copy(alloc)?,
        })
    }
}
