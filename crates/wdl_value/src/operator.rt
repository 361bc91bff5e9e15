ghost use Rattle.std.specs.Prelude.{◌≡◌};
ghost use Rattle.wdl_value.specs.FunctionTypes as table;

/// A binary operator (OpenWDL 1.1, "Expressions"). `AddMaybe` is `+` in a placeholder, where an
/// operand may be undefined.
#[derive(Clone, Copy, Debug, PartialEq, Eq)]
pub enum Op {
    Mul,
    Div,
    Rem,
    Add,
    Sub,
    AddMaybe,
    Lt,
    Le,
    Gt,
    Ge,
    Eq,
    Ne,
    And,
    Or,
}

/// A function of the standard library (OpenWDL 1.1, "Standard Library").
#[derive(Clone, Copy, Debug, PartialEq, Eq)]
pub enum Func {
    Min,
    Max,
    Length,
    Range,
    Transpose,
    Cross,
    Zip,
    Unzip,
    Flatten,
    Prefix,
    Suffix,
    Quote,
    Squote,
    Sep,
    AsPairs,
    AsMap,
    Keys,
    CollectByKey,
    Defined,
    SelectFirst,
    SelectAll,
    Basename,
    Stdout,
    Stderr,
    Glob,
    ReadString,
    ReadLines,
    ReadInt,
    ReadBoolean,
    ReadTsv,
    ReadMap,
    WriteLines,
    WriteTsv,
    WriteMap,
}

impl Func {
    /// Whether the function writes a file.
    pub fn writes(self) -> bool
        ensures { result ≡ table.writes self }
    {
        matches!(self, Func::WriteLines | Func::WriteTsv | Func::WriteMap)
    }

    /// Whether the function sees what the command of a task left.
    pub fn reads(self) -> bool
        ensures { result ≡ table.reads self }
    {
        matches!(
            self,
            Func::Stdout
                | Func::Stderr
                | Func::Glob
                | Func::ReadString
                | Func::ReadLines
                | Func::ReadInt
                | Func::ReadBoolean
                | Func::ReadTsv
                | Func::ReadMap
        )
    }

    /// Whether the function reads what the command of a task wrote.
    pub fn reads_text(self) -> bool
        ensures { result ≡ table.reads_text self }
    {
        matches!(
            self,
            Func::ReadString
                | Func::ReadLines
                | Func::ReadInt
                | Func::ReadBoolean
                | Func::ReadTsv
                | Func::ReadMap
        )
    }
}
