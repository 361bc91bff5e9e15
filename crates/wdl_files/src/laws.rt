//! Laws of the definitions, which say nothing of code.

ghost use Rattle.wdl_files.specs.ReadBack.{ReadBack};

/// What `write_lines`, `write_tsv` and `write_map` write is read back by `read_lines`, `read_tsv`
/// and `read_map`.
pub fn written_is_read_back()
    ensures law { ReadBack }
{}
