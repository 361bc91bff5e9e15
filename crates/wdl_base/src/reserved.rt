ghost use Rattle.std.specs.Prelude.{◌≡◌, map};
ghost use Rattle.wdl_base.specs.Names.{is_among, reserved_words};

/// The words of the language that no name may be.
pub const RESERVED: [&str; 31] = [
    "Array",
    "Boolean",
    "File",
    "Float",
    "Int",
    "Map",
    "None",
    "Object",
    "Pair",
    "String",
    "alias",
    "as",
    "call",
    "command",
    "else",
    "false",
    "if",
    "import",
    "in",
    "input",
    "meta",
    "object",
    "output",
    "parameter_meta",
    "runtime",
    "scatter",
    "struct",
    "task",
    "then",
    "true",
    "workflow",
];

/// Whether a word is in a list.
fn is_listed(mut words: &[&str], word: &str) -> bool
    ensures { result ≡ is_among word.now (map (λ w. w.now) words.entry.now) }
{
    while let [first, rest @ ..] = words {
        if *first == word {
            return true;
        }
        words = rest;
    }
    false
}

#[tactic(auto, unfolding(crate::specs::Names::reserved_words))]
/// Whether a word is reserved.
pub fn is_reserved(word: &str) -> bool
    ensures { result ≡ is_among word.now reserved_words }
{
    is_listed(&RESERVED, word)
}
