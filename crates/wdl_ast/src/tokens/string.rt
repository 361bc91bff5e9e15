ghost use Rattle.std.specs.Prelude.{◌≡◌, ◌++◌, OnOk, false};
ghost use Rattle.wdl_base.specs.Plain.{has_nul};
ghost use Rattle.wdl_ast.specs.Words as spec;

use crate::string::{PlaceholderOption, PlaceholderOptions};
use crate::token::Mark;
use crate::tokens::list::TokenList;
use wdl_value::NoMemory;

fn push_option(out: &mut TokenList, word: &str, option: &PlaceholderOption) -> Result<(), NoMemory>
    requires { has_nul word.now ≡ false }
    ensures { OnOk result (out.new ≡ out.old ++ spec.option_words word.now option.now) }
{
    out.keyword(word, option.word)?;
    out.mark(Mark::Assign, option.assign)?;
    out.plain_string(&option.value)
}

/// Adds the tokens of a placeholder's options.
pub fn push_options(out: &mut TokenList, options: &PlaceholderOptions) -> Result<(), NoMemory>
    ensures { OnOk result (out.new ≡ out.old ++ spec.options_words options.now) }
{
    match options {
        PlaceholderOptions::Plain => Ok(()),
        PlaceholderOptions::Sep(option) => push_option(out, "sep", option),
        PlaceholderOptions::Default(option) => push_option(out, "default", option),
        PlaceholderOptions::TrueFalse(accepted, refused) => {
            push_option(out, "true", accepted)?;
            push_option(out, "false", refused)
        }
        PlaceholderOptions::FalseTrue(refused, accepted) => {
            push_option(out, "false", refused)?;
            push_option(out, "true", accepted)
        }
    }
}
