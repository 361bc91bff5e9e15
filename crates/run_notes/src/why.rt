use wdl_value::EvalCode;

/// Returns what is said of an expression that has no value: what it met, and what was expected.
pub(crate) fn why_text(code: EvalCode) -> &'static str {
    match code {
        EvalCode::Overflow => {
            "its result is not within -9,223,372,036,854,775,808 to 9,223,372,036,854,775,807"
        }
        EvalCode::ZeroDivisor => "it divides by 0",
        EvalCode::IndexOut => "an index is from 0 up to its length less one",
        EvalCode::KeyMissing => "the map has no such key",
        EvalCode::EmptyArray => "expected at least one item, found none",
        EvalCode::NothingDefined => "none of the values is defined",
        EvalCode::RepeatedKey => "expected each key once",
        EvalCode::LengthsDiffer => "expected arrays of one length",
        EvalCode::NegativeRange => "expected a number that is 0 or more",
        EvalCode::TooLarge => {
            "a value has at most 100,000 items in a list or a map, and 4,194,304 bytes in all"
        }
        EvalCode::FileMissing => "the file is not there",
        EvalCode::NotText => "expected UTF-8",
        EvalCode::NotAnInteger => "expected one whole number",
        EvalCode::NotABoolean => "expected true or false",
        EvalCode::NotTwoColumns => "expected two columns with a tab between them in each line",
        EvalCode::BodyLong => "the file is longer than what is kept",
    }
}
