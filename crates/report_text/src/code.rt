ghost use Rattle.std.specs.Prelude.{◌≡◌, false};
ghost use Rattle.wdl_base.specs.Plain.{has_nul};
ghost use Rattle.report_text.specs.Words as spec;

use wdl_value::EvalCode;

/// The words of the codes 101 to 123, of tokens and grammar (OpenWDL 1.1).
fn text_word(code: u16) -> &'static str
    ensures value { result.now ≡ spec.text_word code }
    ensures plain { has_nul result.now ≡ false }
{
    match code {
        101 => "NotUtf8",
        102 => "StrayCharacter",
        103 => "OpenString",
        104 => "OpenCommand",
        105 => "BadEscape",
        106 => "NumberTooLarge",
        107 => "TooLong",
        110 => "Unexpected",
        111 => "TooDeep",
        112 => "WrongVersion",
        120 => "FloatUsed",
        121 => "ObjectUsed",
        122 => "SubUsed",
        123 => "LeftOut",
        _ => "",
    }
}

/// The words of the codes 201 to 207, of imports.
fn library_word(code: u16) -> &'static str
    ensures value { result.now ≡ spec.library_word code }
    ensures plain { has_nul result.now ≡ false }
{
    match code {
        201 => "SchemeRefused",
        202 => "ImportCircle",
        203 => "SameNamespace",
        204 => "StructsDiffer",
        205 => "TooManyDocuments",
        206 => "AliasUnknown",
        207 => "NamespaceNotAName",
        _ => "",
    }
}

/// The words of the codes 301 to 330, of scope and types.
fn check_word(code: u16) -> &'static str
    ensures value { result.now ≡ spec.check_word code }
    ensures plain { has_nul result.now ≡ false }
{
    match code {
        301 => "UnknownName",
        302 => "UnknownFunction",
        303 => "NoCoercion",
        304 => "BadOperands",
        305 => "BadArguments",
        306 => "NoMember",
        307 => "NotCallable",
        308 => "ArrayInPlaceholder",
        309 => "ReadOutsideOutputs",
        310 => "MembersDiffer",
        311 => "BadRuntime",
        312 => "WriteMisplaced",
        320 => "Circular",
        321 => "Duplicate",
        322 => "UnknownTask",
        323 => "InputMissing",
        324 => "InputUnknown",
        325 => "ConditionNotBoolean",
        326 => "NotAnArray",
        327 => "NoWorkflow",
        328 => "TooNested",
        329 => "UnknownType",
        330 => "StructCircle",
        _ => "",
    }
}

/// The words of the codes 401 to 407, of the inputs of a run.
fn input_word(code: u16) -> &'static str
    ensures value { result.now ≡ spec.input_word code }
    ensures plain { has_nul result.now ≡ false }
{
    match code {
        401 => "NotJson",
        402 => "NotAnObject",
        403 => "UnknownInput",
        404 => "InputMissing",
        405 => "DoesNotFit",
        406 => "FloatNumber",
        407 => "TooLong",
        _ => "",
    }
}

/// The word of a code, or nothing for a number that is no code.
pub fn word_of(code: u16) -> &'static str
    ensures value { result.now ≡ spec.word_of code }
    ensures plain { has_nul result.now ≡ false }
{
    match code / 100 {
        1 => text_word(code),
        2 => library_word(code),
        3 => check_word(code),
        4 => input_word(code),
        _ => "",
    }
}

/// The number and the word of why an expression has no value.
pub fn eval_text(code: EvalCode) -> &'static str
    ensures value { result.now ≡ spec.eval_text code }
    ensures plain { has_nul result.now ≡ false }
{
    match code {
        EvalCode::Overflow => "501 Overflow",
        EvalCode::ZeroDivisor => "502 ZeroDivisor",
        EvalCode::IndexOut => "503 IndexOut",
        EvalCode::KeyMissing => "504 KeyMissing",
        EvalCode::EmptyArray => "505 EmptyArray",
        EvalCode::NothingDefined => "506 NothingDefined",
        EvalCode::RepeatedKey => "507 RepeatedKey",
        EvalCode::LengthsDiffer => "508 LengthsDiffer",
        EvalCode::NegativeRange => "509 NegativeRange",
        EvalCode::TooLarge => "510 TooLarge",
        EvalCode::FileMissing => "511 FileMissing",
        EvalCode::NotText => "512 NotText",
        EvalCode::NotAnInteger => "513 NotAnInteger",
        EvalCode::NotABoolean => "514 NotABoolean",
        EvalCode::NotTwoColumns => "515 NotTwoColumns",
        EvalCode::BodyLong => "516 BodyLong",
    }
}
