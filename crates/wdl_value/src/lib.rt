//! Types and values of WDL: plain data, which contracts see as texts, numbers and lists. The texts,
//! names, places and jobs of `wdl_base` are given on.
#![tactic(auto)]

mod bare;
mod casting;
mod env;
mod equality;
mod file_paths;
mod fitting;
mod keyed;
mod kind;
mod laws;
mod limits;
mod measure;
mod operator;
mod ty;
mod typing;
mod value;
mod value_text;

pub use bare::{bare_type, is_optional};
pub use casting::{CastFault, cast};
pub use env::{Bind, Env, copy_env};
pub use equality::same_value;
pub use file_paths::push_file_paths;
pub use fitting::fits;
pub use keyed::{distinct_keys, has_key};
pub use kind::{is_absent, is_bool, is_empty, is_int, is_plain, is_scalar, is_str, is_text};
pub use laws::{casts_fit, same_types_are_equal, same_values_are_equal};
pub use limits::{ITEM_LIMIT, SIZE_LIMIT, is_within_limits};
pub use measure::size;
pub use operator::{Func, Op};
pub use sqlite_items::{Boxed, Items};
pub use ty::{Member, StructDef, Structs, Ty};
pub use typing::{FuncTyping, OpTyping};
pub use value::{Field, MapRow, Value, copy_values};
pub use value_text::text_of;
pub use wdl_base::{
    Answer, AnswerFault, Attribute, BODY_LIMIT, Body, CUT_NAME, Counts, ERR_LIMIT, Entry, EvalCode,
    FILE_BODY_BYTES, FILE_BYTES, FILE_COUNT, FILE_NAME_BYTES, FILE_NAMES_BYTES, Fault, Key, Laid,
    Name, NameFault, NoMemory, OUT_LIMIT, Part, Place, PlaceFault, RESERVED, Request, Seen,
    Segment, Source, Span, Step, Steps, Template, Text, TextFault, Why, copy_attributes,
    copy_place, copy_texts, holds_nul, is_identifier, is_reserved, place_of, place_text,
    places_are_read, same_place, same_request,
};
