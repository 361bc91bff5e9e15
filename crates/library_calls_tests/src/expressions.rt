use library_calls::{parse_expr, parse_type};
use std::alloc::Global;
use std::test::Fail;
use token_reading::ParseFault;
use wdl_ast::{Expr, HoleMark, Kind, Mark, Quote, Token};
use wdl_value::{Items, NoMemory, Span, Text};

/// The word that a letter of a row stands for.
fn word(letter: u8) -> &'static str {
    match letter {
        b'A' => "Array",
        b'B' => "Boolean",
        b'F' => "Float",
        b'I' => "File",
        b'J' => "write_json",
        b'M' => "Map",
        b'N' => "Int",
        b'O' => "Object",
        b'P' => "Pair",
        b'S' => "Sample",
        b'T' => "true",
        b'V' => "None",
        b'W' => "String",
        b'X' => "false",
        b'd' => "default",
        b'e' => "else",
        b'i' => "if",
        b'o' => "object",
        b'p' => "sep",
        b's' => "sub",
        b't' => "then",
        b'w' => "write_objects",
        b'z' => "size",
        _ => "a",
    }
}

fn text(alloc: Global, letter: u8) -> Result<Text, NoMemory> {
    match Text::new(alloc, word(letter)) {
        Ok(text) => Ok(text),
        Err(_) => Err(NoMemory),
    }
}

/// The mark that a byte of a row stands for: itself, or of those with two bytes `@` for `==`, `_`
/// for `!=`, `l` for `<=`, `g` for `>=`, `&` for `&&` and `|` for `||`.
fn mark(byte: u8) -> Option<Mark> {
    Some(match byte {
        b'{' => Mark::OpenBrace,
        b'}' => Mark::CloseBrace,
        b'[' => Mark::OpenBracket,
        b']' => Mark::CloseBracket,
        b'(' => Mark::OpenParen,
        b')' => Mark::CloseParen,
        b',' => Mark::Comma,
        b':' => Mark::Colon,
        b'.' => Mark::Dot,
        b'=' => Mark::Assign,
        b'?' => Mark::Question,
        b'+' => Mark::Plus,
        b'-' => Mark::Minus,
        b'*' => Mark::Star,
        b'/' => Mark::Slash,
        b'%' => Mark::Percent,
        b'!' => Mark::Not,
        b'<' => Mark::Less,
        b'l' => Mark::LessEqual,
        b'>' => Mark::Greater,
        b'g' => Mark::GreaterEqual,
        b'@' => Mark::Equal,
        b'_' => Mark::NotEqual,
        b'&' => Mark::And,
        b'|' => Mark::Or,
        _ => return None,
    })
}

/// The token that a byte of a row stands for: `"` and `'` begin and end a string, `#` is its
/// characters, `$` and `~` begin and end a placeholder, and `^` is a fraction.
fn kind(alloc: Global, byte: u8) -> Result<Kind, NoMemory> {
    if let Some(mark) = mark(byte) {
        return Ok(Kind::Mark(mark));
    }
    match byte {
        b'0'..=b'9' => Ok(Kind::Int(i64::from(byte - b'0'))),
        b'"' => Ok(Kind::StrOpen(Quote::Double)),
        b'\'' => Ok(Kind::StrClose),
        b'$' => Ok(Kind::HoleOpen(HoleMark::Dollar)),
        b'~' => Ok(Kind::HoleClose),
        b'#' => Ok(Kind::Chars(text(alloc, byte)?)),
        b'^' => Ok(Kind::Frac(text(alloc, byte)?)),
        _ => Ok(Kind::Word(text(alloc, byte)?)),
    }
}

/// A token for each byte, whose span starts at the number of the byte.
fn tokens(alloc: Global, row: &str) -> Result<Items<Token>, NoMemory> {
    let mut tokens = Items::new(alloc);
    let mut start: u32 = 0;
    for byte in row.bytes() {
        let kind = kind(alloc, byte)?;
        let span = Span {
            doc: 0,
            start,
            end: start,
        };
        start = start.saturating_add(1);
        tokens.push(Token { span, kind })?;
    }
    Ok(tokens)
}

/// The code, and but for 111 the place of the token that it is said of.
fn shown_fault(alloc: Global, fault: ParseFault) -> Result<String, Fail> {
    Ok(match fault {
        ParseFault::Bad { code: 111, .. } => format!(in alloc; "111")?,
        ParseFault::Bad { code, span } => format!(in alloc; "{code} at {}", span.start)?,
        ParseFault::NoMemory => format!(in alloc; "no memory")?,
    })
}

/// The place behind the expression, or what is wrong.
fn expr_end(alloc: Global, row: &str) -> Result<String, Fail> {
    match parse_expr(alloc, tokens(alloc, row)?.as_slice(), 0) {
        Ok(parsed) => Ok(format!(in alloc; "{}", parsed.next)?),
        Err(fault) => shown_fault(alloc, fault),
    }
}

/// The same for a type.
fn type_end(alloc: Global, row: &str) -> Result<String, Fail> {
    match parse_type(alloc, tokens(alloc, row)?.as_slice(), 0) {
        Ok(parsed) => Ok(format!(in alloc; "{}", parsed.next)?),
        Err(fault) => shown_fault(alloc, fault),
    }
}

/// A letter for the form of an expression.
fn form(expr: &Expr) -> &'static str {
    match expr {
        Expr::Binary { .. } => "b",
        Expr::Unary { .. } => "u",
        Expr::Member { .. } => "m",
        Expr::Index { .. } => "x",
        Expr::If { .. } => "c",
        _ => "p",
    }
}

/// The letters of an expression and of its parts.
fn shape(expr: &Expr) -> (&'static str, &'static str, &'static str) {
    match expr {
        Expr::Binary { left, right, .. } => ("b", form(left.get()), form(right.get())),
        Expr::Unary { operand, .. } => ("u", form(operand.get()), ""),
        Expr::Index { base, index, .. } => ("x", form(base.get()), form(index.get())),
        Expr::If {
            accepted,
            refused,
            ..
        } => ("c", form(accepted.get()), form(refused.get())),
        _ => (form(expr), "", ""),
    }
}

fn shown_shape(
    alloc: Global,
    shape: (&'static str, &'static str, &'static str),
) -> Result<String, Fail> {
    Ok(format!(in alloc; "{}{}{}", shape.0, shape.1, shape.2)?)
}

/// The letters of the expression, or what is wrong.
fn expr_shape(alloc: Global, row: &str) -> Result<String, Fail> {
    match parse_expr(alloc, tokens(alloc, row)?.as_slice(), 0) {
        Ok(parsed) => shown_shape(alloc, shape(&parsed.expr)),
        Err(fault) => shown_fault(alloc, fault),
    }
}

/// Expressions, each with the place behind the longest one, or with its code. A part that is wrong
/// leaves what stands before it, or nothing.
const EXPRESSIONS: &str = "\
1|2 3;1|) 1;1&2 3;1&) 1;1@2 3;1_2 3;1@) 1;1<2 3;1l2 3;1>2 3;1g2 3;1<) 1;1+2 3;1-2 3;1+) 1;1*2 3;\
1/2 3;1%2 3;1*) 1;!T 2;-1 2;+1 2;--1 3;a.b 3;a. 1;a[0] 4;a[0 1;a[ 1;a.b[0].c 8;T 1;X 1;V 1;1 1;\
a 1;a() 3;a(1,2) 6;a(1,) 1;a(1 1;(1) 3;(1,2) 5;[] 2;[1,2] 5;[1,] 4;{} 2;{1:2} 5;{1:2,3:4,} 10;\
S{} 3;S{a:1,b:2,} 11;S{1:2} 1;S{a:1 1;\"' 2;\"#$1~#' 7;\"$p=\"#'1~' 10;\"$d=\"'1~' 9;\
\"$T=\"#'X=\"'1~' 14;\"$X=\"'T=\"#'1~' 14;\"$p~' 5;^ 120 at 0;1+^ 120 at 2;z(a) 120 at 0;z 1;\
o 121 at 0;w(a) 121 at 0;s(a) 122 at 0;(J(a)) 123 at 1;w 1;s 1;\
J 1;a.z 3;S{s:1} 6;S{s:^} 120 at 4";

/// The same of choices, which take all that goes on behind `else`.
const CHOICES: &str = "\
iTt1e2 6;\"'+iTt1e2 9;1+iTt1e2*3 10;1*iTt2e3|4 10;1<iTt2e3<4 10;iTt1e2+3|4 10;iTt1e2+) 6;\
iTt1e2[0] 9;iTt1e2t 6;-iTt1e2+3 9;!iTt1e2 7;(iTt1e2)+3 10;iTtiTt1e2e3 11;iTt1eiTt2e3 11;\
iTt1+iTt2e3e4 13;iiTtTeXt1e2 11;1+iT 1;1+iTt1 1;1+iTt1e 1;1+iTt2e3*) 8;[iTt1e2,iTt3e4] 15;\
a[iTt1e2+3] 11";

/// Types, as above.
const TYPES: &str = "\
B 1;N 1;W 1;I 1;S 1;A[N] 4;A[N]+ 5;M[N,W] 6;P[B,S] 6;N? 2;N?? 3;N+ 1;A[N]+? 6;A[N]?+ 5;\
M[N,A[S?]]? 11;F 120 at 0;A[O] 121 at 2";

/// Texts that are refused where a token fits no expression, or where they end, which the last token
/// stands for.
const MISFITS: &str = "\
F 110 at 0;O 110 at 0;\
iTt1 110 at 3;iT 110 at 1;! 110 at 0;N 110 at 0;i 110 at 0;) 110 at 0; 110 at 0;(1 110 at 1;\
() 110 at 1;(1,2,3) 110 at 4;(1,) 110 at 3;[, 110 at 1;[1 110 at 1;[11] 110 at 2;{1} 110 at 2;\
{1:2 110 at 3;{1, 110 at 2;(1: 110 at 2;[1e 110 at 2;[--) 110 at 3;[!t] 110 at 2;[1+] 110 at 3;\
[1+N] 110 at 3;[1*2-) 110 at 5;[iT1] 110 at 3;[iTt1] 110 at 5;[iTt1e] 110 at 6;\
[iTt1e2) 110 at 7;[iTt1e2+e] 110 at 8;[iTt1e2e] 110 at 7;(1+iT) 110 at 5;[N 110 at 1;\
(t 110 at 1;[a(1,)] 110 at 5;[a(,)] 110 at 3;[a(12)] 110 at 4;[a(t)] 110 at 3;[a.] 110 at 3;\
[a.N] 110 at 3;[a[]] 110 at 3;[a[0) 110 at 4;[a[t]] 110 at 3;[S{1:2}] 110 at 3;[S{a1}] 110 at 4;\
[S{a:}] 110 at 5;[S{N:1}] 110 at 3;[{1:23:4}] 110 at 5";

/// The same of strings and their placeholders.
const STRING_MISFITS: &str = "\
\"# 110 at 1;\"#$1' 110 at 4;\"$~' 110 at 2;\"$a1~' 110 at 3;\"$t~' 110 at 2;\
\"$a=\"'1~' 110 at 3;\"$V=\"'1~' 110 at 3;\"$i=\"'1~' 110 at 3;\"$t=\"'1~' 110 at 2;\
\"$N=1~' 110 at 2;\"$p=\"'d=\"'1~' 110 at 7;\"$p=1~' 110 at 4;\"$p=\"$1~'1~' 110 at 5;\
\"$p=\"'~' 110 at 6;\"$T=\"'1~' 110 at 6;\"$T=\"'T=\"'1~' 110 at 6;\"$T=\"'X1~' 110 at 7;\
\"$X=\"'X=\"'1~' 110 at 6;\"$T=\"'a=\"'1~' 110 at 6;\"$X=\"'T=1~' 110 at 8;\
\"$T=\"$1~'1~' 110 at 5";

/// The same of types.
const TYPE_MISFITS: &str = "\
^ 110 at 0;o 110 at 0;\
1 110 at 0;i 110 at 0; 110 at 0;t 110 at 0;A 110 at 0;A1 110 at 1;A[N 110 at 2;A[] 110 at 2;\
A[i] 110 at 2;A[N, 110 at 3;A[N) 110 at 3;M[N] 110 at 3;M[N,i] 110 at 4;MN 110 at 1;\
M[N,N,N] 110 at 5;P[N,] 110 at 4;P[i,N] 110 at 2;A[A[N] 110 at 5;A[N1] 110 at 3";

/// How operators group.
const SHAPES: &str = "\
1-2-3 bbp;1*2/3 bbp;1-2*3 bpb;1*2-3 bbp;1<2+3 bpb;1+2<3 bbp;1@2<3 bpb;1<2@3 bbp;1&2@3 bpb;\
1@2&3 bbp;1|2&3 bpb;1&2|3 bbp;!a.b um;-a[0] ux;!1@2 bup;1*-2 bpu;a.b[-1] xmu;1+iTt2e3*4 bpc;\
1*iTt2e3|4 bpc;1-iTt2e3-4 bpc;1+2*iTt3e4+5 bpb;1|2&iTt3e4 bpb;iTt1e2+3 cpb;iTt1+2e3 cbp;\
-iTt1e2+3 uc;1+-iTt2e3 bpu;(iTt1e2)*3 bpp;iTt1e2.a cpm;iTt1eiTt2e3 cpc";

/// Ways to nest, or to go on: what stands before, in the middle and behind.
const NESTS: &str =
    "( 1 );- 1 ;[ 1 ];\"$ 1 ~'; a .b; a [0]; 1 +1;{1: 1 };(1, 1 );S{a: 1 };a( 1 );iTt1e 1 ";

/// The same, where each time counts twice.
const DOUBLE_NESTS: &str = "1+iTt1e 1 ;-iTt1e 1 ;1*( 1 );-( 1 )";

/// The same of types.
const TYPE_NESTS: &str = "A[ N ];M[N, N ];P[N, N ]";

#[derive(Clone, Copy)]
enum Table {
    Expressions,
    Types,
    Shapes,
}

fn answer(alloc: Global, row: &str, table: Table) -> Result<String, Fail> {
    match table {
        Table::Expressions => expr_end(alloc, row),
        Table::Types => type_end(alloc, row),
        Table::Shapes => expr_shape(alloc, row),
    }
}

fn is_read(alloc: Global, text: &str, want: &str, table: Table) -> Result<bool, Fail> {
    let got = answer(alloc, text, table)?;
    Ok(got.as_str() == want)
}

/// The first row whose answer is another than it says; empty where there is none.
fn misread(alloc: Global, rows: &'static str, table: Table) -> Result<&'static str, Fail> {
    for row in rows.split(';') {
        let (text, want) = row.split_once(' ').unwrap_or((row, "no row"));
        if !is_read(alloc, text, want, table)? {
            return Ok(row);
        }
    }
    Ok("")
}

/// What stands before, in the middle and behind.
fn parts(row: &str) -> (&str, &str, &str) {
    let (before, rest) = row.split_once(' ').unwrap_or((row, ""));
    let (middle, behind) = rest.split_once(' ').unwrap_or((rest, ""));
    (before, middle, behind)
}

/// How often a row must be nested to fill a mebibyte.
fn filling(row: &str) -> usize {
    let (before, _, behind) = parts(row);
    1_048_576 / before.len().saturating_add(behind.len()).max(1)
}

/// The text of a row that is nested so many times.
fn nested(alloc: Global, row: &str, times: usize) -> Result<String, Fail> {
    let (before, middle, behind) = parts(row);
    let mut text = before.repeat(alloc, times)?;
    text.push_str(middle)?;
    text.push_str(behind.repeat(alloc, times)?.as_str())?;
    Ok(text)
}

/// Whether a row that is nested so many times is read whole.
fn is_whole(alloc: Global, row: &str, times: usize, table: Table) -> Result<bool, Fail> {
    let text = nested(alloc, row, times)?;
    let end = format!(in alloc; "{}", text.len())?;
    is_read(alloc, text.as_str(), end.as_str(), table)
}

/// Whether it meets the limit.
fn is_past(alloc: Global, row: &str, times: usize, table: Table) -> Result<bool, Fail> {
    let text = nested(alloc, row, times)?;
    is_read(alloc, text.as_str(), "111", table)
}

/// The first row that is not read whole at that depth, or does not meet the limit one past it, or
/// in a mebibyte.
fn unlimited(
    alloc: Global,
    rows: &'static str,
    limit: usize,
    table: Table,
) -> Result<&'static str, Fail> {
    for row in rows.split(';') {
        let edge = is_whole(alloc, row, limit, table)?;
        let past = is_past(alloc, row, limit.saturating_add(1), table)?;
        let full = is_past(alloc, row, filling(row), table)?;
        if !(edge && past && full) {
            return Ok(row);
        }
    }
    Ok("")
}

#[test]
fn the_longest_expression_or_type_is_read(rt: HostRuntime) -> Result<(), Fail> {
    let alloc = rt.alloc();
    assert_eq!(rt; misread(alloc, EXPRESSIONS, Table::Expressions)?, "");
    assert_eq!(rt; misread(alloc, CHOICES, Table::Expressions)?, "");
    assert_eq!(rt; misread(alloc, TYPES, Table::Types)?, "");
    assert_eq!(rt; misread(alloc, SHAPES, Table::Shapes)?, "");
    Ok(())
}

#[test]
fn the_first_token_that_fits_nothing_is_named(rt: HostRuntime) -> Result<(), Fail> {
    let alloc = rt.alloc();
    assert_eq!(rt; misread(alloc, MISFITS, Table::Expressions)?, "");
    assert_eq!(rt; misread(alloc, STRING_MISFITS, Table::Expressions)?, "");
    assert_eq!(rt; misread(alloc, TYPE_MISFITS, Table::Types)?, "");
    Ok(())
}

#[test]
fn a_depth_past_its_limit_is_refused(rt: HostRuntime) -> Result<(), Fail> {
    let alloc = rt.alloc();
    assert_eq!(rt; unlimited(alloc, NESTS, 63, Table::Expressions)?, "");
    assert_eq!(rt; unlimited(alloc, DOUBLE_NESTS, 31, Table::Expressions)?, "");
    assert_eq!(rt; unlimited(alloc, TYPE_NESTS, 7, Table::Types)?, "");
    Ok(())
}

#[test]
fn a_mebibyte_of_elements_is_read(rt: HostRuntime) -> Result<(), Fail> {
    let alloc = rt.alloc();
    let mut row = "[".repeat(alloc, 1)?;
    row.push_str("1,".repeat(alloc, 524_287)?.as_str())?;
    row.push_str("]")?;
    let end = expr_end(alloc, row.as_str())?;
    assert_eq!(rt; end.as_str(), "1048576");
    Ok(())
}
