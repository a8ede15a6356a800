//! Cases of tokens, worked out by hand from the clauses of ECMA-262 that are named.

use js_lex::lex;
use js_tree::{ReadRefused, Token, TokenForm, Tokens};
use js_value::{Place, Text};
use std::alloc::Global;
use std::fmt::Write;
use std::process::Abort;
use std::test::Fail;

/// A text, and its tokens: the first byte of each and the byte behind it, what it is, and `|` where a line end stands before.
type Case = (&'static [u8], &'static str);

/// White space (7.2): each character of it, and four that are none.
static SPACES: [Case; 8] = [
    (b"", ""),
    (b"\t\x0B\x0C\x20a", "4-5 name \"a\""),
    (
        b"\xC2\xA0\xE1\x9A\x80\xE2\x80\x80\xE2\x80\x8A\xE2\x80\xAF\xE2\x81\x9F\xE3\x80\x80\xEF\xBB\xBFa",
        "23-24 name \"a\"",
    ),
    (
        b"\xE2\x80\x81\xE2\x80\x82\xE2\x80\x83\xE2\x80\x84\xE2\x80\x85\xE2\x80\x86\xE2\x80\x87\xE2\x80\x88\xE2\x80\x89a",
        "27-28 name \"a\"",
    ),
    (b"a\xE2\x80\x8B", "syntax at 1"),
    (b"\xE1\xA0\x8E", "syntax at 0"),
    (b"\xC2\x85", "syntax at 0"),
    (b"a\0", "syntax at 1"),
];

/// Line ends (7.3).
static LINE_ENDS: [Case; 8] = [
    (b"a\nb c", "0-1 name \"a\", |2-3 name \"b\", 4-5 name \"c\""),
    (b"a\rb", "0-1 name \"a\", |2-3 name \"b\""),
    (b"a\r\nb", "0-1 name \"a\", |3-4 name \"b\""),
    (b"a\xE2\x80\xA8b", "0-1 name \"a\", |4-5 name \"b\""),
    (b"a\xE2\x80\xA9b", "0-1 name \"a\", |4-5 name \"b\""),
    (b"\na", "|1-2 name \"a\""),
    (b"a\n", "0-1 name \"a\""),
    (b"a\x0Bb", "0-1 name \"a\", 2-3 name \"b\""),
];

/// Comments (7.4).
static COMMENTS: [Case; 20] = [
    (b"a//b\nc", "0-1 name \"a\", |5-6 name \"c\""),
    (b"a//b\xE2\x80\xA8c", "0-1 name \"a\", |7-8 name \"c\""),
    (b"a//b", "0-1 name \"a\""),
    (b"//", ""),
    (b"//*\na", "|4-5 name \"a\""),
    (
        b"a/ /b",
        "0-1 name \"a\", 1-2 Slash, 3-4 Slash, 4-5 name \"b\"",
    ),
    (b"a/*b*/c", "0-1 name \"a\", 6-7 name \"c\""),
    (b"a/*\n*/c", "0-1 name \"a\", |6-7 name \"c\""),
    (b"a/*\r*/c", "0-1 name \"a\", |6-7 name \"c\""),
    (b"a/*\xE2\x80\xA9*/c", "0-1 name \"a\", |8-9 name \"c\""),
    (b"a/*b*/\nc", "0-1 name \"a\", |7-8 name \"c\""),
    (b"a\n/*b*/c", "0-1 name \"a\", |7-8 name \"c\""),
    (b"/**/a", "4-5 name \"a\""),
    (b"/***/a", "5-6 name \"a\""),
    (b"/*\xC3\xA9*/a", "6-7 name \"a\""),
    (b"/*//*/a", "6-7 name \"a\""),
    (b"/* */*/", "5-6 Star, 6-7 Slash"),
    (b"a /*b", "syntax at 2"),
    (b"a /*b*", "syntax at 2"),
    (b"/*/", "syntax at 0"),
];

/// Names (7.6).
static NAMES: [Case; 17] = [
    (b"$_a9", "0-4 name \"$_a9\""),
    (b"\xC3\xA9x", "0-3 name \"\\u00e9x\""),
    (b"a\xCC\x81", "0-3 name \"a\\u0301\""),
    (b"\xCC\x81", "syntax at 0"),
    (
        b"a\xE2\x80\x8Cb\xE2\x80\x8D",
        "0-8 name \"a\\u200cb\\u200d\"",
    ),
    (b"\xE2\x80\x8Ca", "syntax at 0"),
    (b"\xE2\x80\x8Da", "syntax at 0"),
    (
        b"\xF0\x90\x90\x80 a",
        "0-4 name \"\\ud801\\udc00\", 5-6 name \"a\"",
    ),
    (b"a\xF0\x90\x90\x80", "0-5 name \"a\\ud801\\udc00\""),
    (b"\xF0\x9F\x98\x80", "syntax at 0"),
    (b"a\\u0062", "unsupported at 1: IdentifierEscape"),
    (b"\\", "unsupported at 0: IdentifierEscape"),
    (b"a#", "syntax at 1"),
    (b"@", "syntax at 0"),
    (
        b"eval arguments",
        "0-4 name \"eval\", 5-14 name \"arguments\"",
    ),
    (b"x.__proto__", "unsupported at 2: ProtoName"),
    (
        b"__proto_ __proto__1",
        "0-8 name \"__proto_\", 9-19 name \"__proto__1\"",
    ),
];

/// Reserved words (7.6.1), and names that are none.
static RESERVED_WORDS: [Case; 2] = [
    (
        b"break case catch continue debugger default delete do else finally for function if in instanceof new return switch this throw try typeof var void while with class const enum export extends import super null true false",
        "0-5 Break, 6-10 Case, 11-16 Catch, 17-25 Continue, 26-34 Debugger, 35-42 Default, 43-49 Delete, 50-52 Do, 53-57 Else, 58-65 Finally, 66-69 For, 70-78 Function, 79-81 If, 82-84 In, 85-95 InstanceOf, 96-99 New, 100-106 Return, 107-113 Switch, 114-118 This, 119-124 Throw, 125-128 Try, 129-135 TypeOf, 136-139 Var, 140-144 Void, 145-150 While, 151-155 With, 156-161 Class, 162-167 Const, 168-172 Enum, 173-179 Export, 180-187 Extends, 188-194 Import, 195-200 Super, 201-205 Null, 206-210 True, 211-216 False",
    ),
    (
        b"typeo typeofx Null let yield static",
        "0-5 name \"typeo\", 6-13 name \"typeofx\", 14-18 name \"Null\", 19-22 name \"let\", 23-28 name \"yield\", 29-35 name \"static\"",
    ),
];

/// Punctuators (7.7): each, and the longest at a place.
static PUNCTUATION: [Case; 13] = [
    (
        b"{ } ( ) [ ] . ; , < > <= >= == != === !== + - * / % ++ -- << >> >>> & | ^ ! ~ && || ? : = += -= *= /= %= <<= >>= >>>= &= |= ^=",
        "0-1 LeftBrace, 2-3 RightBrace, 4-5 LeftParenthesis, 6-7 RightParenthesis, 8-9 LeftBracket, 10-11 RightBracket, 12-13 Dot, 14-15 Semicolon, 16-17 Comma, 18-19 Less, 20-21 Greater, 22-24 LessEqual, 25-27 GreaterEqual, 28-30 Equal, 31-33 NotEqual, 34-37 Same, 38-41 NotSame, 42-43 Plus, 44-45 Minus, 46-47 Star, 48-49 Slash, 50-51 Percent, 52-54 PlusPlus, 55-57 MinusMinus, 58-60 Shl, 61-63 Sar, 64-67 Shr, 68-69 BitAnd, 70-71 BitOr, 72-73 BitXor, 74-75 Not, 76-77 BitNot, 78-80 And, 81-83 Or, 84-85 Question, 86-87 Colon, 88-89 Assign, 90-92 PlusAssign, 93-95 MinusAssign, 96-98 StarAssign, 99-101 SlashAssign, 102-104 PercentAssign, 105-108 ShlAssign, 109-112 SarAssign, 113-117 ShrAssign, 118-120 BitAndAssign, 121-123 BitOrAssign, 124-126 BitXorAssign",
    ),
    (b"a>>>=b", "0-1 name \"a\", 1-5 ShrAssign, 5-6 name \"b\""),
    (b">>>==", "0-4 ShrAssign, 4-5 Assign"),
    (b">>>>=", "0-3 Shr, 3-5 GreaterEqual"),
    (b">> >=", "0-2 Sar, 3-5 GreaterEqual"),
    (b"====", "0-3 Same, 3-4 Assign"),
    (b"!====", "0-3 NotSame, 3-5 Equal"),
    (b"+++", "0-2 PlusPlus, 2-3 Plus"),
    (b"<<==", "0-3 ShlAssign, 3-4 Assign"),
    (b"&&=", "0-2 And, 2-3 Assign"),
    (b"**=>", "0-1 Star, 1-3 StarAssign, 3-4 Greater"),
    (b"...", "0-1 Dot, 1-2 Dot, 2-3 Dot"),
    (b"/a/=", "0-1 Slash, 1-2 name \"a\", 2-4 SlashAssign"),
];

/// Numbers (7.8.3).
static NUMBERS: [Case; 36] = [
    (b"0 10", "0-1 number 0, 2-4 number 10"),
    (b"9007199254740991", "0-16 number 9007199254740991"),
    (b"9007199254740992", "unsupported at 0: NumberLiteral"),
    (b" 99999999999999999999", "unsupported at 1: NumberLiteral"),
    (b"0x1F 0Xfa", "0-4 number 31, 5-9 number 250"),
    (b"0x1fffffffffffff", "0-16 number 9007199254740991"),
    (b"0x20000000000000", "unsupported at 0: NumberLiteral"),
    (b"08", "unsupported at 0: OctalLiteral"),
    (b"-00", "unsupported at 1: OctalLiteral"),
    (b"0 8", "0-1 number 0, 2-3 number 8"),
    (b"1.", "unsupported at 0: NumberLiteral"),
    (b"1.5", "unsupported at 0: NumberLiteral"),
    (b"1 .a", "0-1 number 1, 2-3 Dot, 3-4 name \"a\""),
    (b"a.5", "unsupported at 1: NumberLiteral"),
    (b". 5", "0-1 Dot, 2-3 number 5"),
    (b"1e3", "unsupported at 0: NumberLiteral"),
    (b"1E+3", "unsupported at 0: NumberLiteral"),
    (b"0e-0", "unsupported at 0: NumberLiteral"),
    (b"1e", "syntax at 1"),
    (b"1e+", "syntax at 1"),
    (b"1e+x", "syntax at 1"),
    (b"1 e3", "0-1 number 1, 2-4 name \"e3\""),
    (b"3in", "syntax at 1"),
    (b"3 in", "0-1 number 3, 2-4 In"),
    (b"30$", "syntax at 2"),
    (b"3\xC3\xA9", "syntax at 1"),
    (b"3\xE2\x80\x8D", "syntax at 1"),
    (b"3\\", "unsupported at 1: IdentifierEscape"),
    (b"3\"a\"", "0-1 number 3, 1-4 string \"a\""),
    (b"0x", "syntax at 1"),
    (b"0xg", "syntax at 1"),
    (b"0x1g", "syntax at 3"),
    (b"0x1e3", "0-5 number 483"),
    (b"0x1.a", "0-3 number 1, 3-4 Dot, 4-5 name \"a\""),
    (b"0x1.5", "unsupported at 3: NumberLiteral"),
    (b"99999999999999999999in", "unsupported at 0: NumberLiteral"),
];

/// Strings (7.8.4).
static STRINGS: [Case; 45] = [
    (b"\"ab\" 'c'", "0-4 string \"ab\", 5-8 string \"c\""),
    (b"\"\"", "0-2 string \"\""),
    (
        b"\"a'b\"'a\"b'",
        "0-5 string \"a'b\", 5-10 string \"a\\\"b\"",
    ),
    (
        b"\"use strict\" 'use\\x20strict'",
        "0-12 string \"use strict\", 13-28 string \"use strict\"",
    ),
    (
        b"\"\xC3\xA9\xF0\x9F\x98\x80\" a",
        "0-8 string \"\\u00e9\\ud83d\\ude00\", 9-10 name \"a\"",
    ),
    (b"\"//\" \"/*\"", "0-4 string \"//\", 5-9 string \"/*\""),
    (
        b"\"\\b\\t\\n\\v\\f\\r\\'\\\"\\\\\"",
        "0-20 string \"\\u0008\\u0009\\u000a\\u000b\\u000c\\u000d'\\\"\\\\\"",
    ),
    (b"\"\\a\\B\\/\"", "0-8 string \"aB/\""),
    (
        b"\"\\\xC3\xA9\\\xF0\x90\x90\x80\"",
        "0-10 string \"\\u00e9\\ud801\\udc00\"",
    ),
    (
        b"\"\\0\" \"\\0a\" \"\\\0\"",
        "0-4 string \"\\u0000\", 5-10 string \"\\u0000a\", 11-15 string \"\\u0000\"",
    ),
    (b"\"\\01\"", "unsupported at 1: OctalEscape"),
    (b"\"\\08\"", "unsupported at 1: OctalEscape"),
    (b"\"a\\1\"", "unsupported at 2: OctalEscape"),
    (b"\"\\9\"", "unsupported at 1: OctalEscape"),
    (b"\"\xC3\xA9\\7\"", "unsupported at 3: OctalEscape"),
    (b"\"\\1", "unsupported at 1: OctalEscape"),
    (b"\"\\x41\\xfF\"", "0-10 string \"A\\u00ff\""),
    (b"\"\\x4\"", "syntax at 1"),
    (b"\"\\xg1\"", "syntax at 1"),
    (b"\"\\x4", "syntax at 1"),
    (b"\"\\u0041\\uaBCd\"", "0-14 string \"A\\uabcd\""),
    (b"\"\\ud83d\"", "0-8 string \"\\ud83d\""),
    (b"\"\\u004\"", "syntax at 1"),
    (b"\"\\u004g\"", "syntax at 1"),
    (b"\"\\u{41}\"", "syntax at 1"),
    (b"\"a\\u004", "syntax at 2"),
    (b"\"a\\\nb\"", "0-6 string \"ab\""),
    (b"\"a\\\rb\"", "0-6 string \"ab\""),
    (b"\"a\\\r\nb\"", "0-7 string \"ab\""),
    (b"\"a\\\xE2\x80\xA8b\"", "0-8 string \"ab\""),
    (b"\"\\\xE2\x80\xA9\\x\"", "syntax at 5"),
    (b"\"a\\\n\rb\"", "syntax at 0"),
    (b"\"a\\\n\nb\"", "syntax at 0"),
    (b"\"a\nb\"", "syntax at 0"),
    (b" 'a\r\nb'", "syntax at 1"),
    (b"\"a\xE2\x80\xA8b\"", "syntax at 0"),
    (b"\"a\xE2\x80\xA9b\"", "syntax at 0"),
    (b"x \"ab", "syntax at 2"),
    (b"\"ab'", "syntax at 0"),
    (b"\"ab\\", "syntax at 0"),
    (b"\"ab\\\"", "syntax at 0"),
    (b"\"", "syntax at 0"),
    (b"a \"__proto__\"", "unsupported at 2: ProtoName"),
    (b"'\\x5f_proto__'", "unsupported at 0: ProtoName"),
    (
        b"\"__proto_\" \"__proto__ \"",
        "0-10 string \"__proto_\", 11-23 string \"__proto__ \"",
    ),
];

/// The check of UTF-8 comes first, and then the first fault.
static FAULTS: [Case; 16] = [
    (b"a\x80", "syntax at 1"),
    (b"a\xC0\x80", "syntax at 1"),
    (b"\xE0\x9F\xBF", "syntax at 0"),
    (b"\xED\xA0\x80", "syntax at 0"),
    (b"\"\xED\x9F\xBF\"", "0-5 string \"\\ud7ff\""),
    (b"\"\xF4\x8F\xBF\xBF\"", "0-6 string \"\\udbff\\udfff\""),
    (b"\xF4\x8F\xBF\xBF", "syntax at 0"),
    (b"\"\xF4\x90\x80\x80\"", "syntax at 1"),
    (b"ab\xE2\x82", "syntax at 2"),
    (b"\xC3\xA9\xFF", "syntax at 2"),
    (b"/*\x80*/", "syntax at 2"),
    (b"a @ \xFF", "syntax at 4"),
    (b"\xEF\xBB\xBFa", "3-4 name \"a\""),
    (b"\"\xEF\xBB\xBF\"", "0-5 string \"\\ufeff\""),
    (b"08 @", "unsupported at 0: OctalLiteral"),
    (b"@ 08", "syntax at 0"),
];

fn push_text(out: &mut String, alloc: Global, kind: &str, text: &Text) -> Result<(), Fail> {
    let quoted = text.quoted(alloc)?;
    let spelled = str::from_utf8(quoted.as_slice()).ok().ok_or("not ASCII")?;
    write!(out, "{kind} {spelled}")?;
    Ok(())
}

fn push_token(out: &mut String, alloc: Global, token: &Token) -> Result<(), Fail> {
    let mark = if token.line_before { "|" } else { "" };
    let (Place(at), Place(end)) = (token.at, token.end);
    write!(out, "{mark}{at}-{end} ")?;
    match &token.form {
        TokenForm::Name(text) => push_text(out, alloc, "name", text)?,
        TokenForm::Str(text) => push_text(out, alloc, "string", text)?,
        TokenForm::Reserved(keyword) => write!(out, "{keyword:?}")?,
        TokenForm::Number(n) => write!(out, "number {n}")?,
        TokenForm::Punctuator(punctuator) => write!(out, "{punctuator:?}")?,
    }
    Ok(())
}

fn shown(alloc: Global, answer: Result<Tokens, ReadRefused>) -> Result<String, Fail> {
    let mut out = String::new(alloc);
    match answer {
        Ok(tokens) => {
            for token in tokens.items.as_slice() {
                if !out.is_empty() {
                    out.push_str(", ")?;
                }
                push_token(&mut out, alloc, token)?;
            }
        }
        Err(ReadRefused::Syntax(Place(at))) => write!(out, "syntax at {at}")?,
        Err(ReadRefused::Unsupported(Place(at), feature)) => {
            write!(out, "unsupported at {at}: {feature:?}")?
        }
        Err(other) => write!(out, "{other:?}")?,
    }
    Ok(out)
}

fn all_cut(rt: &impl Abort, alloc: Global, cases: &[Case]) -> Result<(), Fail> {
    for (text, wanted) in cases {
        assert!(rt; text.len() < 1000);
        let got = shown(alloc, lex(alloc, text))?;
        assert_eq!(rt; got.as_str(), *wanted, "of {text:?}");
    }
    Ok(())
}

#[test]
fn cuts_texts(rt: HostRuntime) -> Result<(), Fail> {
    let alloc = rt.alloc();
    all_cut(&rt, alloc, &SPACES)?;
    all_cut(&rt, alloc, &LINE_ENDS)?;
    all_cut(&rt, alloc, &COMMENTS)?;
    all_cut(&rt, alloc, &NAMES)?;
    all_cut(&rt, alloc, &RESERVED_WORDS)?;
    all_cut(&rt, alloc, &PUNCTUATION)?;
    all_cut(&rt, alloc, &NUMBERS)?;
    all_cut(&rt, alloc, &STRINGS)?;
    all_cut(&rt, alloc, &FAULTS)?;
    Ok(())
}

#[test]
fn ends_with_the_text(rt: HostRuntime) -> Result<(), Fail> {
    let tokens = lex(rt.alloc(), b"a \xC3\xA9 ").ok().ok_or("refused")?;
    assert_eq!(rt; tokens.end, Place(5));
    assert_eq!(rt; tokens.items.len(), 2);
    Ok(())
}
