//! Expressions (11), each as a statement or in one.

use crate::rows::{Row, all_print};
use std::test::Fail;

/// Binary operators bind to the left, those with more weight first (11.5 to 11.11).
static OPERATORS: [Row; 29] = [
    ("a*b/c%d", "a * b / c % d;\n"),
    ("a*(b/c)", "a * (b / c);\n"),
    ("a+b-c", "a + b - c;\n"),
    ("(a-b)-c", "a - b - c;\n"),
    ("a-(b-c)", "a - (b - c);\n"),
    ("(a+b)*c", "(a + b) * c;\n"),
    ("a+(b*c)", "a + b * c;\n"),
    ("a<<b>>c>>>d", "a << b >> c >>> d;\n"),
    ("a<<(b<<c)", "a << (b << c);\n"),
    ("(a+b)<<(c+d)", "a + b << c + d;\n"),
    ("(a<<b)+c", "(a << b) + c;\n"),
    ("a<b<=c", "a < b <= c;\n"),
    ("a>(b>=c)", "a > (b >= c);\n"),
    ("a in b instanceof c", "a in b instanceof c;\n"),
    ("(a<b)<<c", "(a < b) << c;\n"),
    ("a==b!=c", "a == b != c;\n"),
    ("a===(b!==c)", "a === (b !== c);\n"),
    ("(a<b)==c", "a < b == c;\n"),
    ("(a==b)<c", "(a == b) < c;\n"),
    ("a|b^c&d", "a | b ^ c & d;\n"),
    ("(a|b)^c", "(a | b) ^ c;\n"),
    ("(a^b)&c", "(a ^ b) & c;\n"),
    ("(a&b)==c", "(a & b) == c;\n"),
    ("d||a&&b instanceof c", "d || a && b instanceof c;\n"),
    ("(a||b)&&c", "(a || b) && c;\n"),
    ("a||(b||c)", "a || (b || c);\n"),
    ("a&&(b&&c)", "a && (b && c);\n"),
    ("(a&&b)|c", "(a && b) | c;\n"),
    ("a&&(b|c)", "a && b | c;\n"),
];

/// Conditional expressions and assignments go on to the right, the comma to the left (11.12 to 11.14).
static CHOICES: [Row; 27] = [
    ("(a?b:c)?d:e", "(a ? b : c) ? d : e;\n"),
    ("a?(b?c:d):(e?f:g)", "a ? b ? c : d : e ? f : g;\n"),
    ("(a=b)?c:d", "(a = b) ? c : d;\n"),
    ("a?(b=c):(d=e)", "a ? b = c : d = e;\n"),
    ("a?(b,c):(d,e)", "a ? (b, c) : (d, e);\n"),
    ("(a,b)?c:d", "(a, b) ? c : d;\n"),
    ("(a||b)?c:d", "a || b ? c : d;\n"),
    ("(a?b:c)||d", "(a ? b : c) || d;\n"),
    ("a=(b=c)", "a = b = c;\n"),
    ("a=(b,c)", "a = (b, c);\n"),
    ("a=(b?c:d)", "a = b ? c : d;\n"),
    ("(a=b)+c", "(a = b) + c;\n"),
    ("a.b=c[d]=e", "a.b = c[d] = e;\n"),
    ("a+=b-=c*=d/=e%=f", "a += b -= c *= d /= e %= f;\n"),
    ("a<<=b>>=c>>>=d", "a <<= b >>= c >>>= d;\n"),
    ("a&=b^=c|=d", "a &= b ^= c |= d;\n"),
    ("(a,b),c", "a, b, c;\n"),
    ("a,(b,c)", "a, (b, c);\n"),
    ("(a,b)+c", "(a, b) + c;\n"),
    ("a((b,c),d)", "a((b, c), d);\n"),
    ("[(a,b),c]", "[(a, b), c];\n"),
    ("a={b:(c,d)}", "a = {b: (c, d)};\n"),
    ("var a=(b,c)", "var a = (b, c);\n"),
    ("a[(b,c)]", "a[b, c];\n"),
    ("if((a,b));", "if (a, b);\n"),
    ("throw(a,b)", "throw a, b;\n"),
    ("switch((a,b)){}", "switch (a, b) { }\n"),
];

/// What stands before a point, an index or arguments, and behind `new` (11.2).
static CALLEES: [Row; 25] = [
    ("new(a())", "new (a())();\n"),
    ("new a.b(c)", "new a.b(c);\n"),
    ("new(a().b)", "new (a().b)();\n"),
    ("new(a()[b])", "new (a()[b])();\n"),
    ("new a[b()]", "new a[b()]();\n"),
    ("new(new a)", "new new a()();\n"),
    ("new(new a().b)", "new new a().b();\n"),
    ("new(a,b)", "new (a, b)();\n"),
    ("new(function(){})", "new function () {}();\n"),
    ("(new a).b", "new a().b;\n"),
    ("(new a)()", "new a()();\n"),
    ("(1).a", "(1).a;\n"),
    ("(1)[a]", "1[a];\n"),
    ("(1)()", "1();\n"),
    ("new(1)", "new 1();\n"),
    ("a.b[c](d,e)", "a.b[c](d, e);\n"),
    ("(a+b).c", "(a + b).c;\n"),
    ("(a+b)[c]", "(a + b)[c];\n"),
    ("(a+b)(c)", "(a + b)(c);\n"),
    ("(-a).b", "(-a).b;\n"),
    ("-(a.b)", "-a.b;\n"),
    ("(a++).b", "(a++).b;\n"),
    ("a.if", "a.if;\n"),
    ("this.a", "this.a;\n"),
    ("[a].b", "[a].b;\n"),
];

/// Prefix and postfix operators, and signs side by side (11.3, 11.4).
static SIGNS: [Row; 29] = [
    ("-(-a)", "- -a;\n"),
    ("+(+a)", "+ +a;\n"),
    ("-+a", "- +a;\n"),
    ("+(++a)", "+ ++a;\n"),
    ("-(--a)", "- --a;\n"),
    ("!-a", "! -a;\n"),
    ("~++a", "~ ++a;\n"),
    ("-!a", "-!a;\n"),
    ("!~a", "!~a;\n"),
    ("!!a", "!!a;\n"),
    ("-(a+b)", "-(a + b);\n"),
    ("(-a)*b", "-a * b;\n"),
    ("a-(-b)", "a - -b;\n"),
    ("a+(+b)", "a + +b;\n"),
    ("a+(++b)", "a + ++b;\n"),
    ("(a--)-(--b)", "a-- - --b;\n"),
    ("(a++)+b", "a++ + b;\n"),
    ("-(a++)", "-a++;\n"),
    ("++a.b", "++a.b;\n"),
    ("a[b]--", "a[b]--;\n"),
    ("void(delete(a.b))", "void delete a.b;\n"),
    ("delete a[b]", "delete a[b];\n"),
    ("typeof(-a)", "typeof -a;\n"),
    ("typeof(a+b)", "typeof (a + b);\n"),
    ("-(typeof a)", "-typeof a;\n"),
    ("(typeof a)+b", "typeof a + b;\n"),
    ("-1", "-1;\n"),
    ("-(-1)", "- -1;\n"),
    ("-(1).a", "-(1).a;\n"),
];

/// Names, numbers, strings, arrays, inputs and host calls (7.6, 7.8, 11.1).
static LITERALS: [Row; 26] = [
    ("this", "this;\n"),
    ("a=null", "a = null;\n"),
    ("true===false", "true === false;\n"),
    ("$_1", "$_1;\n"),
    ("\u{e9}", "\u{e9};\n"),
    (
        "a=[0,7,0x1F,0Xff,9007199254740991]",
        "a = [0, 7, 31, 255, 9007199254740991];\n",
    ),
    ("a=''", "a = \"\";\n"),
    ("a='\"'", "a = \"\\\"\";\n"),
    ("a='\\'\\\\'", "a = \"'\\\\\";\n"),
    ("a=' ~\\x7f\\x1f'", "a = \" ~\\u007f\\u001f\";\n"),
    ("a='\u{e9}\\n'", "a = \"\\u00e9\\u000a\";\n"),
    ("a='\u{1f600}'", "a = \"\\ud83d\\ude00\";\n"),
    ("a='\\uDC00'", "a = \"\\udc00\";\n"),
    ("a='b\\\nc\\0'", "a = \"bc\\u0000\";\n"),
    ("[]", "[];\n"),
    ("[,]", "[,];\n"),
    ("[,,]", "[,,];\n"),
    ("[a,]", "[a];\n"),
    ("[a,,]", "[a,,];\n"),
    ("[a,,b]", "[a,, b];\n"),
    ("[,a]", "[, a];\n"),
    ("[[a],[b,c]]", "[[a], [b, c]];\n"),
    (
        "__abstract('number','n')",
        "__abstract(\"number\", \"n\");\n",
    ),
    (
        "__abstract('boolean','\"')",
        "__abstract(\"boolean\", \"\\\"\");\n",
    ),
    (
        "__residual('string','t')",
        "__residual(\"string\", \"t\");\n",
    ),
    (
        "__residual('number','t',a,(b,c))",
        "__residual(\"number\", \"t\", a, (b, c));\n",
    ),
];

/// Object literals (11.1.5).
static OBJECTS: [Row; 10] = [
    ("o={}", "o = {};\n"),
    ("o={a:b,c:d,}", "o = {a: b, c: d};\n"),
    ("o={a:{b:[]}}", "o = {a: {b: []}};\n"),
    (
        "o={if:1,2:a,\u{e9}:b}",
        "o = {if: 1, \"2\": a, \"\\u00e9\": b};\n",
    ),
    (
        "o={'a':b,'c d':e,'':f}",
        "o = {a: b, \"c d\": e, \"\": f};\n",
    ),
    ("o={0x10:a,$_1:b}", "o = {\"16\": a, $_1: b};\n"),
    ("o={get:a,set:b}", "o = {get: a, set: b};\n"),
    (
        "o={get g1(){return 1},set ''(v){}}",
        "o = {get g1() {\n  return 1;\n}, set \"\"(v) {}};\n",
    ),
    (
        "o={get get(){},set if(v){}}",
        "o = {get get() {}, set if(v) {}};\n",
    ),
    (
        "o={get 'a b'(){},set 1(v){}}",
        "o = {get \"a b\"() {}, set \"1\"(v) {}};\n",
    ),
];

#[test]
fn writes_operators(rt: HostRuntime) -> Result<(), Fail> {
    let alloc = rt.alloc();
    all_print(&rt, alloc, &OPERATORS)?;
    all_print(&rt, alloc, &CHOICES)?;
    all_print(&rt, alloc, &SIGNS)
}

#[test]
fn writes_members_and_literals(rt: HostRuntime) -> Result<(), Fail> {
    let alloc = rt.alloc();
    all_print(&rt, alloc, &CALLEES)?;
    all_print(&rt, alloc, &LITERALS)?;
    all_print(&rt, alloc, &OBJECTS)
}
