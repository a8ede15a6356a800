//! Statements (12), functions (13) and scripts (14).

use crate::rows::{Row, all_print};
use std::test::Fail;

/// Expression statements whose first token would be `{`, `function` or a string, and such as begin otherwise (12.4).
static EVALUATIONS: [Row; 29] = [
    ("({})", "({});\n"),
    ("({}).a", "({}.a);\n"),
    ("({}).a=b", "({}.a = b);\n"),
    ("({}).a+=b", "({}.a += b);\n"),
    ("({})[a]()", "({}[a]());\n"),
    ("({})+a,b", "({} + a, b);\n"),
    ("({})?a:b", "({} ? a : b);\n"),
    ("({}).a++", "({}.a++);\n"),
    ("++{}.a", "++{}.a;\n"),
    ("a={}", "a = {};\n"),
    ("new{}.a", "new {}.a();\n"),
    ("({}-a)*b", "({} - a) * b;\n"),
    ("(function(){})", "(function () {});\n"),
    (
        "(function(){}).call(this)",
        "(function () {}.call(this));\n",
    ),
    ("(function a(){})()", "(function a() {}());\n"),
    ("!function(){}()", "!function () {}();\n"),
    ("typeof function(){}", "typeof function () {};\n"),
    ("'s'", "(\"s\");\n"),
    ("('use strict')", "(\"use strict\");\n"),
    ("a;'use strict'", "a;\n(\"use strict\");\n"),
    ("'s'+a", "(\"s\" + a);\n"),
    ("'s'[a]", "(\"s\"[a]);\n"),
    ("'s'.a", "(\"s\".a);\n"),
    ("('s'&&a)||b", "(\"s\" && a || b);\n"),
    ("('s'||a)&&b", "(\"s\" || a) && b;\n"),
    ("('s',a)()", "(\"s\", a)();\n"),
    ("a+'s'", "a + \"s\";\n"),
    ("if(a)({});", "if (a) ({});\n"),
    ("for(;;)(function(){})", "for (;;) (function () {});\n"),
];

/// Headers of `for`, in whose first part an operator `in` is grouped outside brackets (12.6.3, 12.6.4).
static HEADERS: [Row; 27] = [
    ("for(;;);", "for (;;);\n"),
    ("for(a;;);", "for (a;;);\n"),
    ("for(;a;);", "for (; a;);\n"),
    ("for(;;a);", "for (;; a);\n"),
    ("for(a,b;c,d;e,f)g", "for (a, b; c, d; e, f) g;\n"),
    ("for({};;);", "for ({};;);\n"),
    ("for((a in b);;);", "for ((a in b);;);\n"),
    ("for((a in b),c;;);", "for ((a in b), c;;);\n"),
    ("for(a=(b in c);;);", "for (a = (b in c);;);\n"),
    ("for(a||(b in c)+d;;);", "for (a || (b in c) + d;;);\n"),
    ("for(!(a in b);;);", "for (!(a in b);;);\n"),
    ("for((a in b)?c:d;;);", "for ((a in b) ? c : d;;);\n"),
    ("for(a?(b in c):d;;);", "for (a ? b in c : d;;);\n"),
    ("for(a?b:(c in d);;);", "for (a ? b : (c in d);;);\n"),
    ("for(a(b in c);;);", "for (a(b in c);;);\n"),
    ("for(a[b in c];;);", "for (a[b in c];;);\n"),
    ("for(new(a(b in c));;);", "for (new (a(b in c))();;);\n"),
    ("for(a=[b in c];;);", "for (a = [b in c];;);\n"),
    ("for(a={b:c in d};;);", "for (a = {b: c in d};;);\n"),
    (
        "for(a=function(){b in c};;);",
        "for (a = function () {\n  b in c;\n};;);\n",
    ),
    (
        "for(var a=(b in c);d in e;f)continue;",
        "for (var a = (b in c); d in e; f) continue;\n",
    ),
    (
        "for(var a,b=c;;d in e)break",
        "for (var a, b = c;; d in e) break;\n",
    ),
    ("for(var a in b)break;", "for (var a in b) break;\n"),
    ("for(a in(b,c))d", "for (a in b, c) d;\n"),
    ("for(a.b in c){}", "for (a.b in c) {}\n"),
    ("for(a[b in c]in d);", "for (a[b in c] in d);\n"),
    ("for((a in b).c in d);", "for ((a in b).c in d);\n"),
];

/// Blocks, and `if` with `else` behind a block or on a line of its own (12.1, 12.3, 12.5).
static BRANCHES: [Row; 14] = [
    (";", ";\n"),
    ("{}", "{}\n"),
    ("{;}", "{\n  ;\n}\n"),
    ("{{a}b}", "{\n  {\n    a;\n  }\n  b;\n}\n"),
    ("if(a);", "if (a);\n"),
    ("if(a)b", "if (a) b;\n"),
    ("if(a){}else{b}", "if (a) {} else {\n  b;\n}\n"),
    ("if(a)b;else c", "if (a) b;\nelse c;\n"),
    ("if(a);else{}", "if (a);\nelse {}\n"),
    ("if(a)while(b){}else c", "if (a) while (b) {}\nelse c;\n"),
    ("if(a)if(b)c;else;", "if (a) if (b) c;\nelse;\n"),
    ("if(a){if(b)c}else d", "if (a) {\n  if (b) c;\n} else d;\n"),
    (
        "if(a)if(b)c;else d;else e",
        "if (a) if (b) c;\nelse d;\nelse e;\n",
    ),
    (
        "if(a){}else if(b){}else{}",
        "if (a) {} else if (b) {} else {}\n",
    ),
];

/// `do` and `while` (12.6.1, 12.6.2).
static LOOPS: [Row; 13] = [
    ("do{a}while(b)", "do {\n  a;\n} while (b);\n"),
    ("do a;while(b)", "do a;\nwhile (b);\n"),
    ("do;while(a,b)", "do;\nwhile (a, b);\n"),
    ("do while(a){}while(b)", "do while (a) {} while (b);\n"),
    (
        "do do a;while(b);while(c)",
        "do do a;\nwhile (b);\nwhile (c);\n",
    ),
    (
        "do if(a)b;else{}while(c)",
        "do if (a) b;\nelse {} while (c);\n",
    ),
    ("do switch(a){}while(b)", "do switch (a) { } while (b);\n"),
    (
        "do try{}finally{}while(a)",
        "do try {} finally {} while (a);\n",
    ),
    (
        "while(a){do{b}while(c)}",
        "while (a) {\n  do {\n    b;\n  } while (c);\n}\n",
    ),
    ("while(a);", "while (a);\n"),
    ("while(a)b", "while (a) b;\n"),
    ("while(a){b}", "while (a) {\n  b;\n}\n"),
    ("while(a)for(;;)if(b)c", "while (a) for (;;) if (b) c;\n"),
];

/// `switch` and `try` (12.11, 12.14).
static CLAUSES: [Row; 6] = [
    ("switch(a){}", "switch (a) { }\n"),
    (
        "switch(a){case b:c;break;default:}",
        "switch (a) {\n  case b:\n    c;\n    break;\n  default:\n}\n",
    ),
    (
        "switch(a){default:case(b,c):{}}",
        "switch (a) {\n  default:\n  case b, c:\n    {}\n}\n",
    ),
    (
        "try{throw a}catch(e){}",
        "try {\n  throw a;\n} catch (e) {}\n",
    ),
    ("try{}finally{a}", "try {} finally {\n  a;\n}\n"),
    (
        "try{}catch(e){e}finally{}",
        "try {} catch (e) {\n  e;\n} finally {}\n",
    ),
];

/// Functions, in scripts and in one another (13).
static FUNCTIONS: [Row; 8] = [
    (
        "function f(a,b){return;return function(){c}}",
        "function f(a, b) {\n  return;\n  return function () {\n    c;\n  };\n}\n",
    ),
    ("function f(){}a", "function f() {}\na;\n"),
    (
        "function f(){function g(){}}",
        "function f() {\n  function g() {}\n}\n",
    ),
    (
        "function f(){return(a,b)}",
        "function f() {\n  return a, b;\n}\n",
    ),
    ("a=function(b){}", "a = function (b) {};\n"),
    ("a=function f(){}", "a = function f() {};\n"),
    ("a(function(){b},c)", "a(function () {\n  b;\n}, c);\n"),
    (
        "a(function(){if(b){c}})",
        "a(function () {\n  if (b) {\n    c;\n  }\n});\n",
    ),
];

/// Scripts of any number of statements (14).
static SCRIPTS: [Row; 4] = [
    ("", ""),
    ("var a,b=7;a", "var a, b = 7;\na;\n"),
    ("var \u{e9}", "var \u{e9};\n"),
    ("//a\n a/*b*/;\n\n b\n", "a;\nb;\n"),
];

#[test]
fn writes_evaluations(rt: HostRuntime) -> Result<(), Fail> {
    let alloc = rt.alloc();
    all_print(&rt, alloc, &EVALUATIONS)?;
    all_print(&rt, alloc, &HEADERS)
}

#[test]
fn writes_lines(rt: HostRuntime) -> Result<(), Fail> {
    let alloc = rt.alloc();
    all_print(&rt, alloc, &BRANCHES)?;
    all_print(&rt, alloc, &LOOPS)?;
    all_print(&rt, alloc, &CLAUSES)?;
    all_print(&rt, alloc, &FUNCTIONS)?;
    all_print(&rt, alloc, &SCRIPTS)
}
