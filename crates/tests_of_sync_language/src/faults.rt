//! Texts of the sync language that are programs, and texts with their first fault.

use crate::texts::{cut, joined, number_of, write_two};
use json_doc::DocText;
use sg_outside::Bytes;
use std::alloc::{AllocError, Global};
use std::test::Fail;
use sync_print::print;
use sync_syntax::{ParseFault, Place, Program, SyntaxFault, SyntaxWhy, parse};

/// Programs, with an empty line between each two: behind a `@` stands what is printed of each, which has the parentheses that the
/// rules want and no others.
const PROGRAMS: &str = "\
function(doc, oldDoc) { channel(doc.channels); }@\
function (doc, oldDoc) { channel(doc.channels); }\n\n\
function sync(doc) {}@\
function sync(doc) { }\n\n\
function(doc) {};@\
function (doc) { }\n\n\
/* a */ function // b\n(doc) {} /* c **/ ; // d@\
function (doc) { }\n\n\
function($_1) { a\n}@\
function ($_1) { a; }\n\n\
function(doc) { ; {} {;} }@\
function (doc) {; { } {; } }\n\n\
function(doc) { for (;;) ; }@\
function (doc) { for (;;); }\n\n\
function(doc) { if (a) if (b) x(); else y(); }@\
function (doc) { if (a) if (b) x(); else y(); }\n\n\
function(doc) { if (a) { x() } else if (b) y(); else { z() } }@\
function (doc) { if (a) { x(); } else if (b) y(); else { z(); } }\n\n\
function(doc) { var a = 1, b; let c; const d = 2 }@\
function (doc) { var a = 1, b; let c; const d = 2; }\n\n\
function(doc) { for (var i = 0, n = 9; i < n; i++) { continue; } }@\
function (doc) { for (var i = 0, n = 9; i < n; i ++) { continue; } }\n\n\
function(doc) { for (i = 0; ; i += 2) break; }@\
function (doc) { for (i = 0;; i += 2) break; }\n\n\
function(doc) { for (const c of doc.list) { if (c) break } }@\
function (doc) { for (const c of doc.list) { if (c) break; } }\n\n\
function(doc) { return }@\
function (doc) { return; }\n\n\
function(doc) { return 1; }@\
function (doc) { return 1; }\n\n\
function(doc) { throw({forbidden: \"no\"}); }@\
function (doc) { throw { \"forbidden\": \"no\" }; }\n\n\
function(doc) { x = a ? b : c ? d : e; }@\
function (doc) { x = a ? b: c ? d: e; }\n\n\
function(doc) { x += - 1 * ! typeof y; x -= 1; x--; x++ }@\
function (doc) { x += - 1 * ! typeof y; x -= 1; x --; x ++; }\n\n\
function(doc) { a.b[c](d, e)[0].f(); (a.b)(c) }@\
function (doc) { a.b[c](d, e)[0].f(); (a.b)(c); }\n\n\
function(doc) { x = [1, 2, [], {}, {a: 1, \"b c\": 2, a: 3}] }@\
function (doc) { x = [1, 2, [], { }, { \"a\": 1, \"b c\": 2, \"a\": 3 }]; }\n\n\
function(doc) { ({}) }@\
function (doc) { ({ }); }\n\n\
function(doc) { x = 'a\\n\\t\\r\\\\\\'\\\"\\u0041\\u00e9\\uFFFF\t\u{e9}\u{1f600}' }@\
function (doc) { x = \"a\\n\t\r\\\\'\\\"A\u{e9}\u{ffff}\t\u{e9}\u{1f600}\"; }\n\n\
function(doc) { x = 9007199254740991 + 0 }@\
function (doc) { x = 9007199254740991 + 0; }\n\n\
function(doc) { a === b == c !== d != e < f <= g > h >= i && j || k }@\
function (doc) { a === b == c !== d != e < f <= g > h >= i && j || k; }\n\n\
function(doc) { for (let x of a ? b : c) for (;;) { break; } }@\
function (doc) { for (let x of a ? b: c) for (;;) { break; } }\n\n\
function(doc) { a - - b; a - -b * -(c) }@\
function (doc) { a - - b; a - - b * - c; }\n\n\
function f(a,b){x=((a||b)&&c)===(d<(e+f)*-g);y=a||b&&c==d<e+f*!typeof h;z=(a-b)-c-(d-e)*(f*g)}@\
function f(a, b) { x = ((a || b) && c) === d < (e + f) * - g; y = a || b && c == d < e + f * ! typeof h; z = (a - b) - c - (d - e) * (f * g); }\n\n\
function(doc) { x = (a ? b : c) ? (d) : (e ? f : g); y = (!a).b; z = !(a && b); w = -(-a); v = (-a)(b) }@\
function (doc) { x = (a ? b: c) ? d: e ? f: g; y = (! a).b; z = ! (a && b); w = - - a; v = (- a)(b); }\n\n\
function(doc) { ({a: 1}).a; x = ({a: 1}).a; ({} + 1) }@\
function (doc) { ({ \"a\": 1 }.a); x = { \"a\": 1 }.a; ({ } + 1); }";

/// The program that a text is.
pub fn program(alloc: Global, text: &str) -> Result<Program, Fail> {
    match parse(alloc, text) {
        Ok(program) => Ok(program),
        Err(_) => Err(Fail::from("no program")),
    }
}

/// A program printed.
fn printed(alloc: Global, program: &Program) -> Result<DocText, Fail> {
    let mut text = DocText::new(alloc);
    print(alloc, program, &mut text)?;
    Ok(text)
}

/// What is printed of the program that a text is.
fn printed_of(alloc: Global, text: &str) -> Result<DocText, Fail> {
    let program = program(alloc, text)?;
    printed(alloc, &program)
}

/// Whether this is printed of the program that a text is.
fn is_printed(alloc: Global, case: &str) -> Result<bool, Fail> {
    let (text, want) = cut(case, '@');
    let found = printed_of(alloc, text)?;
    Ok(found.as_str() == want)
}

#[test]
fn programs_are_printed_by_the_rules(rt: HostRuntime) -> Result<(), Fail> {
    for case in PROGRAMS.split("\n\n") {
        assert!(rt; is_printed(rt.alloc(), case)?, "{case}");
    }
    Ok(())
}

/// Texts that are no programs, with an empty line between each two: before each the line, the column and the kind of its first
/// fault. A `@` stands before the fault, and behind a second one what makes a program of the text before the fault.
const FAULTS: &str = "\
1 1 unexpected|@@function(a) {}\n\n\
2 2 unexpected|  \n @@function(a) {}\n\n\
1 9 unexpected|function@@ (a) {}\n\n\
1 10 unexpected|function(@) {}@a) {}\n\n\
1 10 unexpected|function(@while) {}@a) {}\n\n\
1 14 unexpected|function(a, b@, c) {}@) {}\n\n\
2 2 unexpected|function(doc) { // c\n @@}\n\n\
1 17 unexpected|function(doc) { @while (true) {} }@}\n\n\
1 18 unexpected|function(doc) {} @}@;\n\n\
1 18 unexpected|function(doc) {};@;@\n\n\
1 18 unexpected|function(doc) {} @x@;\n\n\
1 19 unexpected|function(doc) { x @y }@}\n\n\
2 1 unexpected|function(doc) { x\n@y }@}\n\n\
1 24 unexpected|function(doc) { if (x) @}@;}\n\n\
1 28 unexpected|function(doc) { if (x) y() @else z(); }@}\n\n\
1 17 unexpected|function(doc) { @else x; }@}\n\n\
1 17 unexpected|function(doc) { @break; }@}\n\n\
1 24 unexpected|function(doc) { if (x) @continue; }@;}\n\n\
1 36 unexpected|function(doc) { for (;;) { break } @continue }@}\n\n\
1 32 unexpected|function(doc) { for (;;) break @x; }@}\n\n\
1 19 unexpected|function(doc) { x.@of }@a }\n\n\
1 19 unexpected|function(doc) { x.@delete }@a }\n\n\
1 22 unexpected|function(doc) { y = {@if: 1} }@a: 1} }\n\n\
1 25 unexpected|function(doc) { x = 1 + @; }@1 }\n\n\
1 23 unexpected|function(doc) { a = b @= c }@}\n\n\
1 21 unexpected|function(doc) { (a) @= b }@}\n\n\
1 21 unexpected|function(doc) { a.b @= c }@}\n\n\
1 19 unexpected|function(doc) { -x@++ }@}\n\n\
1 17 unexpected|function(doc) { @++x }@}\n\n\
1 23 unexpected|function(doc) { x ? y @}@: z }\n\n\
1 28 unexpected|function(doc) { for (let x @in y) {} }@of y) {} }\n\n\
1 24 unexpected|function(doc) { for (x @of y) {} }@;;) {} }\n\n\
1 26 unexpected|function(doc) { for (a; b@) {} }@;) {} }\n\n\
1 32 unexpected|function(doc) { for (let a = 1 @of b) {} }@;;) {} }\n\n\
1 21 unexpected|function(doc) { let @}@a }\n\n\
1 28 unexpected|function(doc) { let x = 1, @}@y }\n\n\
1 21 unexpected|function(doc) { f(a,@) }@b) }\n\n\
1 20 unexpected|function(doc) { [1,@] }@2] }\n\n\
1 22 unexpected|function(doc) { x = {@1: 2} }@a: 2} }\n\n\
1 19 unexpected|function(doc) { {a@: 1} }@} }\n\n\
1 17 unexpected|function(doc) { @) 007 }@}\n\n\
1 22 unexpected|function(doc) { throw@; }@ x }\n\n\
1 17 range|function(doc) { @007 ) }@7 }\n\n\
1 25 range|function(doc) { channel(@00); }@0); }\n\n\
1 25 range|function(doc) { channel(@9007199254740992); }@1); }\n\n\
1 21 range|function(doc) { x = @99999999999999999999999999 }@1 }\n\n\
1 21 bad text|function(doc) { x = @'\\ud800' }@'' }\n\n\
1 21 bad text|function(doc) { x = @'\\u12g4' }@'' }\n\n\
1 21 bad text|function(doc) { x = @'\\q' }@'' }\n\n\
1 21 bad text|function(doc) { x = @'a\n' }@'' }\n\n\
1 21 bad text|function(doc) { x = @\"a' }@'' }\n\n\
1 19 bad text|function(doc) { x @/* }@}\n\n\
1 19 bad text|function(doc) { x @& y }@}\n\n\
1 19 bad text|function(doc) { x @# }@}\n\n\
2 7 bad text|function(doc)\n{\t'\u{e9}' @\u{e9} }@}\n\n\
1 18 bad text|function(doc) {} @'a@;\n\n\
2 5 unexpected|function(doc) {\r\n  x @y }@}";

/// What is wrong, in words.
fn why_word(why: SyntaxWhy) -> &'static [u8] {
    match why {
        SyntaxWhy::Range => b" range",
        SyntaxWhy::BadText => b" bad text",
        SyntaxWhy::Unexpected => b" unexpected",
        SyntaxWhy::TooDeep => b" too deep",
        SyntaxWhy::TooLong => b" too long",
    }
}

fn write_bad(place: Place, why: SyntaxWhy, text: &mut Bytes) -> Result<(), AllocError> {
    write_two(u64::from(place.line), b' ', u64::from(place.column), text)?;
    text.extend_from_slice(why_word(why))
}

/// The first fault of a text, as its line, its column and its kind; nothing of a program.
fn write_fault(alloc: Global, found: &str, text: &mut Bytes) -> Result<(), AllocError> {
    match parse(alloc, found) {
        Ok(_) => Ok(()),
        Err(ParseFault::Bad(SyntaxFault { place, why })) => write_bad(place, why, text),
        Err(ParseFault::Memory) => text.extend_from_slice(b"no answer"),
    }
}

/// The same of three texts in one.
fn write_joined(
    alloc: Global,
    one: &str,
    two: &str,
    three: &str,
    text: &mut Bytes,
) -> Result<(), AllocError> {
    let found = joined(alloc, one, two, three)?;
    write_fault(alloc, found.as_str(), text)
}

/// The first fault of a text, and that of what begins as it and goes on as a program.
fn write_both(alloc: Global, case: &str, text: &mut Bytes) -> Result<(), AllocError> {
    let (before, rest) = cut(case, '@');
    let (fault, other) = cut(rest, '@');
    write_joined(alloc, before, fault, "", text)?;
    write_joined(alloc, before, other, "", text)
}

fn is_right(alloc: Global, case: &str) -> Result<bool, AllocError> {
    let (want, case) = cut(case, '|');
    let mut text = Bytes::new(alloc);
    write_both(alloc, case, &mut text)?;
    Ok(text.as_slice() == want.as_bytes())
}

/// The first fault is reported at its token, and none late: what stands before it begins a program.
#[test]
fn the_first_fault_is_reported_at_its_token(rt: HostRuntime) -> Result<(), Fail> {
    for case in FAULTS.split("\n\n") {
        assert!(rt; is_right(rt.alloc(), case)?, "{case}");
    }
    Ok(())
}

/// Programs of so many opening parentheses, `1` and so many closing ones, one a line, and texts of so many blanks, with their first
/// faults: at most 100 are open, and a text has at most 65,536 bytes.
const LARGE: &str = "\
97 97|\n\
98 98|1 119 too deep\n\
101 101|1 119 too deep\n\
10000 10000|1 119 too deep\n\
60000 0|1 119 too deep\n\
blank 65536|1 65537 unexpected\n\
blank 65537|1 1 too long";

fn push_many(sign: &str, count: u64, text: &mut String) -> Result<(), AllocError> {
    for _ in 0..count {
        text.push_str(sign)?;
    }
    Ok(())
}

/// So many times a sign.
fn many(alloc: Global, sign: &str, count: u64) -> Result<String, AllocError> {
    let mut text = String::new(alloc);
    push_many(sign, count, &mut text)?;
    Ok(text)
}

fn nested(alloc: Global, open: u64, close: u64) -> Result<String, AllocError> {
    let opening = many(alloc, "(", open)?;
    let closing = many(alloc, ")", close)?;
    joined(alloc, opening.as_str(), "1", closing.as_str())
}

fn write_nested(alloc: Global, open: u64, close: u64, text: &mut Bytes) -> Result<(), AllocError> {
    let inner = nested(alloc, open, close)?;
    write_joined(alloc, "function(doc) { x = ", inner.as_str(), " }", text)
}

fn write_blank(alloc: Global, count: u64, text: &mut Bytes) -> Result<(), AllocError> {
    let blank = many(alloc, " ", count)?;
    write_fault(alloc, blank.as_str(), text)
}

fn write_large(alloc: Global, case: &str, text: &mut Bytes) -> Result<(), AllocError> {
    let (one, two) = cut(case, ' ');
    if one == "blank" {
        return write_blank(alloc, number_of(two), text);
    }
    write_nested(alloc, number_of(one), number_of(two), text)
}

fn is_large(alloc: Global, line: &str) -> Result<bool, AllocError> {
    let (case, want) = cut(line, '|');
    let mut text = Bytes::new(alloc);
    write_large(alloc, case, &mut text)?;
    Ok(text.as_slice() == want.as_bytes())
}

#[test]
fn large_texts(rt: HostRuntime) -> Result<(), Fail> {
    for line in LARGE.split('\n') {
        assert!(rt; is_large(rt.alloc(), line)?, "{line}");
    }
    Ok(())
}
