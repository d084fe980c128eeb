//! Functions of the sync language with the first fault of their names.

use crate::faults::program;
use crate::texts::{cut, joined, write_two};
use sg_outside::Bytes;
use std::alloc::{AllocError, Global};
use std::test::Fail;
use sync_resolve::{ResolveFault, resolve};
use sync_syntax::{Place, Program};

/// Functions with the first fault of their names, one a line. A body stands on the second line of its function, whose parameters
/// are `doc` and `old`; a text that begins with `function` is whole.
const FUNCTIONS: &str = "\
channel(doc.channels)#resolved\n\
channel(x)#unknown name at 2:9\n\
channel(doc); x#unknown name at 2:15\n\
x = 1#unknown name at 2:1\n\
x += 1#unknown name at 2:1\n\
x++#unknown name at 2:1\n\
x--#unknown name at 2:1\n\
var x; x = 1#resolved\n\
x = 1; { var x }#resolved\n\
{ for (var i = 0;;) for (var x of doc) break } x = i#resolved\n\
let x; x = 1#resolved\n\
x = 1; let x#unknown name at 2:1\n\
let x = x#unknown name at 2:9\n\
let a = 1, b = a; channel(b)#resolved\n\
let a = b, b = 1#unknown name at 2:9\n\
{ let x } x#unknown name at 2:11\n\
if (doc) let x = 1; else x#resolved\n\
if (doc) { let x } else x#unknown name at 2:25\n\
for (let i = 0; i < 1; i++) channel(i)#resolved\n\
for (let i = 0; i < 1; i++) ; i#unknown name at 2:31\n\
for (let x of x) ;#unknown name at 2:15\n\
for (var x of [x]) ; x#resolved\n\
for (const x of doc) x = 1#const written at 2:22\n\
const x = 1; x = 2#const written at 2:14\n\
const x = 1; { let x; x = 2 }#resolved\n\
const x = 1; { const x = 2 } x++#const written at 2:30\n\
const doc = 1; doc = 2#const written at 2:16\n\
var x; const x = 1; x += 1#const written at 2:21\n\
doc = 1; old--#resolved\n\
let x, x#redeclared at 2:8\n\
let x; const x = 1#redeclared at 2:14\n\
let x; { let x }#resolved\n\
let x; var x; var x#resolved\n\
let doc, old#resolved\n\
for (let x = 0;;) let x#redeclared at 2:23\n\
for (let x = 0;;) { let x }#resolved\n\
for (let x of doc) const x = 1#redeclared at 2:26\n\
if (doc) let x; else let x#redeclared at 2:26\n\
if (doc) let x; let x#redeclared at 2:21\n\
let channel#redeclared at 2:5\n\
var role = 1#redeclared at 2:5\n\
for (const access of doc) ;#redeclared at 2:12\n\
let Array, indexOf, isArray#resolved\n\
channel#unknown name at 2:1\n\
x = channel; var channel, x#unknown name at 2:5\n\
channel = 1#unknown name at 2:1\n\
channel()#wrong count at 2:1\n\
channel(1, 2, 3)#resolved\n\
access(1)#wrong count at 2:1\n\
access(1, 2, 3)#wrong count at 2:1\n\
access(1, 2); role(1, 2)#resolved\n\
role()#wrong count at 2:1\n\
requireUser()#wrong count at 2:1\n\
requireUser(1); requireRole(1, 2)#wrong count at 2:17\n\
requireRole(1); requireAccess()#wrong count at 2:17\n\
requireAccess(1); requireAdmin(1)#wrong count at 2:19\n\
requireAdmin()#resolved\n\
doc.indexOf()#wrong count at 2:1\n\
doc.a.b.concat(1, 2)#wrong count at 2:1\n\
'a'.startsWith()#wrong count at 2:1\n\
doc.startsWith(1)#resolved\n\
Array.isArray()#wrong count at 2:1\n\
Array.isArray(1)#resolved\n\
Array#unknown name at 2:1\n\
Array.isArray#unknown name at 2:1\n\
Array.indexOf(1)#unknown name at 2:1\n\
foo(1)#unknown name at 2:1\n\
doc(1)#unknown name at 2:1\n\
doc.foo(1)#unknown name at 2:1\n\
doc[0](1)#unknown name at 2:1\n\
channel(1)(2)#unknown name at 2:1\n\
channel(1).indexOf(2)#resolved\n\
(channel)(1); (doc.indexOf)(1); (Array.isArray)(1)#resolved\n\
(channel)()#wrong count at 2:2\n\
(Array.isArray)()#wrong count at 2:2\n\
(doc.indexOf)()#wrong count at 2:2\n\
x.indexOf()#unknown name at 2:1\n\
channel.indexOf()#unknown name at 2:1\n\
channel(doc.y, z())#unknown name at 2:16\n\
channel(doc.indexOf(), y)#wrong count at 2:9\n\
(doc + x)(1)#unknown name at 2:2\n\
channel({a: x})#unknown name at 2:13\n\
channel([x])#unknown name at 2:10\n\
doc ? x : y#unknown name at 2:7\n\
doc ? doc : y#unknown name at 2:13\n\
doc && x#unknown name at 2:8\n\
typeof z#unknown name at 2:8\n\
doc[z]#unknown name at 2:5\n\
return x#unknown name at 2:8\n\
throw x#unknown name at 2:7\n\
if (x) ; y#unknown name at 2:5\n\
for (; doc; x++) ; y#unknown name at 2:13\n\
for (; x;) ;#unknown name at 2:8\n\
function(doc) { channel(x); }#unknown name at 1:25\n\
function(doc) { requireUser(); }#wrong count at 1:17\n\
function(doc, doc) {}#resolved\n\
function(channel) {}#redeclared at 1:10\n\
function(doc, access) {}#redeclared at 1:15\n\
function channel(doc) { channel(doc.c); }#resolved\n\
function sync(doc) { sync(doc) }#unknown name at 1:22\n\
function(doc) { oldDoc }#unknown name at 1:17";

fn write_fault(what: &[u8], place: Place, text: &mut Bytes) -> Result<(), AllocError> {
    text.extend_from_slice(what)?;
    write_two(u64::from(place.line), b':', u64::from(place.column), text)
}

/// The first fault of the names of a program.
fn write_found(alloc: Global, program: Program, text: &mut Bytes) -> Result<(), AllocError> {
    match resolve(alloc, program) {
        Ok(_) => text.extend_from_slice(b"resolved"),
        Err(ResolveFault::UnknownName(place)) => write_fault(b"unknown name at ", place, text),
        Err(ResolveFault::WrongCount(place)) => write_fault(b"wrong count at ", place, text),
        Err(ResolveFault::Redeclared(place)) => write_fault(b"redeclared at ", place, text),
        Err(ResolveFault::ConstWritten(place)) => write_fault(b"const written at ", place, text),
        Err(ResolveFault::Memory) => text.extend_from_slice(b"no memory"),
    }
}

/// The text of a function.
fn function(alloc: Global, body: &str) -> Result<String, AllocError> {
    if body.starts_with("function") {
        return String::from_str(alloc, body);
    }
    joined(alloc, "function(doc, old) {\n", body, "\n}")
}

fn program_of(alloc: Global, body: &str) -> Result<Program, Fail> {
    let text = function(alloc, body)?;
    program(alloc, text.as_str())
}

fn is_right(alloc: Global, line: &str) -> Result<bool, Fail> {
    let (body, want) = cut(line, '#');
    let program = program_of(alloc, body)?;
    let mut text = Bytes::new(alloc);
    write_found(alloc, program, &mut text)?;
    Ok(text.as_slice() == want.as_bytes())
}

#[test]
fn names_of_functions(rt: HostRuntime) -> Result<(), Fail> {
    for line in FUNCTIONS.split('\n') {
        assert!(rt; is_right(rt.alloc(), line)?, "{line}");
    }
    Ok(())
}
