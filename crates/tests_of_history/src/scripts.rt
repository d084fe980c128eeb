//! Which line of a script is bad first.

use crate::texts::{cut, tabbed, write_bad};
use principals::read_admin;
use sg_history::write_decimal;
use sg_outside::Bytes;
use std::alloc::{AllocError, Global};
use std::test::Fail;

/// Texts, one a line: before each the first bad line and what is bad there, or of a script how many lines it has.
const READ: &str = "\
0;sgadmin 1/\n\
4;sgadmin 1/user|ann|-|-/role|staff|A/dropuser|ann/droprole|staff/\n\
2;sgadmin 1/doc|d1|-|0|7b7d/doc|d1|1-a|1|7b7d/\n\
1 Head;\n\
1 Head;/\n\
1 Head;sgadmin 2/\n\
1 Head;sgadmin 1 /\n\
1 Ending;sgadmin 1\n\
2 Ending;sgadmin 1/dropuser|ann\n\
2 Ending;sgadmin 1/other\n\
2 Kind;sgadmin 1//\n\
2 Kind;sgadmin 1/other|ann/\n\
2 Kind;sgadmin 1/User|ann|-|-/\n\
2 Kind;sgadmin 1/a|b|c|d|e|f|g/\n\
2 Fields;sgadmin 1/user|ann|-/\n\
2 Fields;sgadmin 1/role|ann|-|-/\n\
2 Fields;sgadmin 1/doc|d1|-|0|7b7d|/\n\
2 Fields;sgadmin 1/dropuser/\n\
2 Field(2);sgadmin 1/dropuser|a:b/\n\
2 Field(2);sgadmin 1/user|~|B,A|-/\n\
2 Field(3);sgadmin 1/user|ann|B,A|-/\n\
2 Field(4);sgadmin 1/user|ann|A,B|/\n\
2 Field(2);sgadmin 1/doc|_d|-|0|7b7d/\n\
2 Field(3);sgadmin 1/doc|d1|4294967295-a|0|7b7d/\n\
2 Field(3);sgadmin 1/doc|d1||0|7b7d/\n\
2 Field(4);sgadmin 1/doc|d1|-|2|7b7d/\n\
2 Field(5);sgadmin 1/doc|d1|-|0|/\n\
2 Field(5);sgadmin 1/doc|d1|-|0|7B7D/\n\
3 Kind;sgadmin 1/dropuser|ann//dropuser|\n\
3 Field(2);sgadmin 1/dropuser|ann/droprole|-/x";

fn write_read(alloc: Global, script: &[u8], text: &mut Bytes) -> Result<(), AllocError> {
    match read_admin(alloc, script) {
        Ok(lines) => write_decimal(lines.as_slice().len() as u64, text),
        Err(fault) => write_bad(&fault, text),
    }
}

/// What a text is read as.
fn read_text(alloc: Global, script: &str) -> Result<Bytes, AllocError> {
    let script = tabbed(alloc, script)?;
    let mut text = Bytes::new(alloc);
    write_read(alloc, script.as_slice(), &mut text)?;
    Ok(text)
}

fn is_right(alloc: Global, line: &str) -> Result<bool, AllocError> {
    let (want, text) = cut(line, ';');
    Ok(read_text(alloc, text)?.as_slice() == want.as_bytes())
}

#[test]
fn what_a_script_is_read_as(rt: HostRuntime) -> Result<(), Fail> {
    for line in READ.split('\n') {
        assert!(rt; is_right(rt.alloc(), line)?, "{line}");
    }
    Ok(())
}
