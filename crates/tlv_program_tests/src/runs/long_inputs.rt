//! Rows of long and deep inputs, and the lines of nested elements.
use super::row::{number, push_times};
use std::test::Fail;

/// Rows of inputs that are 128 elements deep, or longer than one read.
pub(crate) static LONG: &str = "\
128 elements|dump||3080*128 00*256|openings,0,0,128 closings,256,128||0|0|
129 elements|dump||3080*129|openings,0,0,128||2|0|fault at 257: F10 more than 128 open elements
a string that is read inside 128 elements|dump --inside 256||3080*128 0400|openings,0,0,128||2|0|fault at 257\
: F10 more than 128 open elements
a string that is not read inside 128 elements|dump||3080*128 0400|openings,0,0,128 20202020203235362020202020\
20303a20 2020*128 4f4354455420535452494e470a||2|0|fault at 258: F02 input ends inside an encoding
too deep, and past the bound|dump||30820100 3080*127 300100|2020202020202030202020203235363a2053455155454e434\
5207b0a openings,4,1,127||2|0|fault at 259: F10 more than 128 open elements
an unfinished header at the bound, inside 128 elements|dump||3081ff 3080*127 300100|2020202020202030202020203\
235353a2053455155454e4345207b0a openings,3,1,127||2|0|fault at 258: F11 element runs past the enclosing length
indef of 128 elements|indef||3080*128 00*256|3080*128 00*256||0|0|
indef of 129 elements|indef||3080*129|3080*128||2|0|fault at 257: F10 more than 128 open elements
the innermost of 128 elements|extract --offset 254||3080*128 0500 00*256|308005000000||0|0|
the NULL in 128 elements|extract --offset 256||3080*128 0500 00*256|0500||0|0|
the outermost of 128 elements|extract --offset 0||3080*128 0500 00*256|3080*128 0500 00*256||0|0|
the longest header of a constructed element|indef||bf818080808080808000fe 00*125 020500|bf8180808080808080008\
005000000||0|0|
4200 octets of padding|dump --padding||00*4200 0500|2020202020202030202020207061643a2070616464696e670a2020202\
034323030202020202020303a204e554c4c0a||0|0|
an OCTET STRING of 4200 octets|dump||04821068 61*4200|2020202020202030202020343230303a204f4354455420535452494\
e470a 2020202020202020202020202020202020202036312036312036312036312036312036312036312036312036312036312036312\
036312036312036312036312036310a*262 2020202020202020202020202020202020202036312036312036312036312036312036312\
036312036310a||0|0|
a UTF8String of 8193 octets|dump||0c822001 61*8193|2020202020202030202020383139333a2055544638537472696e670a 2\
0202020202020202020202020202020202020226161616161616161616161616161616161616161616161616161616161616161616161\
6161616161616161616161616161616161616161616161616161616161220a*128 202020202020202020202020202020202020202261\
220a||0|0|
the contents of a string of 4200 octets|extract --offset 2 --contents||30800c821068 61*4200|61*4200||0|0|
indef of a string of 4200 octets|indef||3082106c0c821068 61*4200|30800c821068 61*4200 0000||0|0|
";

/// Returns the first column of a line: an offset below 1000, in eight places.
fn columns_of(offset: u64) -> [u8; 8] {
    let hundreds = if offset < 100 {
        b' '
    } else {
        b'0' + (offset / 100 % 10) as u8
    };
    let tens = if offset < 10 {
        b' '
    } else {
        b'0' + (offset / 10 % 10) as u8
    };
    [
        b' ',
        b' ',
        b' ',
        b' ',
        b' ',
        hundreds,
        tens,
        b'0' + (offset % 10) as u8,
    ]
}

/// Adds two spaces for each level.
fn push_indentation(text: &mut Vec<u8>, level: u64) -> Result<(), Fail> {
    push_times(text, b"  ", level)
}

/// Adds the opening lines of `count` nested SEQUENCEs of indefinite length.
/// The outermost has this offset and this level.
fn push_openings(text: &mut Vec<u8>, offset: u64, level: u64, count: u64) -> Result<(), Fail> {
    for i in 0..count {
        let at = offset.saturating_add(i.saturating_mul(2));
        text.extend_from_slice(&columns_of(at))?;
        text.extend_from_slice(b"  indef: ")?;
        push_indentation(text, level.saturating_add(i))?;
        text.extend_from_slice(b"SEQUENCE {\n")?;
    }
    Ok(())
}

/// Adds the closing lines of `count` nested elements, of which the outermost has level 0. The end-of-contents octets of
/// the innermost have this offset.
fn push_closings(text: &mut Vec<u8>, offset: u64, count: u64) -> Result<(), Fail> {
    for i in 0..count {
        let at = offset.saturating_add(i.saturating_mul(2));
        text.extend_from_slice(&columns_of(at))?;
        text.extend_from_slice(b"    end: ")?;
        push_indentation(text, count.saturating_sub(i).saturating_sub(1))?;
        text.extend_from_slice(b"}\n")?;
    }
    Ok(())
}

/// Adds the lines that a group stands for. `openings,0,1,128` stands for the opening lines of 128 elements, of which
/// the outermost has offset 0 and level 1. `closings,256,128` stands for the closing lines of 128 elements. Returns
/// whether the group is one of these.
pub(crate) fn push_lines(text: &mut Vec<u8>, group: &str) -> Result<bool, Fail> {
    let (word, numbers) = group.split_once(',').unwrap_or((group, ""));
    let (first, rest) = numbers.split_once(',').unwrap_or((numbers, ""));
    if word == "openings" {
        let (level, count) = rest.split_once(',').unwrap_or((rest, ""));
        push_openings(text, number(first), number(level), number(count))?;
        return Ok(true);
    }
    if word == "closings" {
        push_closings(text, number(first), number(rest))?;
        return Ok(true);
    }
    Ok(false)
}
