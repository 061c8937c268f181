//! Lines, sections and numbers: each call once.
ghost use Rattle.std.specs.Prelude.{◌<◌, ◌≤◌, length};

use std::alloc::{AllocError, Global};
use std::hash::BuildHasher;
use std::test::Fail;
use tsc_io::{Bytes, TextKey};
use tsc_text::{
    End, Lines, SectionLines, TextError, TextLine, begins_with_dot, number, push_number,
};

/// Appends one line: its number, `plan` or `line`, and its words.
fn show_line(out: &mut Bytes, lines: &Lines, line: usize) -> Result<(), AllocError>
    requires { line < length lines.now }
{
    push_number(out, lines.number(line) as u64)?;
    out.append(if lines.is_plan(line) {
        b" plan"
    } else {
        b" line"
    })?;
    for place in 0..lines.words(line) {
        out.push(b' ')?;
        out.append(lines.word(line, place))?;
    }
    out.push(b'\n')
}

fn show_lines(alloc: Global, text: &[u8]) -> Result<Bytes, Fail>
    requires short { length text.now ≤ 67108864 }
{
    let bytes = Bytes::from_slice(alloc, text)?;
    let lines = Lines::of(alloc, &bytes)?;
    let mut out = Bytes::new(alloc);
    for line in 0..lines.len() {
        show_line(&mut out, &lines, line)?;
    }
    Ok(out)
}

#[test]
fn lines_of_a_text(rt: HostRuntime) -> Result<(), Fail> {
    let text = b"a b\\# more\r\n c\\\r\n\n#tsc 1 x#y \n#tsc\n# no\nd\\e f\\";
    let out = show_lines(rt.alloc(), text)?;
    let expected = b"1 line a b c\n4 plan 1 x#y\n7 line d\\e f\n";
    assert_eq!(rt; out.as_slice(), expected.as_slice());
    Ok(())
}

#[test]
fn key_of_the_text(rt: HostRuntime) -> Result<(), Fail> {
    let text = Bytes::from_slice(rt.alloc(), b"a b\n#c\n")?;
    let key = Lines::of(rt.alloc(), &text)?.key();
    assert_eq!(rt;
        key.hash_one(7u8),
        TextKey::of(text.as_slice()).hash_one(7u8)
    );
    assert!(rt; key.hash_one(7u8) != TextKey::of(b"a b\n#d\n").hash_one(7u8));
    Ok(())
}

#[test]
fn first_byte_that_is_not_allowed(rt: HostRuntime) -> Result<(), Fail> {
    let text = Bytes::from_slice(rt.alloc(), b"a\nb\n\x7f\n\x01")?;
    let refused = matches!(
        Lines::of(rt.alloc(), &text),
        Err(TextError::BadByte { line: 3 })
    );
    assert!(rt; refused);
    Ok(())
}

#[test]
fn sections_of_a_text(rt: HostRuntime) -> Result<(), Fail> {
    let text = Bytes::from_slice(rt.alloc(), b"a\n.e\n#tsc .end\n.end x\nb\n")?;
    let lines = Lines::of(rt.alloc(), &text)?;
    let blif = lines.section(0, End::Blif);
    assert_eq!(rt; blif.past, 3);
    assert_eq!(rt; blif.next, 4);
    let kiss = lines.section(0, End::Kiss);
    assert_eq!(rt; kiss.past, 1);
    assert_eq!(rt; kiss.next, 2);
    Ok(())
}

/// Appends one line of a section: its number, `plan` or `line`, and its words.
fn show_view(out: &mut Bytes, line: &TextLine) -> Result<(), AllocError> {
    push_number(out, line.number() as u64)?;
    out.append(if line.is_plan() { b" plan" } else { b" line" })?;
    for place in 0..line.words() {
        out.push(b' ')?;
        out.append(line.word(place))?;
    }
    out.push(b'\n')
}

/// The lines of the first section of a text that ends as a machine does.
#[tactic(auto, using(kiss_read::proofs::Sections::is_section))]
fn show_section(alloc: Global, text: &[u8]) -> Result<Bytes, Fail>
    requires short { length text.now ≤ 67108864 }
{
    let bytes = Bytes::from_slice(alloc, text)?;
    let lines = Lines::of(alloc, &bytes)?;
    let section = SectionLines::of(&lines, lines.section(0, End::Kiss));
    let mut out = Bytes::new(alloc);
    for place in 0..section.len() {
        show_view(&mut out, &section.line(place))?;
    }
    Ok(out)
}

#[test]
fn lines_of_a_section(rt: HostRuntime) -> Result<(), Fail> {
    let text = b".i 2\n\n#tsc x y\n.e\nb\n";
    let out = show_section(rt.alloc(), text)?;
    let expected = b"1 line .i 2\n3 plan x y\n";
    assert_eq!(rt; out.as_slice(), expected.as_slice());
    Ok(())
}

#[test]
fn numbers_as_words(rt: HostRuntime) -> Result<(), Fail> {
    assert_eq!(rt; number(b"18446744073709551615"), Some(18446744073709551615));
    assert_eq!(rt; number(b"18446744073709551616"), None);
    assert_eq!(rt; number(b"007"), Some(7));
    assert_eq!(rt; number(b""), None);
    assert_eq!(rt; number(b"000000000000000000001"), None);
    let mut out = Bytes::new(rt.alloc());
    push_number(&mut out, 1090)?;
    assert_eq!(rt; out.as_slice(), b"1090".as_slice());
    Ok(())
}

#[test]
fn directives_begin_with_a_dot(rt: HostRuntime) -> Result<(), Fail> {
    assert!(rt; begins_with_dot(b".e") && !begins_with_dot(b"e.") && !begins_with_dot(b""));
    Ok(())
}
